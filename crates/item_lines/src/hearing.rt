// Listeners hear an item, one after another.

ghost use Rattle.std.specs.Prelude.{◌≡◌, ◌<◌, ◌^◌, length, map};
ghost use Rattle.item_lines.specs.Hearing.{ear, AnswersAs, HeardAs};

use cm_io::{Heard, Item, Listener};

/// How the listeners heard an item.
#[derive(Clone, Copy, Debug, PartialEq, Eq)]
pub enum Hearing {
    /// Each of them heard it.
    All,
    /// The listener at this position failed.
    Failed(u32),
    /// The listener at this position lacked memory.
    NoMemory(u32),
}

// One listener hears the item.
fn hear_one<L: Listener>(listener: &mut L, item: &Item) -> Heard
    ensures { AnswersAs item.now
        (ear (L.heard listener.old) (L.count listener.old) (L.faults listener.old) (L.refusals listener.old))
        result
        (ear (L.heard listener.new) (L.count listener.new) (L.faults listener.new) (L.refusals listener.new)) }
{
    listener.hear(item)
}

/// The listeners hear the item in their order, up to one that doesn't.
pub fn hear<L: Listener>(listeners: &mut Vec<L>, item: &Item) -> Hearing
    requires few { length listeners.old.items < 2 ^ 31 }
    ensures heard { HeardAs item.now
        (map (λ l. ear (L.heard l) (L.count l) (L.faults l) (L.refusals l)) listeners.old.items)
        result
        (map (λ l. ear (L.heard l) (L.count l) (L.faults l) (L.refusals l)) listeners.new.items) }
    ensures many { length listeners.new.items ≡ length listeners.old.items }
{
    for number in 0..listeners.len() {
        match hear_one(&mut listeners[number], item) {
            Heard::On => {}
            Heard::Failed => return Hearing::Failed(number as u32),
            Heard::NoMemory => return Hearing::NoMemory(number as u32),
        }
    }
    Hearing::All
}
