// An item is told: its line is put, and the listeners hear it.

ghost use Rattle.std.specs.Prelude.{◌≡◌, ◌<◌, ◌^◌, length, map, MatchOption};
ghost use Rattle.std.specs.Bool.{OnTrue};
ghost use Rattle.item_lines.specs.Hearing.{ear};
ghost use Rattle.item_lines.specs.Lines.{item_line};
ghost use Rattle.item_lines.specs.Telling.{mouth, PutsAs, Tells};

use crate::hearing::{Hearing, hear};
use crate::line::push_item;
use cm_base::{HostEnds, Item};
use cm_io::{Listener, Put, Sink};

/// What became of an item.
#[derive(Clone, Copy, Debug, PartialEq, Eq)]
pub enum Told {
    /// Its line was put, and each listener heard it.
    Heard,
    /// The put failed.
    PutFailed,
    /// The put found no memory.
    PutLacksMemory,
    /// The line couldn't be made for want of memory.
    LineLacksMemory,
    /// The listener at this position failed.
    ListenerFailed(u32),
    /// The listener at this position lacked memory.
    ListenerLacksMemory(u32),
}

// Makes the line of an item, and says whether there was memory for it.
fn make_line(line: &mut Vec<u8>, host: &HostEnds, item: &Item) -> bool
    ensures { OnTrue result (line.new.items ≡ item_line host.now item.now) }
{
    line.truncate(0);
    push_item(line, host.as_slice(), item).is_ok()
}

// The line is put as one piece.
fn put<O: Sink>(out: &mut O, line: &[u8]) -> Put
    ensures { PutsAs line.now (mouth (O.written out.old) (O.faults out.old) (O.refusals out.old)) result
        (mouth (O.written out.new) (O.faults out.new) (O.refusals out.new)) }
{
    out.put(line)
}

// The item's line is put, where there is memory for it.
fn put_line<O: Sink>(line: &mut Vec<u8>, host: &HostEnds, out: &mut O, item: &Item) -> Option<Put>
    ensures { MatchOption result (out.new ≡ out.old) (λ put. PutsAs (item_line host.now item.now)
        (mouth (O.written out.old) (O.faults out.old) (O.refusals out.old)) put
        (mouth (O.written out.new) (O.faults out.new) (O.refusals out.new))) }
{
    if !make_line(line, host, item) {
        return None;
    }
    Some(put(out, line))
}

/// Puts the item's line to `out` as one piece, and then the listeners hear the item in their order, up to one that doesn't.
/// `line` is used to make the line; with room for it no memory is taken.
pub fn tell<O: Sink, L: Listener>(
    line: &mut Vec<u8>,
    host: &HostEnds,
    out: &mut O,
    listeners: &mut Vec<L>,
    item: &Item,
) -> Told
    requires few { length listeners.old.items < 2 ^ 31 }
    ensures told { Tells host.now item.now
        (record { out = mouth (O.written out.old) (O.faults out.old) (O.refusals out.old); ears = map (λ l. ear (L.heard l) (L.count l) (L.faults l) (L.refusals l)) listeners.old.items })
        (record { out = mouth (O.written out.new) (O.faults out.new) (O.refusals out.new); ears = map (λ l. ear (L.heard l) (L.count l) (L.faults l) (L.refusals l)) listeners.new.items })
        result }
    ensures many { length listeners.new.items ≡ length listeners.old.items }
{
    match put_line(line, host, out, item) {
        Some(Put::Ok) => match hear(listeners, item) {
            Hearing::All => Told::Heard,
            Hearing::Failed(number) => Told::ListenerFailed(number),
            Hearing::NoMemory(number) => Told::ListenerLacksMemory(number),
        },
        Some(Put::Failed) => Told::PutFailed,
        Some(Put::NoMemory) => Told::PutLacksMemory,
        None => Told::LineLacksMemory,
    }
}
