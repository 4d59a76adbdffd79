// Who is told the items of a run.

ghost use Rattle.std.specs.Prelude.{◌≡◌, ◌<◌, ◌^◌, length};
ghost use Rattle.item_lines.specs.Telling.{is_heard};

use cm_base::Item;
use cm_io::{Listener, Sink};
use item_lines::{Told, tell};
use module_player::Teller;
use wasm_valid::Slots;

/// Tells items: their lines go to a sink, and listeners hear them.
#[derive(Drop)]
pub struct Outlet<'a, 'b, 'c, O, L> {
    /// Where a line is made.
    pub line: &'c mut Vec<u8>,
    pub slots: &'c Slots,
    pub out: &'a mut O,
    pub listeners: &'b mut Vec<L>,
    /// What became of the last item.
    pub last: Told,
    ghost few: { length listeners.now.items < 2 ^ 31 },
}

// Whether a run goes on after an item of which this became.
fn goes_on(last: Told) -> bool
    ensures { result ≡ is_heard last }
{
    matches!(last, Told::Heard)
}

impl<'a, 'b, 'c, O: Sink, L: Listener> Teller for Outlet<'a, 'b, 'c, O, L> {
    ghost use Rattle.std.specs.Prelude.{◌≡◌, map};
    ghost use Rattle.item_lines.specs.Hearing.{ear};
    ghost use Rattle.item_lines.specs.Telling.{is_heard, mouth, Tells};

    ghost tells = { λ o item go p. (p.out.ghost_name ≡ o.out.ghost_name) × (p.listeners.ghost_name ≡ o.listeners.ghost_name) × (p.line.ghost_name ≡ o.line.ghost_name) × (p.slots ≡ o.slots) × (go ≡ is_heard p.last) × Tells (map (λ slot. slot.end) o.slots.now) item (record { out = mouth (O.written o.out.now) (O.faults o.out.now) (O.refusals o.out.now); ears = map (λ l. ear (L.heard l) (L.count l) (L.faults l) (L.refusals l)) o.listeners.now.items }) (record { out = mouth (O.written p.out.now) (O.faults p.out.now) (O.refusals p.out.now); ears = map (λ l. ear (L.heard l) (L.count l) (L.faults l) (L.refusals l)) p.listeners.now.items }) p.last };

    fn tell(&mut self, item: &Item) -> bool {
        self.last = tell(self.line, self.slots.host(), self.out, self.listeners, item);
        goes_on(self.last)
    }
}
