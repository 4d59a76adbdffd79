// What the endpoints of a module say of its calls and of its slots.

ghost use Rattle.std.specs.Prelude.{◌≡◌, ◌&&◌, min};
ghost use Rattle.cm_base.specs.Parts.{is_input, is_event};
ghost use Rattle.wasm_tree.specs.Host.{event_inputs as inputs_of};

use cm_base::{Flow, HostEnd, Kind};

fn is_event_input(end: &HostEnd) -> bool
    ensures { result ≡ (is_input end.now.flow && is_event end.now.kind) }
{
    matches!((end.flow, end.kind), (Flow::Input, Kind::Event))
}

/// How many of the endpoints are event inputs, and the greatest number where there are more.
pub fn event_inputs(ends: &[HostEnd]) -> u32
    ensures { result ≡ min (inputs_of ends.now) 4294967295 }
{
    let mut count: u32 = 0;
    for end in ends {
        if is_event_input(end) {
            count = count.saturating_add(1);
        }
    }
    count
}
