// What a module exports to its host.

ghost use Rattle.std.specs.Prelude.{◌≡◌, IsTrue};
ghost use Rattle.wasm_tree.specs.Section.{ends_of};
ghost use Rattle.wasm_runner.specs.Exporting.{Offers};

use crate::ends::event_inputs;
use cm_base::HostEnd;
use wasm_runner::{Export, Runner};

/// Whether the module exports it, whose endpoints are these.
pub fn offers(runner: &Runner, ends: &[HostEnd], export: Export) -> bool
    requires { ends.now ≡ ends_of runner.now.of.section }
    ensures { IsTrue result → Offers runner.now.of.section export }
{
    match export {
        Export::Init => true,
        Export::Frame => runner.interface() == 1,
        Export::Event(number) => number < event_inputs(ends),
        Export::Frames(count) => runner.interface() == 2 && count >= 1 && count <= runner.block(),
    }
}
