// Calls of a module whose items are told.

ghost use Rattle.std.specs.Prelude.{◌≡◌, ◌+◌, ◌<◌, ◌^◌, ◌∷◌, List, true, false, length};
ghost use Rattle.cm_base.specs.declared.play.Item.{Item};
ghost use Rattle.cm_base.specs.Parts.{Inputs, Task};
ghost use Rattle.cm_base.specs.Players.{stops};
ghost use Rattle.wasm_tree.specs.HostRun.{Instance, hears, module_player};
ghost use Rattle.wasm_tree.specs.Instance.{call_of};
ghost use Rattle.wasm_runner.specs.Exporting.{name_of, given_to, Offers};
ghost use Rattle.wasm_runner.specs.declared.export.Export.TheVariants.{Frames};
ghost use Rattle.wasm_runner.specs.declared.host.Ended.TheVariants.{Done};
ghost use Rattle.module_player.specs.declared.came.Came.TheVariants.{Ended as CameEnded};
ghost use Rattle.module_player.specs.Coming.{CallTells, Comes, machine_of, block_of, stop_of_block};

use crate::came::{Came, block_came};
use crate::host::Telling;
use crate::outputs::Outputs;
use crate::teller::Teller;
use wasm_runner::{Ended, Export, Runner};

// A call in which no mark may come.
fn call_told<'a, T: Teller>(
    runner: &mut Runner,
    export: Export,
    host: &mut Telling<'a, T>,
    steps: u64,
) -> Ended
    requires live { runner.old.live ≡ true }
    requires offers { Offers runner.old.of.section export }
    requires slots { host.old.outputs.now ≡ runner.old.of.section.slots }
    requires marks { host.old.marks ≡ 0 }
    ensures told { (trace : List Item) → CallTells T.tells trace (hears (machine_of runner.old.of steps) false host.old.frame (call_of runner.old.of.of (name_of export) (given_to export) runner.old.globals runner.old.memory) trace) host.old.teller.now result runner.new.globals runner.new.memory host.new.teller.now }
    ensures same { runner.new.of ≡ runner.old.of }
    ensures live { runner.new.live ≡ true → result ≡ Done }
    ensures dead { result ≡ Done → runner.new.live ≡ true }
    ensures slots { host.new.outputs.now ≡ host.old.outputs.now }
    ensures outputs { host.new.outputs.ghost_name ≡ host.old.outputs.ghost_name }
    ensures teller { host.new.teller.ghost_name ≡ host.old.teller.ghost_name }
{
    runner.call(export, host, steps)
}

/// A call of `init`, of an `e` or of `frame`, in which no mark may come: its events are told with this frame. It takes no
/// memory.
pub fn call_part<T: Teller>(
    runner: &mut Runner,
    export: Export,
    frame: u32,
    outputs: &mut Outputs,
    teller: &mut T,
    steps: u64,
) -> Ended
    requires live { runner.old.live ≡ true }
    requires offers { Offers runner.old.of.section export }
    requires slots { outputs.old ≡ runner.old.of.section.slots }
    ensures told { (trace : List Item) → CallTells T.tells trace (hears (machine_of runner.old.of steps) false frame (call_of runner.old.of.of (name_of export) (given_to export) runner.old.globals runner.old.memory) trace) teller.old result runner.new.globals runner.new.memory teller.new }
    ensures same { runner.new.of ≡ runner.old.of }
    ensures live { runner.new.live ≡ true → result ≡ Done }
    ensures dead { result ≡ Done → runner.new.live ≡ true }
    ensures slots { outputs.new ≡ outputs.old }
{
    let mut host = Telling {
        frame,
        marks: 0,
        entry: 0,
        outputs,
        teller,
    };
    call_told(runner, export, &mut host, steps)
}

// A call of `frames` whose marks end frames.
fn call_marked<'a, T: Teller>(
    runner: &mut Runner,
    count: u32,
    host: &mut Telling<'a, T>,
    steps: u64,
) -> Came
    requires live { runner.old.live ≡ true }
    requires offers { Offers runner.old.of.section (Frames count) }
    requires slots { host.old.outputs.now ≡ runner.old.of.section.slots }
    requires marks { host.old.marks ≡ count }
    requires entry { host.old.entry ≡ 0 }
    ensures told { (instance : Instance) (inputs : Inputs) (more : List Inputs) (rest : List Task) → length (inputs ∷ more) ≡ count →
        Comes T.tells instance.trace (stops (module_player runner.old.of.of runner.old.of.section) steps rest) (stop_of_block runner.old.of steps host.old.frame (block_of runner.old.of count runner.old.globals runner.old.memory) inputs more rest instance) host.old.teller.now result runner.new.globals runner.new.memory instance.current host.new.teller.now }
    ensures same { runner.new.of ≡ runner.old.of }
    ensures dead { result ≡ CameEnded → runner.new.live ≡ true }
    ensures slots { host.new.outputs.now ≡ host.old.outputs.now }
    ensures outputs { host.new.outputs.ghost_name ≡ host.old.outputs.ghost_name }
    ensures teller { host.new.teller.ghost_name ≡ host.old.teller.ghost_name }
{
    let ended = runner.call(Export::Frames(count), host, steps);
    block_came(ended, host.marks, host.frame)
}

/// A call of `frames` with `count` frames from this one on, whose slots have the inputs already. A mark ends a frame, and each
/// stretch up to a mark has `steps` reductions. It takes no memory.
pub fn call_frames<T: Teller>(
    runner: &mut Runner,
    count: u32,
    frame: u32,
    outputs: &mut Outputs,
    teller: &mut T,
    steps: u64,
) -> Came
    requires live { runner.old.live ≡ true }
    requires offers { Offers runner.old.of.section (Frames count) }
    requires slots { outputs.old ≡ runner.old.of.section.slots }
    requires frames { frame + count < 2 ^ 32 }
    ensures told { (instance : Instance) (inputs : Inputs) (more : List Inputs) (rest : List Task) → length (inputs ∷ more) ≡ count →
        Comes T.tells instance.trace (stops (module_player runner.old.of.of runner.old.of.section) steps rest) (stop_of_block runner.old.of steps frame (block_of runner.old.of count runner.old.globals runner.old.memory) inputs more rest instance) teller.old result runner.new.globals runner.new.memory instance.current teller.new }
    ensures same { runner.new.of ≡ runner.old.of }
    ensures dead { result ≡ CameEnded → runner.new.live ≡ true }
    ensures slots { outputs.new ≡ outputs.old }
{
    let mut host = Telling {
        frame,
        marks: count,
        entry: 0,
        outputs,
        teller,
    };
    call_marked(runner, count, &mut host, steps)
}
