//! The command `render`: a patch is compiled, and its module is run over a script, from saved parameters on where a state
//! file is named.

ghost use Rattle.std.specs.Prelude.{◌≡◌, ◌≤◌, ◌<◌, ◌^◌, length, map, IfOk};
ghost use Rattle.cm_meaning.specs.Linked.{Linked};
ghost use Rattle.item_lines.specs.Hearing.{ear};
ghost use Rattle.item_lines.specs.Telling.{mouth};
ghost use Rattle.module_build.specs.Build.{KeepsForm};
ghost use Rattle.through_meaning.specs.Patches.{IsThroughPatch};
ghost use Rattle.wasm_tree.specs.Valid.{Valid as IsValid};
ghost use Rattle.commands.specs.Patch.{AreNames};
ghost use Rattle.commands.specs.Rendering.{reductions_for};
ghost use Rattle.commands.specs.Steps.{Ends, ended};
ghost use Rattle.commands.specs.Told.{TellsFor};
ghost use Rattle.commands.specs.Words.{Render, most_turns, name_of};

use crate::patch::read_patch;
use crate::play::read_input;
use crate::state::read_saved;
use crate::status::Status;
use crate::stop::{Stop, about, ended_with};
use cm_base::NoMemory;
use cm_front::Through;
use cm_io::{Folder, Listener, Sink};
use module_build::build_through;
use run_lines::tell_run;
use std::alloc::Global;
use wasm_valid::{Valid, validate};
use wasm_writer::write_module;

/// How many reductions of its module a turn of a patch of the form is worth.
const COST: u64 = 4_352;

/// Compiles the patch of a manifest and runs its module over the script of a file, with as many reductions for each part
/// of the run as `turns` turns are worth, from the parameters of a state file on where one is named.
pub fn render_files<F: Folder, O: Sink, L: Listener>(
    alloc: Global,
    folder: &mut F,
    manifest: &str,
    input: &str,
    turns: u64,
    state: Option<&str>,
    out: &mut O,
    listeners: &mut Vec<L>,
) -> Result<(), Stop>
    requires few { length listeners.old.items < 2 ^ 31 }
    requires turns { turns ≤ most_turns }
    ensures ends { Ends (Render manifest.now input.now turns (name_of state.entry)) (F.seen folder.old) (F.seen folder.new) (ended result) }
    ensures told { TellsFor (Render manifest.now input.now turns (name_of state.entry)) (F.seen folder.old).holds
        (record { out = mouth (O.written out.old) (O.faults out.old) (O.refusals out.old); ears = map (λ l. ear (L.heard l) (L.count l) (L.faults l) (L.refusals l)) listeners.old.items })
        (record { out = mouth (O.written out.new) (O.faults out.new) (O.refusals out.new); ears = map (λ l. ear (L.heard l) (L.count l) (L.faults l) (L.refusals l)) listeners.new.items })
        (ended result) }
{
    let patch = read_patch(alloc, folder, manifest)?;
    let valid = module_of(alloc, &patch)?;
    let saved = read_saved(alloc, folder, state, valid.host())?;
    let script = about(alloc, input, read_input(alloc, folder, input, valid.host()))?;
    let steps = reductions(&patch, turns);
    let end = tell_run(alloc, valid, &saved, &script, steps, out, listeners);
    ended_with(Status::of_patch_run(end))
}

/// The module of the patch with these names.
fn module_of(alloc: Global, patch: &Through) -> Result<Valid, NoMemory>
    requires { AreNames patch.now.input patch.now.output }
    ensures keeps { IfOk result (λ valid. KeepsForm patch.now.input patch.now.output valid.of) }
    ensures valid { IfOk result (λ valid. IsValid valid.of valid.section) }
{
    let module = build_through(alloc, &patch.input, &patch.output)?;
    let bytes = write_module(alloc, &module)?;
    match validate(alloc, module, bytes.as_slice()) {
        Ok(valid) => {
            let _valid = valid.module();
            Ok(valid)
        }
        // The module is valid, and so it is refused for want of memory alone.
        Err(_) => Err(NoMemory),
    }
}

/// How many reductions a part of the run of the patch with these names is given, by its turns.
fn reductions(patch: &Through, turns: u64) -> u64
    requires { turns ≤ most_turns }
    ensures { (p : Linked) → IsThroughPatch patch.now.input patch.now.output p → result ≡ reductions_for p turns }
{
    let _patch = patch;
    COST * (turns + 1)
}
