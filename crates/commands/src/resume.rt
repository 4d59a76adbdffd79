//! The command `resume`: the stopped run of a state file goes on over a script, and the state that it comes to is written last.

ghost use Rattle.std.specs.Prelude.{◌≡◌, ◌<◌, ◌^◌, ◌⊎◌, true, [], length, map, IfOk, IfErr, OnOk};
ghost use Rattle.cm_base.specs.Scripts.{IsScriptFor};
ghost use Rattle.cm_io.specs.Seen.{CountsStay, IfTold, OnlyRead};
ghost use Rattle.item_lines.specs.Hearing.{ear};
ghost use Rattle.item_lines.specs.Telling.{mouth};
ghost use Rattle.module_player.specs.Playing.{instance_of};
ghost use Rattle.wasm_runner.specs.Snapshots.{Fits};
ghost use Rattle.wasm_tree.specs.Section.{ends_of};
ghost use Rattle.wasm_tree.specs.Valid.{Valid as IsValid};
ghost use Rattle.commands.specs.Files.{KeepsUnwritten};
ghost use Rattle.commands.specs.Resuming.{HasStopped, HoldsNew, NoStopped, RefusesStopped, SpellsStopped, refused_whole, state_after};
ghost use Rattle.commands.specs.Steps.{Ends, FailsToWrite, StateStopped, ended};
ghost use Rattle.commands.specs.Told.{TellsFor};
ghost use Rattle.commands.specs.Words.{Resume, name_of};

use crate::files::{read_file, write_file};
use crate::play::{read_input, valid_module};
use crate::state::state_of;
use crate::status::{FileRef, Status};
use crate::stop::{Stop, about, ended_with};
use crate::written::state_bytes;
use cm_base::limits::STATE_2_BYTES;
use cm_base::{FormFault, FormPart, FormRule, Script};
use cm_io::{Folder, Listener, Sink};
use module_player::Player;
use run_lines::tell_resumed;
use saved_state::{State, Version2};
use std::alloc::Global;
use wasm_runner::fits;
use wasm_valid::Valid;

/// A stopped run: what its state file has, and its module.
#[derive(Drop)]
struct StoppedRun {
    valid: Valid,
    state: Version2,
}

/// Goes on with the stopped run of a state file over the script of another, with at most `steps` reductions for each part of
/// the run, and writes the state that it comes to where a file is named for it.
pub fn resume_files<F: Folder, O: Sink, L: Listener>(
    alloc: Global,
    folder: &mut F,
    state: &str,
    input: &str,
    steps: u64,
    new: Option<&str>,
    out: &mut O,
    listeners: &mut Vec<L>,
) -> Result<(), Stop>
    requires few { length listeners.old.items < 2 ^ 31 }
    ensures ends { Ends (Resume state.now input.now steps (name_of new.entry)) (F.seen folder.old) (F.seen folder.new) (ended result) }
    ensures told { TellsFor (Resume state.now input.now steps (name_of new.entry)) (F.seen folder.old).holds
        (record { out = mouth (O.written out.old) (O.faults out.old) (O.refusals out.old); ears = map (λ l. ear (L.heard l) (L.count l) (L.faults l) (L.refusals l)) listeners.old.items })
        (record { out = mouth (O.written out.new) (O.faults out.new) (O.refusals out.new); ears = map (λ l. ear (L.heard l) (L.count l) (L.faults l) (L.refusals l)) listeners.new.items })
        (ended result) }
{
    let stopped = about(alloc, state, read_stopped(alloc, folder, state))?;
    let script = about(
        alloc,
        input,
        read_input(alloc, folder, input, stopped.valid.host()),
    )?;
    let StoppedRun {
        valid,
        state: stopped,
    } = stopped;
    match tell_resumed(
        alloc,
        valid,
        &stopped.snapshot,
        &script,
        steps,
        out,
        listeners,
    ) {
        Ok(player) => write_new(alloc, folder, new, &stopped, &script, &player),
        Err(end) => ended_with(Status::of_run(end)),
    }
}

/// The stopped run that a file holds.
fn read_stopped<F: Folder>(alloc: Global, folder: &mut F, name: &str) -> Result<StoppedRun, Status>
    ensures only_read { OnlyRead (F.seen folder.old) (F.seen folder.new) }
    ensures found { IfOk result (λ run. IfTold (F.seen folder.old) (λ files. HasStopped files name.now run.state run.valid.of run.valid.section)) }
    ensures valid { IfOk result (λ run. IsValid run.valid.of run.valid.section) }
    ensures fits { IfOk result (λ run. Fits run.valid.of run.valid.section run.state.snapshot) }
    ensures stopped { IfErr result (StateStopped (F.seen folder.old) (F.seen folder.new) (λ files. NoStopped files name.now)) }
{
    let bytes = read_file(alloc, folder, name, FileRef::State, STATE_2_BYTES)?;
    stopped_in(alloc, bytes.as_slice())
}

/// The stopped run that bytes are.
fn stopped_in(alloc: Global, bytes: &[u8]) -> Result<StoppedRun, Status>
    ensures found { IfOk result (λ run. SpellsStopped run.state run.valid.of run.valid.section bytes.now) }
    ensures refused { IfErr result (λ status. (status ≡ Status.NoMemory) ⊎ RefusesStopped bytes.now status) }
{
    match state_of(alloc, bytes)? {
        State::Version1(_) => Err(whole(FormRule::Version)),
        State::Version2(state) => {
            let valid = valid_module(alloc, state.module_bytes.as_slice())?;
            if !fits(&valid, &state.snapshot) {
                return Err(whole(FormRule::Snapshot));
            }
            Ok(StoppedRun { valid, state })
        }
    }
}

/// The status of a state file that is refused as a whole by this rule.
fn whole(rule: FormRule) -> Status
    ensures { result ≡ refused_whole rule }
{
    Status::StateRefused(FormFault {
        rule,
        part: FormPart::Whole,
        index: 0,
    })
}

/// Writes the state to which a stopped run comes over a script, whose player stands at its end, where a file is named for it.
fn write_new<F: Folder>(
    alloc: Global,
    folder: &mut F,
    new: Option<&str>,
    stopped: &Version2,
    script: &Script,
    player: &Player,
) -> Result<(), Stop>
    requires live { player.now.live ≡ true }
    requires script { IsScriptFor (ends_of player.now.of.section) script.now }
    ensures others { KeepsUnwritten (name_of new.entry) (F.seen folder.old) (F.seen folder.new) }
    ensures counts { CountsStay (F.seen folder.old) (F.seen folder.new) }
    ensures written { OnOk result (HoldsNew (name_of new.entry) (F.seen folder.new) (state_after stopped.now player.now.of.of player.now.of.section script.now (instance_of player.now []))) }
    ensures failure { IfErr result (λ stop. FailsToWrite (name_of new.entry) (F.seen folder.old) (F.seen folder.new) stop.status) }
{
    match new {
        Some(name) => {
            let bytes = state_bytes(alloc, stopped, script, player)?;
            write_file(alloc, folder, name, bytes.as_slice())
        }
        None => Ok(()),
    }
}
