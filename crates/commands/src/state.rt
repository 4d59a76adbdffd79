//! The state file with whose parameters a run begins.

ghost use Rattle.std.specs.Prelude.{◌≡◌, ◌⊎◌, IfOk, IfErr};
ghost use Rattle.cm_base.specs.HostEnds.{IsLawful};
ghost use Rattle.cm_base.specs.Scripts.{AreSaved};
ghost use Rattle.cm_io.specs.Seen.{IfTold, OnlyRead};
ghost use Rattle.commands.specs.declared.status.FileRef.TheVariants.{State as OfState};
ghost use Rattle.commands.specs.Files.{FileWith, IsStateFile};
ghost use Rattle.commands.specs.Restoring.{NoSaved, NoState, RefusesState, SavedFor, SavesFor, SpellsState, most_state};
ghost use Rattle.commands.specs.Steps.{Stopped};
ghost use Rattle.commands.specs.Words.{name_of};

use crate::files::read_file;
use crate::status::{FileRef, Status};
use crate::stop::{Stop, about};
use cm_base::limits::STATE_2_BYTES;
use cm_base::{FormFail, HostEnds, SavedList};
use cm_io::Folder;
use saved_state::{State, most_bytes, nothing_saved, read_state, restore};
use std::alloc::Global;

/// The parameters with which a run begins over these endpoints: those of a state file, where one is named.
pub fn read_saved<F: Folder>(
    alloc: Global,
    folder: &mut F,
    state: Option<&str>,
    host: &HostEnds,
) -> Result<SavedList, Stop>
    requires { IsLawful host.now }
    ensures only_read { OnlyRead (F.seen folder.old) (F.seen folder.new) }
    ensures saved { IfOk result (SavedFor (name_of state.entry) (F.seen folder.old).holds host.now) }
    ensures in_range { IfOk result (AreSaved host.now) }
    ensures stopped { IfErr result (λ stop. Stopped (F.seen folder.old) (F.seen folder.new) (IsStateFile (name_of state.entry)) (λ files. NoSaved files (name_of state.entry)) stop.status) }
{
    match state {
        Some(name) => about(alloc, name, read_parameters(alloc, folder, name, host)),
        None => Ok(nothing_saved(alloc, host)),
    }
}

/// The parameters that a state file saves for these endpoints.
fn read_parameters<F: Folder>(
    alloc: Global,
    folder: &mut F,
    name: &str,
    host: &HostEnds,
) -> Result<SavedList, Status>
    requires { IsLawful host.now }
    ensures only_read { OnlyRead (F.seen folder.old) (F.seen folder.new) }
    ensures found { IfOk result (λ saved. IfTold (F.seen folder.old) (λ files. FileWith files name.now most_state (SavesFor host.now saved))) }
    ensures in_range { IfOk result (AreSaved host.now) }
    ensures stopped { IfErr result (Stopped (F.seen folder.old) (F.seen folder.new) (λ f. f ≡ OfState) (λ files. NoState files name.now)) }
{
    let bytes = read_file(alloc, folder, name, FileRef::State, STATE_2_BYTES)?;
    parameters_of(alloc, bytes.as_slice(), host)
}

/// The parameters that bytes of a state file save for these endpoints.
fn parameters_of(alloc: Global, bytes: &[u8], host: &HostEnds) -> Result<SavedList, Status>
    requires { IsLawful host.now }
    ensures found { IfOk result (λ saved. SavesFor host.now saved bytes.now) }
    ensures in_range { IfOk result (AreSaved host.now) }
    ensures refused { IfErr result (λ status. (status ≡ Status.NoMemory) ⊎ RefusesState bytes.now status) }
{
    let state = state_of(alloc, bytes)?;
    Ok(restore(alloc, host, state.parameters())?)
}

/// The state that bytes are, no more than their version may have.
pub fn state_of(alloc: Global, bytes: &[u8]) -> Result<State, Status>
    ensures found { IfOk result (SpellsState bytes.now) }
    ensures refused { IfErr result (λ status. (status ≡ Status.NoMemory) ⊎ RefusesState bytes.now status) }
{
    let length = bytes.len() as u64;
    if length > most_bytes(bytes) {
        return Err(Status::TooBig(FileRef::State, length));
    }
    match read_state(alloc, bytes) {
        Ok(state) => Ok(state),
        Err(FormFail::Refused(fault)) => Err(Status::StateRefused(fault)),
        Err(FormFail::NoMemory) => Err(Status::NoMemory),
    }
}
