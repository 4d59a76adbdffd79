ghost use Rattle.std.specs.Prelude.{◌≡◌, IfOk, IfErr};
ghost use Rattle.cm_base.specs.declared.forms.FormFail.TheVariants.{NoMemory as LacksMemory};
ghost use Rattle.saved_state.specs.State.{IsState, IsStateFail, limit_of, parameters_in};

use crate::version_1::read_version_1;
use crate::version_2::read_version_2;
use cm_base::limits::{STATE_2_BYTES, STATE_BYTES};
use cm_base::{Bytes, FormFail, SavedList, Snapshot};
use std::alloc::Global;

/// The first bytes of a file of version 2.
pub(crate) const MARK: [u8; 4] = [0x43, 0x4D, 0x53, 0x32];

/// What a file of version 2 has: the saved parameters, the bytes of the module that ran, and where its run stands.
#[derive(Debug, Drop)]
pub struct Version2 {
    pub saved: SavedList,
    pub module_bytes: Bytes,
    pub snapshot: Snapshot,
}

/// What a state file has.
#[derive(Debug, Drop)]
pub enum State {
    Version1(SavedList),
    Version2(Version2),
}

impl State {
    /// The parameters that it has.
    pub fn parameters(&self) -> &SavedList
        ensures { result.now ≡ parameters_in self.now }
    {
        match self {
            State::Version1(saved) => saved,
            State::Version2(state) => &state.saved,
        }
    }
}

/// How many bytes a state file may have when it is read, by the version that its first bytes tell.
pub fn most_bytes(bytes: &[u8]) -> u64
    ensures { result ≡ limit_of bytes.now }
{
    if bytes.starts_with(&MARK) {
        STATE_2_BYTES
    } else {
        STATE_BYTES
    }
}

/// Reads a state file. A file that begins with the four bytes 43 4D 53 32 is of version 2, and any other one of
/// version 1, a JSON object with the members `version` and `parameters`.
///
/// # Errors
/// `Refused` where the file isn't of the form of its version. `NoMemory` where memory runs out.
pub fn read_state(alloc: Global, bytes: &[u8]) -> Result<State, FormFail>
    ensures state { IfOk result (IsState bytes.now) }
    ensures refused { IfErr result (IsStateFail bytes.now) }
{
    match bytes.strip_prefix(&MARK) {
        Some(rest) => Ok(State::Version2(read_version_2(alloc, rest)?)),
        None => Ok(State::Version1(read_version_1(alloc, bytes)?)),
    }
}
