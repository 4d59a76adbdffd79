// What writing a state file again answers, in the words of rows.

ghost use Rattle.cm_base.specs.HostEnds.{IsLawful};

use crate::faults::form_fail_text;
use crate::lawful::is_short;
use crate::runs::push_bytes;
use crate::states::saved_in;
use cm_base::{Bytes, HostEnds, Items, NoMemory, SavedList, Snapshot};
use saved_state::{State, apply, read_state, snapshot_text};
use std::alloc::{AllocError, Global};

/// The file with the values that are applied to the parameters of the host, and none where something is too long for it.
fn written(
    alloc: Global,
    host: &HostEnds,
    saved: &SavedList,
    code: &[u8],
    snapshot: &Snapshot,
) -> Result<Option<Bytes>, NoMemory>
    requires { IsLawful host.now }
{
    let values = apply(alloc, host, saved)?;
    if !is_short(host.as_slice(), code, snapshot) {
        return Ok(None);
    }
    let text = snapshot_text(alloc, host, &values, code, snapshot)?;
    Ok(Some(text))
}

/// The same of a state. One of version 1 is written with no bytes of a module and an empty snapshot.
fn written_of(alloc: Global, host: &HostEnds, state: &State) -> Result<Option<Bytes>, NoMemory>
    requires { IsLawful host.now }
{
    match state {
        State::Version1(saved) => {
            let snapshot = Snapshot {
                memory: Items::new(alloc),
                globals: Items::new(alloc),
                current: Items::new(alloc),
            };
            written(alloc, host, saved, &[], &snapshot)
        }
        State::Version2(found) => {
            let code = found.module_bytes.as_slice();
            written(alloc, host, saved_in(state), code, &found.snapshot)
        }
    }
}

/// The bytes of the file that is written, or `same` where they are those of the text.
fn written_text(alloc: Global, text: &Bytes, bytes: &[u8]) -> Result<String, AllocError> {
    if text.as_slice() == bytes {
        return String::from_str(alloc, "same");
    }
    let mut line = String::from_str(alloc, "bytes")?;
    push_bytes(alloc, &mut line, text.as_slice())?;
    Ok(line)
}

/// The bytes of the state that is read and then written again for the endpoints of the host, as `bytes 67 77 83 50`, or
/// `same` where they are those of the text, or the refusal of the state.
pub fn written_answer(alloc: Global, bytes: &[u8], host: &HostEnds) -> Result<String, AllocError>
    requires { IsLawful host.now }
{
    match read_state(alloc, bytes) {
        Ok(state) => match written_of(alloc, host, &state) {
            Ok(Some(text)) => written_text(alloc, &text, bytes),
            Ok(None) => String::from_str(alloc, "too long"),
            Err(_) => String::from_str(alloc, "no memory"),
        },
        Err(fail) => form_fail_text(alloc, &fail),
    }
}
