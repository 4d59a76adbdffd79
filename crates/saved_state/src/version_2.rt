ghost use Rattle.std.specs.Prelude.{◌≡◌, ◌++◌, IfOk, IfErr};
ghost use Rattle.cm_base.specs.declared.forms.FormRule.TheVariants.{Shape};
ghost use Rattle.cm_base.specs.declared.forms.FormPart.TheVariants.{Whole};
ghost use Rattle.json_value.specs.Form.{fault as fault_of};
ghost use Rattle.saved_state.specs.Reading.{Gives, state_at};
ghost use Rattle.saved_state.specs.State.{IsVersion2Fail};
ghost use Rattle.saved_state.specs.Version2.{mark, IsVersion2};

use crate::cursor::{Cursor, Part, Stop, list};
use crate::state::Version2;
use cm_base::{Bytes, FormFail, FormPart, FormRule, Saved, Snapshot};
use json_value::refused;
use std::alloc::Global;

/// The state behind the mark.
#[tactic(auto, unfolding(crate::specs::Reading::state_at))]
fn state(alloc: Global, cursor: &mut Cursor<'_>) -> Result<Version2, Stop>
    ensures { Gives (λ x. (x, cursor.new)) result (state_at cursor.old) }
{
    let saved = list::<Saved>(alloc, cursor)?;
    let module_bytes = Bytes::read(alloc, cursor)?;
    let memory = Bytes::read(alloc, cursor)?;
    let globals = list::<i64>(alloc, cursor)?;
    let current = list::<i64>(alloc, cursor)?;
    Ok(Version2 {
        saved,
        module_bytes,
        snapshot: Snapshot {
            memory,
            globals,
            current,
        },
    })
}

/// The state behind the mark, where nothing follows.
pub(crate) fn read_version_2(alloc: Global, bytes: &[u8]) -> Result<Version2, FormFail>
    ensures found { IfOk result (IsVersion2 (mark ++ bytes.now)) }
    ensures refused { IfErr result (IsVersion2Fail (mark ++ bytes.now)) }
{
    let mut cursor = Cursor::new(bytes);
    match state(alloc, &mut cursor) {
        Ok(state) => if cursor.is_at_end() {
            Ok(state)
        } else {
            Err(no_state())
        },
        Err(Stop::Early) => Err(no_state()),
        Err(Stop::NoMemory) => Err(FormFail::NoMemory),
    }
}

fn no_state() -> FormFail
    ensures { result ≡ FormFail.Refused (fault_of Shape Whole 0) }
{
    refused(FormRule::Shape, FormPart::Whole, 0)
}
