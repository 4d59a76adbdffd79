ghost use Rattle.std.specs.Prelude.{◌≡◌};
ghost use Rattle.json_value.specs.Form.{fault as fault_of, told};

use cm_base::{FormFail, FormFault, FormPart, FormRule};

/// The refusal of a file for a rule that fails in this part of it, at this index.
pub fn refused(rule: FormRule, part: FormPart, index: u32) -> FormFail
    ensures { result ≡ FormFail.Refused (fault_of rule part index) }
{
    FormFail::Refused(FormFault { rule, part, index })
}

/// An index as it is told: it stands still at the end of its type.
pub fn told(index: usize) -> u32
    ensures { result ≡ told index }
{
    u32::try_from(index).unwrap_or(u32::MAX)
}
