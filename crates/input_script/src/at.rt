ghost use Rattle.std.specs.Prelude.{◌≡◌};
ghost use Rattle.input_script.specs.Script.{fails, at_entry};

use cm_base::{FormFail, FormPart, FormRule};
use json_value::{refused, told};

/// The member of a script in which a rule fails, and the position of the entry or of the name in it.
#[derive(Clone, Copy, Debug)]
pub(crate) struct At {
    part: FormPart,
    index: u32,
}

impl At {
    /// An entry of an array, or a name among the names of an object.
    pub(crate) fn entry(part: FormPart, index: usize) -> At
        ensures { result ≡ at_entry part index }
    {
        At {
            part,
            index: told(index),
        }
    }

    pub(crate) fn fails(self, rule: FormRule) -> FormFail
        ensures { result ≡ FormFail.Refused (fails self rule) }
    {
        refused(rule, self.part, self.index)
    }
}
