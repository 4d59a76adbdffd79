ghost use Rattle.std.specs.Prelude.{◌≡◌};
ghost use Rattle.wasm_reader.specs.Reading.{Gives, name_at};

use crate::cursor::Cursor;
use crate::fault::{ReadFail, at};
use cm_base::Name;
use std::alloc::Global;
use wasm_tree::ModuleRule;

/// A length, and as many bytes, which are UTF-8 (Core Specification 1.0, 5.2.4).
#[tactic(auto, unfolding(crate::specs::Reading::name_at, crate::specs::Reading::utf8_at))]
pub fn read_name(alloc: Global, cursor: &mut Cursor<'_>) -> Result<Name, ReadFail>
    ensures { Gives (λ x. (x, cursor.new)) result (name_at cursor.old) }
{
    let length = cursor.index()?;
    let left = cursor.left();
    match str::from_utf8(cursor.take(length as usize)?) {
        Ok(text) => Ok(Name::from_str(alloc, text)?),
        Err(error) => Err(at(ModuleRule::Text, left.saturating_sub(error.valid_up_to()))),
    }
}
