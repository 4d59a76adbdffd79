ghost use Rattle.std.specs.Prelude.{◌≡◌, length, Ok};
ghost use Rattle.wasm_reader.specs.Reading.{Gives, custom_at, with_custom, customs_at, section_at};

use crate::cursor::Cursor;
use crate::decode::{Decode, Filling, filled};
use crate::fault::ReadFail;
use crate::name::read_name;
use cm_base::Items;
use std::alloc::Global;
use wasm_tree::{CUSTOM_ID, Custom, Listed, is_cmajor};

/// The custom sections so far: those named `cmajor`, and the others.
#[derive(Debug, Drop)]
pub struct Found {
    pub others: Items<Custom>,
    pub named: Items<Custom>,
}

/// A name, and all bytes after it.
impl Filling for Custom {
    ghost fills = { custom_at };

    #[tactic(auto, unfolding(crate::specs::Reading::custom_at))]
    fn fill(alloc: Global, cursor: &mut Cursor<'_>) -> Result<Custom, ReadFail> {
        let name = read_name(alloc, cursor)?;
        let bytes = Items::from_slice(alloc, cursor.take_all())?;
        Ok(Custom { name, bytes })
    }
}

/// Adds a custom section.
fn put(found: &mut Found, custom: Custom) -> Result<(), ReadFail>
    ensures { Gives (λ _. found.new) result (Ok (with_custom custom found.old)) }
{
    if is_cmajor(&custom.name) {
        found.named.push(custom)?;
    } else {
        found.others.push(custom)?;
    }
    Ok(())
}

/// Adds the custom sections at the front.
pub fn customs(alloc: Global, found: &mut Found, cursor: &mut Cursor<'_>) -> Result<(), ReadFail>
    ensures { Gives (λ _. (found.new, cursor.new)) result (customs_at (length cursor.old) found.old cursor.old) }
{
    for _ in 0..cursor.left() {
        if !cursor.accept(CUSTOM_ID) {
            return Ok(());
        }
        let custom = filled(alloc, cursor)?;
        put(found, custom)?;
    }
    Ok(())
}

/// What the section that lists these is, if it is next but for custom sections, and else nothing.
#[tactic(auto, unfolding(crate::specs::Reading::section_at))]
pub fn section<T: Decode + Listed>(
    alloc: Global,
    found: &mut Found,
    cursor: &mut Cursor<'_>,
) -> Result<Items<T>, ReadFail>
    ensures { Gives (λ xs. ((xs, found.new), cursor.new)) result (section_at T.reads T.Listed.ID found.old cursor.old) }
{
    customs(alloc, found, cursor)?;
    if cursor.accept(T::ID) {
        return filled(alloc, cursor);
    }
    Ok(Items::new(alloc))
}
