ghost use Rattle.std.specs.Prelude.{◌≡◌};
ghost use Rattle.wasm_reader.specs.Reading.{Gives, each_at, vector_at, filled_at};

use crate::cursor::Cursor;
use crate::fault::{ReadFail, at, outside};
use cm_base::Items;
use std::alloc::Global;
use wasm_tree::ModuleRule;

/// What is read from the front of bytes.
pub trait Decode: Drop + Sized {
    ghost use Rattle.std.specs.Prelude.{List, ℕ, Result};
    ghost use Rattle.wasm_reader.specs.declared.fault.Fault.{Fault as TheFault};

    ghost reads: { List ℕ → Result (Self × List ℕ) TheFault };

    fn read(alloc: Global, cursor: &mut Cursor<'_>) -> Result<Self, ReadFail>
        ensures { Gives (λ x. (x, cursor.new)) result (reads cursor.old) };
}

/// What fills a stated size.
pub trait Filling: Drop + Sized {
    ghost use Rattle.std.specs.Prelude.{List, ℕ, Result};
    ghost use Rattle.wasm_reader.specs.declared.fault.Fault.{Fault as TheFault};

    ghost fills: { List ℕ → Result (Self × List ℕ) TheFault };

    fn fill(alloc: Global, cursor: &mut Cursor<'_>) -> Result<Self, ReadFail>
        ensures { Gives (λ x. (x, cursor.new)) result (fills cursor.old) };
}

/// So many elements, one after another.
fn each<T: Decode>(alloc: Global, count: u32, cursor: &mut Cursor<'_>) -> Result<Items<T>, ReadFail>
    ensures { Gives (λ x. (x, cursor.new)) result (each_at T.reads count cursor.old) }
{
    let mut items = Items::new(alloc);
    for _ in 0..count {
        let item = T::read(alloc, cursor)?;
        items.push(item)?;
    }
    Ok(items)
}

/// A count, and as many elements (Core Specification 1.0, 5.1.3).
impl<T: Decode> Filling for Items<T> {
    ghost fills = { vector_at T.reads };

    #[tactic(auto, unfolding(crate::specs::Reading::vector_at))]
    fn fill(alloc: Global, cursor: &mut Cursor<'_>) -> Result<Items<T>, ReadFail> {
        let count = cursor.index()?;
        each::<T>(alloc, count, cursor)
    }
}

/// A size, and what fills it. Where fewer bytes are left, these are read too, so that the first fault is found.
#[tactic(auto, unfolding(crate::specs::Reading::filled_at))]
pub fn filled<T: Filling>(alloc: Global, cursor: &mut Cursor<'_>) -> Result<T, ReadFail>
    ensures { Gives (λ x. (x, cursor.new)) result (filled_at T.fills cursor.old) }
{
    let size = cursor.index()? as usize;
    let whole = cursor.left();
    let mut contents = cursor.contents(size);
    let length = contents.left();
    match T::fill(alloc, &mut contents) {
        Err(fail) => Err(outside(fail, length, whole)),
        Ok(filling) => {
            if contents.left() == 0 && size <= whole {
                return Ok(filling);
            }
            let unfilled = at(ModuleRule::Size, contents.left());
            Err(outside(unfilled, length, whole))
        }
    }
}
