ghost use Rattle.std.specs.Prelude.{IsTrue, IfOk, nat_eq};
ghost use Rattle.std.specs.List.{IsDistinct};

use std::alloc::{AllocError, Global};

/// Whether each number is below `count` and stands once.
pub fn are_distinct(alloc: Global, count: usize, numbers: &[u32]) -> Result<bool, AllocError>
    ensures { IfOk result (λ b. IsTrue b → IsDistinct nat_eq numbers.now) }
{
    let mut marks = vec![in alloc; false; count]?;
    for number in numbers {
        let at = *number as usize;
        if at >= count || marks[at] {
            return Ok(false);
        }
        marks[at] = true;
    }
    Ok(true)
}
