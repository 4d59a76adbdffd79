ghost use Rattle.std.specs.Prelude.{◌≡◌, ◌-◌, ◌<◌, ◌^◌, [], length, map, IfOk};
ghost use Rattle.cm_core.specs.Types.{counts_after};
ghost use Rattle.cm_core.specs.Measures as measures;
ghost use Rattle.memory_layout.specs.Held.{held};
ghost use Rattle.memory_layout.specs.Scales.{counts_or};
ghost use Rattle.cm_core.specs.Sizes as sizes;
ghost use Rattle.cm_core.specs.Code.{stmt_of};

use crate::scale::Scale;
use crate::stmts::stmt_size;
use cm_core::{Function, StructType, Unit};
use std::alloc::{AllocError, Global};

// The size of the body of a function, where those of the functions from `first` on are known.
fn function_size<'a>(
    structs: &'a [StructType],
    known: &'a [u64],
    unit: &'a Unit,
    first: u32,
    later: &'a [u64],
    chains: &'a [u64],
    beyond: u64,
    function: &'a Function,
) -> u64
    requires counted { known.now ≡ map held (counts_after [] structs.now) }
    ensures { result ≡ held (sizes.stmt_size (measures.measured_in structs.now unit.now (λ g. measures.size_among later.now (g - first)) (counts_or chains.now beyond)) (stmt_of function.now.body)) }
{
    let scale = Scale {
        structs,
        known,
        unit,
        first,
        bodies: later,
        chains,
        beyond,
    };
    stmt_size(&scale, &function.body)
}

/// The sizes of the bodies of a unit's functions, which call only later ones: `chains` has what a write of each endpoint
/// counts for its chains, and `beyond` what one of another endpoint does. Fails where memory runs out.
pub fn body_sizes(
    alloc: Global,
    structs: &[StructType],
    known: &[u64],
    unit: &Unit,
    chains: &[u64],
    beyond: u64,
) -> Result<Vec<u64>, AllocError>
    requires few { length unit.now.functions < 2 ^ 31 }
    requires counted { known.now ≡ map held (counts_after [] structs.now) }
    ensures { IfOk result (λ sizes. sizes.items ≡ map held (measures.body_sizes structs.now unit.now (counts_or chains.now beyond) 0 unit.now.functions)) }
{
    let functions = unit.functions.as_slice();
    let mut sizes = vec![in alloc; 0; functions.len()]?;
    let mut left = functions.len();
    while left > 0 {
        left -= 1;
        let first = left as u32 + 1;
        let (_, later) = sizes.split_at(left + 1);
        let function = &functions[left];
        let size = function_size(structs, known, unit, first, later, chains, beyond, function);
        sizes[left] = size;
    }
    Ok(sizes)
}
