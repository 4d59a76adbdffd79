ghost use Rattle.std.specs.Prelude.{◌≡◌, [], map, sum_by, IfOk};
ghost use Rattle.cm_core.specs.Types.{counts_after, known_count};
ghost use Rattle.memory_layout.specs.Held.{held, held_counts};

use crate::type_view::TypeView;
use cm_core::{CoreType, StructType};
use std::alloc::{AllocError, Global};

// How many scalars the fields of a struct have together, where those of the structs before it are known.
fn fields_scalars(fields: &[CoreType], known: &[u64]) -> u64
    ensures { result ≡ held (sum_by (known_count known.now) fields.now) }
{
    let mut count: u64 = 0;
    let mut rest = fields;
    while let Some((first, others)) = rest.split_first() {
        count = count.saturating_add(TypeView::of(first).scalars(known));
        rest = others;
    }
    count
}

/// How many scalars each struct has: a struct names only structs before it. Fails where memory runs out.
#[tactic(auto, using(crate::proofs::Counts::held_first))]
pub fn struct_counts(alloc: Global, structs: &[StructType]) -> Result<Vec<u64>, AllocError>
    ensures { IfOk result (λ known. known.items ≡ map held (counts_after [] structs.now)) }
{
    let mut known = Vec::with_capacity(alloc, structs.len())?;
    let mut rest = structs;
    while let Some((first, others)) = rest.split_first() {
        let count = fields_scalars(first.fields.as_slice(), &known);
        known.push(count)?;
        rest = others;
    }
    Ok(known)
}
