ghost use Rattle.std.specs.Prelude.{◌≡◌, [], map, sum_by, IfOk};
ghost use Rattle.cm_core.specs.Sizes as sizes;
ghost use Rattle.type_places.specs.Bytes.{bytes_in, bytes_of_structs};
ghost use Rattle.type_places.specs.Held.{held};

use crate::type_view::TypeView;
use cm_base::Scalar;
use cm_core::{CoreType, StructType};
use std::alloc::{AllocError, Global};

/// How many bytes a scalar has.
pub fn scalar_bytes(kind: Scalar) -> u32
    ensures { result ≡ sizes.scalar_bytes kind }
{
    match kind {
        Scalar::Int64 => 8,
        Scalar::Int32 | Scalar::Bool | Scalar::Wrap(_) | Scalar::Clamp(_) => 4,
    }
}

/// How many bytes fields have together, where those of the structs before theirs are known.
pub fn fields_bytes(fields: &[CoreType], known: &[u64]) -> u64
    ensures { result ≡ held (sum_by (bytes_in known.now) fields.now) }
{
    let mut count: u64 = 0;
    let mut rest = fields;
    while let Some((first, others)) = rest.split_first() {
        count = count.saturating_add(TypeView::of(first).bytes(known));
        rest = others;
    }
    count
}

/// How many bytes each struct has: a struct names only structs before it. Fails where memory runs out.
#[tactic(auto, using(crate::proofs::Held::held_first))]
pub fn struct_bytes(alloc: Global, structs: &[StructType]) -> Result<Vec<u64>, AllocError>
    ensures { IfOk result (λ known. known.items ≡ map held (bytes_of_structs structs.now)) }
{
    let mut known = Vec::with_capacity(alloc, structs.len())?;
    let mut rest = structs;
    while let Some((first, others)) = rest.split_first() {
        let count = fields_bytes(first.fields.as_slice(), &known);
        known.push(count)?;
        rest = others;
    }
    Ok(known)
}
