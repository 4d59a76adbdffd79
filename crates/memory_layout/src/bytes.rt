ghost use Rattle.std.specs.Prelude.{◌≡◌, ◌+◌, sum_by};
ghost use Rattle.cm_core.specs.Measures as measures;
ghost use Rattle.cm_core.specs.Sizes as sizes;
ghost use Rattle.cm_core.specs.declared.unit.Var.{Var as TheVar};
ghost use Rattle.memory_layout.specs.Held.{held};

use cm_base::Scalar;
use cm_core::{Unit, Var};

/// How many bytes a scalar takes: eight for an `int64`, and four for another.
pub fn scalar_bytes(kind: Scalar) -> u64
    ensures { result ≡ sizes.scalar_bytes kind }
{
    match kind {
        Scalar::Int64 => 8,
        Scalar::Int32 | Scalar::Bool | Scalar::Wrap(_) | Scalar::Clamp(_) => 4,
    }
}

/// How many scalars a shape counts for, which is 1 where it has none.
pub fn shape_scalars(shape: &[Scalar]) -> u64
    ensures { result ≡ held (sizes.scalars shape.now) }
{
    (shape.len() as u64).max(1)
}

/// How many bytes some scalars take.
pub fn bytes_of(shape: &[Scalar]) -> u64
    ensures { result ≡ held (sizes.bytes_of shape.now) }
{
    let mut count: u64 = 0;
    let mut rest = shape;
    while let Some((first, others)) = rest.split_first() {
        count = count.saturating_add(scalar_bytes(*first));
        rest = others;
    }
    count
}

fn variables_bytes(all: &[Var]) -> u64
    ensures { result ≡ held (sum_by (λ (v : TheVar). sizes.bytes_of v.shape) all.now) }
{
    let mut count: u64 = 0;
    let mut rest = all;
    while let Some((first, others)) = rest.split_first() {
        count = count.saturating_add(bytes_of(first.shape.as_slice()));
        rest = others;
    }
    count
}

/// How many bytes the state of a unit takes.
pub fn state_bytes(unit: &Unit) -> u64
    ensures { result ≡ held (measures.state_bytes unit.now) }
{
    variables_bytes(unit.state.as_slice())
}
