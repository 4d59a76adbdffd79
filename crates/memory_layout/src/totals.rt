ghost use Rattle.std.specs.Prelude.{◌≡◌, ℕ, sum, sum_by};
ghost use Rattle.std.specs.Fn.{FnReturnsAt};
ghost use Rattle.cm_core.specs.Sizes as sizes;
ghost use Rattle.cm_core.specs.declared.flat.Chain.{Chain as TheChain};
ghost use Rattle.memory_layout.specs.Held.{held};
ghost use Rattle.memory_layout.specs.Totals.{CountsAs};

use crate::bytes::shape_scalars;
use cm_core::Chain;

/// The sum of what a call counts for each item.
pub fn total<T, F: Fn(&T) -> u64>(all: &[T], count: F) -> u64
    requires { F.IsAlwaysCallable count }
    ensures { (counted : T → ℕ) → CountsAs (FnReturnsAt F.Fn count) counted → result ≡ held (sum_by counted all.now) }
{
    let mut sum: u64 = 0;
    let mut rest = all;
    while let Some((first, others)) = rest.split_first() {
        sum = sum.saturating_add(count(first));
        rest = others;
    }
    sum
}

/// The sum of numbers.
pub fn sum_of(all: &[u64]) -> u64
    ensures { result ≡ held (sum all.now) }
{
    let mut sum: u64 = 0;
    let mut rest = all;
    while let Some((first, others)) = rest.split_first() {
        sum = sum.saturating_add(*first);
        rest = others;
    }
    sum
}

/// How many scalars chains count for.
pub fn chains_scalars(chains: &[Chain]) -> u64
    ensures { result ≡ held (sum_by (λ (c : TheChain). sizes.scalars c.shape) chains.now) }
{
    total(chains, |chain| shape_scalars(chain.shape.as_slice()))
}
