ghost use Rattle.std.specs.Prelude.{◌≡◌, ◌↔◌, IsTrue, Contains};
ghost use Rattle.cm_io.specs.Count.{raised as raised_count};

use cm_base::Items;

/// Numbers of calls of an object, counted from 0.
pub type CallList = Items<u64>;

/// Whether the list has this call.
pub fn has_call(calls: &CallList, call: u64) -> bool
    ensures { IsTrue result ↔ Contains calls.now call }
{
    calls.as_slice().contains(&call)
}

/// A count after one more. At the greatest number it stands still.
pub fn raised(count: u64) -> u64
    ensures { result ≡ raised_count count }
{
    count.saturating_add(1)
}
