ghost use Rattle.std.specs.Prelude.{◌≡◌, ◌<◌, ◌↔◌, IsTrue, length};
ghost use Rattle.cm_core.specs.Flats.{IsLeafBelow, NamesLeaves};

use cm_core::{Flat, Point};

/// Whether the point is one of the host or of a leaf below `count`.
fn is_below(point: &Point, count: usize) -> bool
    ensures { IsTrue result ↔ IsLeafBelow count point.now.leaf }
{
    match point.leaf {
        Some(leaf) => (leaf.0 as usize) < count,
        None => true,
    }
}

/// Whether the leaves of all chains are leaves of the graph.
pub fn names_leaves(flat: &Flat) -> bool
    ensures { IsTrue result ↔ NamesLeaves flat.now }
{
    let count = flat.leaves.len();
    flat.chains.as_slice().iter().all(|chain| is_below(&chain.from, count)
        && is_below(&chain.to, count))
}
