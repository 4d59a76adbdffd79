ghost use Rattle.std.specs.Prelude.{◌↔◌, IsTrue};
ghost use Rattle.cm_core.specs.Flats.{IsSmall};

use cm_base::limits::{LATENCY, LEAVES};
use cm_core::Flat;

/// Whether the graph has at most 4,096 leaves, each with a latency of at most 65,536 frames.
pub fn is_small(flat: &Flat) -> bool
    ensures { IsTrue result ↔ IsSmall flat.now }
{
    flat.leaves.len() <= LEAVES as usize
        && flat
            .leaves
            .as_slice()
            .iter()
            .all(|leaf| leaf.latency <= LATENCY)
}
