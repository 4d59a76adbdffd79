ghost use Rattle.std.specs.Prelude.{◌≡◌, IfOk};
ghost use Rattle.std.specs.List.{filter_map};
ghost use Rattle.graph_order.specs.Edges.{edge_of};

use cm_core::{Chain, Flat};
use graph_search::Edge;
use std::alloc::{AllocError, Global};

/// The edge of an undelayed chain from a leaf to a leaf.
fn undelayed(chain: &Chain) -> Option<Edge>
    ensures { result ≡ edge_of chain.now }
{
    match (chain.from.leaf, chain.to.leaf) {
        (Some(from), Some(to)) if chain.delay == 0 => Some(Edge {
            from: from.0,
            to: to.0,
        }),
        _ => None,
    }
}

/// An edge for each undelayed chain from a leaf to a leaf.
pub fn edges(alloc: Global, flat: &Flat) -> Result<Vec<Edge>, AllocError>
    ensures { IfOk result (λ es. es.items ≡ filter_map edge_of flat.now.chains) }
{
    flat.chains
        .as_slice()
        .iter()
        .filter_map(undelayed)
        .collect(alloc)
}
