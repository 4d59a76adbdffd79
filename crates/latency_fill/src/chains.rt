ghost use Rattle.std.specs.Prelude.{◌≡◌, IfOk};
ghost use Rattle.std.specs.List.{filter_map};
ghost use Rattle.latency_fill.specs.Walks.{is_timed as is_timed_chain};
ghost use Rattle.latency_fill.specs.Edges.{host_source, timed_edge};

use cm_base::Kind;
use cm_core::{Chain, Flat};
use graph_search::Edge;
use std::alloc::{AllocError, Global};

/// Whether the chain is an undelayed chain of streams.
pub fn is_timed(chain: &Chain) -> bool
    ensures { result ≡ is_timed_chain chain.now }
{
    chain.kind == Kind::Stream && chain.delay == 0
}

/// The edge of a timed chain from a leaf to a leaf.
fn timed(chain: &Chain) -> Option<Edge>
    ensures { result ≡ timed_edge chain.now }
{
    match (chain.from.leaf, chain.to.leaf) {
        (Some(from), Some(to)) if is_timed(chain) => Some(Edge {
            from: from.0,
            to: to.0,
        }),
        _ => None,
    }
}

/// An edge for each timed chain from a leaf to a leaf.
pub fn edges(alloc: Global, flat: &Flat) -> Result<Vec<Edge>, AllocError>
    ensures { IfOk result (λ es. es.items ≡ filter_map timed_edge flat.now.chains) }
{
    flat.chains
        .as_slice()
        .iter()
        .filter_map(timed)
        .collect(alloc)
}

/// The leaf from which a timed chain leads to the host.
fn to_host(chain: &Chain) -> Option<u32>
    ensures { result ≡ host_source chain.now }
{
    match (chain.from.leaf, chain.to.leaf) {
        (Some(from), None) if is_timed(chain) => Some(from.0),
        _ => None,
    }
}

/// The leaves from which timed chains lead to the host.
pub fn host_sources(alloc: Global, flat: &Flat) -> Result<Vec<u32>, AllocError>
    ensures { IfOk result (λ leaves. leaves.items ≡ filter_map host_source flat.now.chains) }
{
    flat.chains
        .as_slice()
        .iter()
        .filter_map(to_host)
        .collect(alloc)
}
