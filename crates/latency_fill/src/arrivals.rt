ghost use Rattle.std.specs.Prelude.{◌≡◌, ◌+◌, ◌<◌, ◌≤◌, ◌⊎◌, ℕ, true, All, IfOk, [], length, slice_index, vec_len};
ghost use Rattle.std.specs.List.{filter_map};
ghost use Rattle.graph_search.specs.Edges.{AreWithin, member};
ghost use Rattle.cm_core.specs.Flats.{IsSmall, NamesLeaves};
ghost use Rattle.graph_order.specs.Order.{IsOrder};
ghost use Rattle.latency_fill.specs.Walks.{IsArrival, latency_in};
ghost use Rattle.latency_fill.specs.Edges.{AreSources, timed_edge};

use crate::chains::host_sources;
use cm_base::LeafId;
use cm_core::{Flat, Leaf};
use graph_search::Edge;
use std::alloc::{AllocError, Global};

/// A list for each leaf, with nothing in it.
fn empty_lists(alloc: Global, count: u32) -> Result<Vec<Vec<u32>>, AllocError>
    ensures len { IfOk result (λ lists. vec_len lists ≡ count) }
    ensures empty { IfOk result (λ lists. AreSources [] count lists.items) }
{
    let mut lists = Vec::with_capacity(alloc, count as usize)?;
    for _ in 0..count {
        lists.push(Vec::new(alloc))?;
    }
    Ok(lists)
}

/// For each leaf the leaves from which edges lead to it.
pub fn sources_of(alloc: Global, count: u32, edges: &[Edge]) -> Result<Vec<Vec<u32>>, AllocError>
    requires { AreWithin count edges.now }
    ensures len { IfOk result (λ lists. vec_len lists ≡ count) }
    ensures sources { IfOk result (λ lists. AreSources edges.now count lists.items) }
{
    let mut lists = empty_lists(alloc, count)?;
    for edge in edges {
        lists[edge.to as usize].push(edge.from)?;
    }
    Ok(lists)
}

/// The greatest sum of the arrival and the latency of one of these leaves, or 0.
fn latest(before: &[u32], arrive: &[u32], leaves: &[Leaf]) -> u32
    requires within { All (λ p. (p < length arrive.now) × (p < length leaves.now)) before.now }
    requires arrive { (p : ℕ) → slice_index arrive.now p ≤ 268435456 }
    requires latency { All (λ leaf. leaf.latency ≤ 65536) leaves.now }
    ensures upper { (p : ℕ) → member p before.now ≡ true → slice_index arrive.now p + latency_in leaves.now p ≤ result }
    ensures attained { (result ≡ 0) ⊎ ((p : ℕ) × (member p before.now ≡ true) × (slice_index arrive.now p + latency_in leaves.now p ≡ result)) }
{
    let mut most = 0;
    for leaf in before {
        let at = *leaf as usize;
        let sum = arrive[at] + leaves[at].latency;
        if sum > most {
            most = sum;
        }
    }
    most
}

/// The arrival of each leaf.
pub fn arrivals(
    alloc: Global,
    flat: &Flat,
    order: &[LeafId],
    before: &[Vec<u32>],
) -> Result<Vec<u32>, AllocError>
    requires small { IsSmall flat.now }
    requires within { NamesLeaves flat.now }
    requires order { IsOrder flat.now order.now }
    requires len { length before.now ≡ length flat.now.leaves }
    requires before { AreSources (filter_map timed_edge flat.now.chains) (length flat.now.leaves) before.now }
    ensures len { IfOk result (λ arrive. length arrive.items ≡ length flat.now.leaves) }
    ensures low { IfOk result (λ arrive. (p : ℕ) → slice_index arrive.items p ≤ 268435456) }
    ensures arrivals { IfOk result (λ arrive. (q : ℕ) → q < length flat.now.leaves → IsArrival flat.now (Some q) (slice_index arrive.items q)) }
{
    let leaves = flat.leaves.as_slice();
    let mut arrive = vec![in alloc; 0; leaves.len()]?;
    for leaf in order {
        let at = leaf.0 as usize;
        arrive[at] = latest(&before[at], &arrive, leaves);
    }
    Ok(arrive)
}

/// The arrival at the outputs of the host, which is the latency of the patch.
pub fn host_arrival(alloc: Global, flat: &Flat, arrive: &[u32]) -> Result<u32, AllocError>
    requires small { IsSmall flat.now }
    requires within { NamesLeaves flat.now }
    requires len { length arrive.now ≡ length flat.now.leaves }
    requires low { (p : ℕ) → slice_index arrive.now p ≤ 268435456 }
    requires arrivals { (q : ℕ) → q < length flat.now.leaves → IsArrival flat.now (Some q) (slice_index arrive.now q) }
    ensures { IfOk result (IsArrival flat.now None) }
{
    let sources = host_sources(alloc, flat)?;
    Ok(latest(&sources, arrive, flat.leaves.as_slice()))
}
