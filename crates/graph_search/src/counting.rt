ghost use Rattle.std.specs.Prelude.{◌≡◌, ◌<◌, ◌≤◌, ℕ, min, length, slice_index, sum_by, All, OnOk, IfOk, IfErr};
ghost use Rattle.graph_search.specs.Edges.{AreWithin};
ghost use Rattle.graph_search.specs.Orders.{IsAcyclic, IsFault};
ghost use Rattle.graph_search.specs.Paths.{counted, ArePathCounts};

use crate::Counts;
use crate::edges::Edge;
use crate::failure::SearchFail;
use crate::placing::successors;
use crate::search::order;
use std::alloc::Global;

/// The count of a node whose edges lead to the nodes `next`, from the counts of these.
fn node_count(is_end: bool, next: &[u32], counts: &[u64], limit: u64) -> u64
    requires { All (λ q. q < length counts.now) next.now }
    ensures { result ≡ min (counted is_end (sum_by (slice_index counts.now) next.now)) limit }
{
    if is_end {
        return limit.min(1);
    }
    let mut total: u64 = 0;
    for node in next {
        total = total.saturating_add(counts[*node as usize]).min(limit);
    }
    total
}

/// For each node how many paths lead from it to an end, held at `limit`. A path ends at the first end that it
/// meets, and `ends` says of each node whether it is one. No path is walked: the nodes are taken in the reverse of
/// the order, and the counts behind a node's edges are added.
pub fn path_counts(
    alloc: Global,
    count: u32,
    edges: &[Edge],
    ends: &[bool],
    limit: u64,
) -> Result<Counts, SearchFail>
    requires within { AreWithin count edges.now }
    requires len { length ends.now ≡ count }
    ensures found { IfOk result (λ cs. ArePathCounts edges.now ends.now count limit cs) }
    ensures acyclic { OnOk result (IsAcyclic edges.now) }
    ensures cycle { IfErr result (IsFault edges.now) }
{
    let found = order(alloc, count, edges)?;
    let next = successors(alloc, count, edges)?;
    let nodes = found.as_slice();
    let mut counts = vec![in alloc; 0; count as usize]?;
    for step in 0..count {
        let node = nodes[(count - 1 - step) as usize] as usize;
        counts[node] = node_count(ends[node], &next[node], &counts, limit);
    }
    Ok(Counts::from_vec(counts))
}
