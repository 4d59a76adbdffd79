ghost use Rattle.std.specs.Prelude.{◌≡◌, ◌+◌, ◌-◌, ◌<◌, ℕ, nat_eq, true, length, slice_index, IfOk, vec_len};
ghost use Rattle.std.specs.List.{IsDistinct};
ghost use Rattle.graph_search.specs.Edges.{AreWithin, member};
ghost use Rattle.graph_search.specs.Orders.{unmet_of, IsCycle};
ghost use Rattle.graph_search.specs.Counts.{AreUnmet, Blocks, TellPlaced};

use crate::edges::Edge;
use crate::placing::Placed;
use std::alloc::{AllocError, Global};

/// For each node into which an edge leads from a node that isn't placed, one such node.
fn blockers(
    alloc: Global,
    count: u32,
    edges: &[Edge],
    order: &[u32],
    counts: &[usize],
) -> Result<Vec<u32>, AllocError>
    requires within { AreWithin count edges.now }
    requires len { length counts.now ≡ count }
    requires all { TellPlaced count counts.now order.now }
    ensures len { IfOk result (λ v. vec_len v ≡ count) }
    ensures blocks { IfOk result (λ v. (q : ℕ) → 0 < unmet_of edges.now order.now q
        → Blocks edges.now count order.now (slice_index v.items q) q) }
{
    let mut blockers = vec![in alloc; 0; count as usize]?;
    for edge in edges {
        if counts[edge.from as usize] != 0 {
            blockers[edge.to as usize] = edge.from;
        }
    }
    Ok(blockers)
}

/// Where `node` stands first.
fn place_of(nodes: &[u32], node: u32) -> usize
    requires { member node nodes.now ≡ true }
    ensures within { result < length nodes.now }
    ensures found { slice_index nodes.now result ≡ node }
{
    let mut place = 0;
    while nodes[place] != node {
        place += 1;
    }
    place
}

/// From `start` to the node before it, and so on, until a node comes again: the nodes from there on, last first.
fn walk_back(
    alloc: Global,
    start: u32,
    before: &[u32],
    unmet: &[usize],
) -> Result<Vec<u32>, AllocError>
    requires len { length unmet.now ≡ length before.now }
    requires start { (start < length before.now) × (0 < slice_index unmet.now start) }
    requires stays { (q : ℕ) → 0 < slice_index unmet.now q
        → (slice_index before.now q < length before.now) × (0 < slice_index unmet.now (slice_index before.now q)) }
    ensures distinct { IfOk result (λ c. (0 < length c.items) × IsDistinct nat_eq c.items) }
    ensures blocked { IfOk result (λ c. (i : ℕ) → i < length c.items → 0 < slice_index unmet.now (slice_index c.items i)) }
    ensures steps { IfOk result (λ c. (i : ℕ) → i + 1 < length c.items
        → slice_index before.now (slice_index c.items (i + 1)) ≡ slice_index c.items i) }
    ensures closes { IfOk result (λ c. slice_index before.now (slice_index c.items 0) ≡ slice_index c.items (length c.items - 1)) }
{
    let mut seen = vec![in alloc; false; before.len()]?;
    let mut path = Vec::new(alloc);
    let mut at = start;
    while !seen[at as usize] {
        seen[at as usize] = true;
        path.push(at)?;
        at = before[at as usize];
    }
    let first = place_of(&path, at);
    let mut cycle = Vec::from_slice(alloc, &path[first..])?;
    cycle.reverse();
    Ok(cycle)
}

/// A cycle, where `start` is a node that can't be placed.
pub fn cycle_from(
    alloc: Global,
    start: u32,
    count: u32,
    edges: &[Edge],
    placed: &Placed,
) -> Result<Vec<u32>, AllocError>
    requires within { AreWithin count edges.now }
    requires start { (start < count) × (0 < slice_index placed.now.unmet.items start) }
    requires counts { AreUnmet edges.now placed.now.order.items count placed.now.unmet }
    requires all { TellPlaced count placed.now.unmet.items placed.now.order.items }
    ensures { IfOk result (λ c. IsCycle edges.now c.items) }
{
    let before = blockers(alloc, count, edges, &placed.order, &placed.unmet)?;
    let cycle = walk_back(alloc, start, &before, &placed.unmet)?;
    Ok(cycle)
}
