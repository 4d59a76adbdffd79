ghost use Rattle.std.specs.BTreeSet.{contains};
ghost use Rattle.std.specs.Ordering.{nat_cmp};
ghost use Rattle.std.specs.Prelude.{◌≡◌, ◌==◌, ◌&&◌, ◌||◌, ◌+◌, ◌<◌, ◌≤◌, ℕ, [], nat_lt, length, slice_index, All, IfOk, OnOk, vec_len};
ghost use Rattle.graph_search.specs.Edges.{AreWithin};
ghost use Rattle.graph_search.specs.Orders.{IsPlaced};
ghost use Rattle.graph_search.specs.Counts.{AreTargets, AreUnmet, TellPlaced, count_of};

use crate::edges::Edge;
use std::alloc::{AllocError, Global};
use std::collections::BTreeSet;

/// What can be placed, in order, and for each node how many edges into it come from nodes that can't.
#[derive(Drop)]
pub struct Placed {
    pub order: Vec<u32>,
    pub unmet: Vec<usize>,
}

/// A list for each node, with nothing in it.
fn empty_lists(alloc: Global, count: u32) -> Result<Vec<Vec<u32>>, AllocError>
    ensures { IfOk result (AreTargets [] count) }
{
    let mut lists = Vec::with_capacity(alloc, count as usize)?;
    for _ in 0..count {
        lists.push(Vec::new(alloc))?;
    }
    Ok(lists)
}

/// For each node the nodes that its edges lead to.
pub fn successors(alloc: Global, count: u32, edges: &[Edge]) -> Result<Vec<Vec<u32>>, AllocError>
    requires { AreWithin count edges.now }
    ensures { IfOk result (AreTargets edges.now count) }
{
    let mut lists = empty_lists(alloc, count)?;
    for edge in edges {
        lists[edge.from as usize].push(edge.to)?;
    }
    Ok(lists)
}

/// For each node how many edges lead into it.
fn degrees(alloc: Global, count: u32, edges: &[Edge]) -> Result<Vec<usize>, AllocError>
    requires { AreWithin count edges.now }
    ensures { IfOk result (AreUnmet edges.now [] count) }
{
    let mut counts = vec![in alloc; 0; count as usize]?;
    for edge in edges {
        counts[edge.to as usize] += 1;
    }
    Ok(counts)
}

/// Takes one from the count of each node for each time that it stands in `next`, and adds those that come to 0
/// to `ready`.
fn release(
    next: &[u32],
    unmet: &mut Vec<usize>,
    ready: &mut BTreeSet<u32>,
) -> Result<(), AllocError>
    requires within { All (λ q. q < vec_len unmet.old) next.now }
    requires enough { (q : ℕ) → count_of q next.now ≤ slice_index unmet.old.items q }
    ensures len { vec_len unmet.new ≡ vec_len unmet.old }
    ensures counts { OnOk result
        ((q : ℕ) → slice_index unmet.new.items q + count_of q next.now ≡ slice_index unmet.old.items q) }
    ensures ready { OnOk result
        ((q : ℕ) → contains nat_cmp ready.new q
        ≡ (contains nat_cmp ready.old q || (nat_lt 0 (count_of q next.now) && (slice_index unmet.new.items q == 0)))) }
{
    for node in next {
        unmet[*node as usize] -= 1;
        if unmet[*node as usize] == 0 {
            ready.insert(*node)?;
        }
    }
    Ok(())
}

/// The nodes with a count of 0.
fn sources(alloc: Global, unmet: &[usize], count: u32) -> Result<BTreeSet<u32>, AllocError>
    requires { length unmet.now ≡ count }
    ensures { IfOk result (λ s. (q : ℕ) → contains nat_cmp s q ≡ (nat_lt q count && (slice_index unmet.now q == 0))) }
{
    let mut ready = BTreeSet::new(alloc);
    for node in 0..count {
        if unmet[node as usize] == 0 {
            ready.insert(node)?;
        }
    }
    Ok(ready)
}

/// Places, again and again, the least node whose predecessors are all placed, as long as there is one.
pub fn place(alloc: Global, count: u32, edges: &[Edge]) -> Result<Placed, AllocError>
    requires { AreWithin count edges.now }
    ensures placed { IfOk result (λ r. IsPlaced edges.now count r.order.items) }
    ensures counts { IfOk result (λ r. AreUnmet edges.now r.order.items count r.unmet) }
    ensures few { IfOk result (λ r. length r.order.items ≤ count) }
    ensures all { IfOk result (λ r. TellPlaced count r.unmet.items r.order.items) }
{
    let next = successors(alloc, count, edges)?;
    let mut unmet = degrees(alloc, count, edges)?;
    let mut ready = sources(alloc, &unmet, count)?;
    let mut order = Vec::new(alloc);
    while let Some(node) = ready.pop_first() {
        order.push(node)?;
        release(&next[node as usize], &mut unmet, &mut ready)?;
    }
    Ok(Placed { order, unmet })
}
