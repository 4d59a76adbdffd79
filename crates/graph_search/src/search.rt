ghost use Rattle.std.specs.Prelude.{OnOk, IfOk, IfErr};
ghost use Rattle.graph_search.specs.Edges.{AreWithin};
ghost use Rattle.graph_search.specs.Orders.{IsOrder, IsAcyclic, IsFault};

use crate::Indices;
use crate::edges::Edge;
use crate::failure::SearchFail;
use crate::placing::place;
use crate::walking::cycle_from;
use std::alloc::Global;

/// Each time the least node that isn't placed and whose predecessors are all placed. Where no node is left to
/// be placed so and some aren't placed, a cycle.
pub fn order(alloc: Global, count: u32, edges: &[Edge]) -> Result<Indices, SearchFail>
    requires { AreWithin count edges.now }
    ensures found { IfOk result (λ ls. IsOrder edges.now count ls) }
    ensures acyclic { OnOk result (IsAcyclic edges.now) }
    ensures cycle { IfErr result (IsFault edges.now) }
{
    let placed = place(alloc, count, edges)?;
    for node in 0..count {
        if placed.unmet[node as usize] != 0 {
            let cycle = cycle_from(alloc, node, count, edges, &placed)?;
            return Err(SearchFail::Cycle(Indices::from_vec(cycle)));
        }
    }
    Ok(Indices::from_vec(placed.order))
}
