ghost use Rattle.std.specs.Prelude.{OnOk, IfOk, IfErr};
ghost use Rattle.graph_search.specs.Edges.{AreWithin};
ghost use Rattle.graph_search.specs.Orders.{IsAcyclic, IsFault, IsRanking};

use crate::Indices;
use crate::edges::Edge;
use crate::failure::SearchFail;
use crate::search::order;
use std::alloc::Global;

/// For each node a number below `count` that falls along every edge: how many nodes stand after it in the order.
pub fn ranks(alloc: Global, count: u32, edges: &[Edge]) -> Result<Indices, SearchFail>
    requires { AreWithin count edges.now }
    ensures found { IfOk result (λ rs. IsRanking edges.now count rs) }
    ensures acyclic { OnOk result (IsAcyclic edges.now) }
    ensures cycle { IfErr result (IsFault edges.now) }
{
    let found = order(alloc, count, edges)?;
    let nodes = found.as_slice();
    let mut ranks = vec![in alloc; 0; count as usize]?;
    let mut left = count;
    for node in nodes {
        left -= 1;
        ranks[*node as usize] = left;
    }
    Ok(Indices::from_vec(ranks))
}
