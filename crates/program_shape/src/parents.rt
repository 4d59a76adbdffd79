ghost use Rattle.std.specs.Prelude.{◌≡◌, ◌∷◌, IfOk, map, nat_eq, vec_len};
ghost use Rattle.std.specs.List.{IsDistinct};
ghost use Rattle.graph_search.specs.Edges.{AreWithin};
ghost use Rattle.program_shape.specs.Shape.{AreParents};

use graph_search::Edge;
use std::alloc::{AllocError, Global};

/// For each node the one from which an edge leads to it.
pub fn parents(alloc: Global, count: u32, edges: &[Edge]) -> Result<Vec<Option<u32>>, AllocError>
    requires within { AreWithin count edges.now }
    requires once { IsDistinct nat_eq (map (λ e. e.to) edges.now) }
    ensures len { IfOk result (λ v. vec_len v ≡ count) }
    ensures parents { IfOk result (λ v. AreParents edges.now v.items) }
{
    let mut parents = vec![in alloc; None; count as usize]?;
    for edge in edges {
        parents[edge.to as usize] = Some(edge.from);
    }
    Ok(parents)
}
