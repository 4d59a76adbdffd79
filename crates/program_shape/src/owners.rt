ghost use Rattle.std.specs.Prelude.{◌≡◌, ◌<◌, IsTrue, IfOk, IfSome, All, length, slice_index_or, None, Some};
ghost use Rattle.cm_core.specs.Consistent.{IsGroup};
ghost use Rattle.program_shape.specs.Shape.{IsOwner, AreOwners, HasParents, AreIn};

use crate::groups::is_graph;
use crate::misfit::Misfit;
use cm_base::NodeId;
use cm_core::{Group, Program};
use std::alloc::Global;

/// Whether all of these instances are in the graph.
fn are_in(parents: &[Option<u32>], nodes: &[NodeId], graph: u32) -> bool
    requires { All (λ n. n.0 < length parents.now) nodes.now }
    ensures { IsTrue result → AreIn parents.now graph nodes.now }
{
    for node in nodes {
        if parents[node.0 as usize] != Some(graph) {
            return false;
        }
    }
    true
}

/// The graph in which a group stands.
fn owner(program: &Program, parents: &[Option<u32>], group: &Group) -> Option<NodeId>
    requires parents { HasParents program.now parents.now }
    requires group { IsGroup program.now group.now }
    ensures { IfSome result (IsOwner program.now group.now) }
{
    let nodes = group.nodes.as_slice();
    let first = nodes[0];
    if group.own {
        return Some(first);
    }
    let graph = parents[first.0 as usize]?;
    if (graph as usize) < program.nodes.len()
        && is_graph(program, NodeId(graph))
        && are_in(parents, nodes, graph)
    {
        Some(NodeId(graph))
    } else {
        None
    }
}

/// For each group the graph in which it stands.
pub fn owners(
    alloc: Global,
    program: &Program,
    parents: &[Option<u32>],
) -> Result<Vec<NodeId>, Misfit>
    requires parents { HasParents program.now parents.now }
    requires groups { All (IsGroup program.now) program.now.groups }
    ensures { IfOk result (λ v. AreOwners program.now v.items) }
{
    let mut owners = Vec::with_capacity(alloc, program.groups.len())?;
    for group in program.groups.as_slice() {
        match owner(program, parents, group) {
            Some(graph) => owners.push(graph)?,
            None => return Err(Misfit::Apart),
        }
    }
    Ok(owners)
}
