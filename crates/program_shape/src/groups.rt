ghost use Rattle.std.specs.Prelude.{◌≡◌, ◌<◌, ◌↔◌, IsTrue, All, length, true, false};
ghost use Rattle.cm_core.specs.Tree.{node_at};
ghost use Rattle.cm_core.specs.Consistent.{IsNode, IsGroup, is_graph};
ghost use Rattle.program_shape.specs.Shape.{AreAlike};

use crate::nodes::are_there;
use crate::same::are_alike;
use cm_base::NodeId;
use cm_core::{Body, Group, Program};

/// Whether there are instances, and all have the endpoints of the first.
fn have_same_ends(program: &Program, nodes: &[NodeId]) -> bool
    requires nodes { All (IsNode program.now) program.now.nodes }
    requires there { All (λ n. n.0 < length program.now.nodes) nodes.now }
    ensures some { IsTrue result → 0 < length nodes.now }
    ensures alike { IsTrue result → AreAlike program.now nodes.now }
{
    if nodes.is_empty() {
        return false;
    }
    let first = program.node(nodes[0]).ends.as_slice();
    for node in nodes {
        if !are_alike(program, first, program.node(*node).ends.as_slice()) {
            return false;
        }
    }
    true
}

/// Whether an instance is a graph.
pub fn is_graph(program: &Program, node: NodeId) -> bool
    requires { node.0 < length program.now.nodes }
    ensures { result ≡ is_graph (node_at program.now node).body }
{
    match &program.node(node).body {
        Body::Leaf(_) => false,
        Body::Graph(_) => true,
    }
}

/// Whether a group that is a graph itself is one graph, and no array.
fn is_own_group(program: &Program, group: &Group) -> bool
    requires { All (λ n. n.0 < length program.now.nodes) group.now.nodes }
    ensures { IsTrue result → (group.now.array ≡ false) × All (λ n. is_graph (node_at program.now n).body ≡ true) group.now.nodes }
{
    if group.array {
        return false;
    }
    for node in group.nodes.as_slice() {
        if !is_graph(program, *node) {
            return false;
        }
    }
    true
}

fn is_group(program: &Program, group: &Group) -> bool
    requires { All (IsNode program.now) program.now.nodes }
    ensures { IsTrue result → IsGroup program.now group.now }
{
    let nodes = group.nodes.as_slice();
    are_there(program, nodes)
        && have_same_ends(program, nodes)
        && (group.array || nodes.len() == 1)
        && (!group.own || is_own_group(program, group))
}

/// Whether each group has instances that fit together.
pub fn are_groups(program: &Program) -> bool
    requires { All (IsNode program.now) program.now.nodes }
    ensures { IsTrue result → All (IsGroup program.now) program.now.groups }
{
    for group in program.groups.as_slice() {
        if !is_group(program, group) {
            return false;
        }
    }
    true
}
