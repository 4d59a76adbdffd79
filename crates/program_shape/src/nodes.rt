ghost use Rattle.std.specs.Prelude.{◌≡◌, ◌<◌, ◌↔◌, IsTrue, All, length};
ghost use Rattle.cm_core.specs.Consistent.{IsNode, HasBody};

use crate::same::are_as;
use cm_base::NodeId;
use cm_core::{Body, Node, Program};

/// Whether these instances are there.
pub fn are_there(program: &Program, nodes: &[NodeId]) -> bool
    ensures { IsTrue result ↔ All (λ n. n.0 < length program.now.nodes) nodes.now }
{
    let count = program.nodes.len();
    nodes.iter().all(|node| (node.0 as usize) < count)
}

/// Whether the unit of a leaf is there and has its endpoints, and the instances of a graph are there.
fn has_body(program: &Program, node: &Node) -> bool
    requires { All (λ e. e.0 < length program.now.ends) node.now.ends }
    ensures { IsTrue result → HasBody program.now node.now.ends node.now.body }
{
    match &node.body {
        Body::Leaf(unit) => match program.units.get(*unit as usize) {
            Some(found) => are_as(program, node.ends.as_slice(), found.ends.as_slice()),
            None => false,
        },
        Body::Graph(nodes) => are_there(program, nodes.as_slice()),
    }
}

/// Whether the endpoints of an instance are there.
fn has_ends(program: &Program, node: &Node) -> bool
    ensures { IsTrue result ↔ All (λ e. e.0 < length program.now.ends) node.now.ends }
{
    let count = program.ends.len();
    node.ends
        .as_slice()
        .iter()
        .all(|end| (end.0 as usize) < count)
}

fn is_node(program: &Program, node: &Node) -> bool
    ensures { IsTrue result → IsNode program.now node.now }
{
    has_ends(program, node) && has_body(program, node)
}

/// Whether each instance has a body and endpoints that are there.
pub fn are_nodes(program: &Program) -> bool
    ensures { IsTrue result → All (IsNode program.now) program.now.nodes }
{
    for node in program.nodes.as_slice() {
        if !is_node(program, node) {
            return false;
        }
    }
    true
}
