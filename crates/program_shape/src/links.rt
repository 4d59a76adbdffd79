ghost use Rattle.std.specs.Prelude.{◌≡◌, ◌<◌, IsTrue, All, length};
ghost use Rattle.cm_core.specs.Tree.{node_at};
ghost use Rattle.cm_core.specs.Consistent.{IsGroup, IsSide, IsLink};
ghost use Rattle.program_shape.specs.Shape.{AreOwners};

use cm_base::NodeId;
use cm_core::{Group, Link, Program, Side};

/// Whether each instance of a group has an endpoint of this number.
fn has_end(program: &Program, group: &Group, end: u32) -> bool
    requires { IsGroup program.now group.now }
    ensures { IsTrue result → All (λ n. end < length (node_at program.now n).ends) group.now.nodes }
{
    let first = group.nodes.as_slice()[0];
    (end as usize) < program.node(first).ends.len()
}

/// Whether the group and the endpoint of a point are there.
fn is_side(program: &Program, side: &Side) -> bool
    requires { All (IsGroup program.now) program.now.groups }
    ensures { IsTrue result → IsSide program.now side.now }
{
    let groups = program.groups.as_slice();
    (side.group as usize) < groups.len() && has_end(program, &groups[side.group as usize], side.end)
}

/// Whether both points of a connection are there, and stand in one graph.
#[tactic(auto, using(crate::proofs::Sides::same_graph))]
fn is_link(program: &Program, owners: &[NodeId], link: &Link) -> bool
    requires groups { All (IsGroup program.now) program.now.groups }
    requires owners { AreOwners program.now owners.now }
    ensures { IsTrue result → IsLink program.now link.now }
{
    is_side(program, &link.from)
        && is_side(program, &link.to)
        && owners[link.from.group as usize] == owners[link.to.group as usize]
}

/// Whether each connection leads from a point to one of the same graph.
pub fn are_links(program: &Program, owners: &[NodeId]) -> bool
    requires groups { All (IsGroup program.now) program.now.groups }
    requires owners { AreOwners program.now owners.now }
    ensures { IsTrue result → All (IsLink program.now) program.now.links }
{
    for link in program.links.as_slice() {
        if !is_link(program, owners, link) {
            return false;
        }
    }
    true
}
