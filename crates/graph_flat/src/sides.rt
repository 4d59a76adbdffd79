ghost use Rattle.std.specs.Prelude.{◌≡◌, ◌<◌, length, slice_index_or};
ghost use Rattle.std.specs.Option.{option_copied};
ghost use Rattle.cm_core.specs.Consistent.{IsConsistent, IsSide};
ghost use Rattle.cm_core.specs.Tree.{node_at};
ghost use Rattle.cm_core.specs.Expanded.{group_at, picked, is_spread, end_id, declared_end, is_source};

use cm_base::{EndId, Flow, NodeId};
use cm_core::{End, Group, Program, Side};

/// The group of a point.
pub fn group_at<'a>(program: &'a Program, side: &Side) -> &'a Group
    requires { side.now.group < length program.now.groups }
    ensures { result.now ≡ group_at program.now side.now }
{
    &program.groups.as_slice()[side.group as usize]
}

/// The instances that a point stands for, or nothing where its index is none that may be written.
pub fn picked(group: &Group, index: Option<i64>) -> Option<&[NodeId]>
    ensures { option_copied result ≡ picked group.now index }
{
    let nodes = group.nodes.as_slice();
    match index {
        None => Some(nodes),
        Some(at) => {
            if group.array && at >= 0 && (at as u64) < nodes.len() as u64 {
                let first = at as usize;
                Some(&nodes[first..first + 1])
            } else {
                None
            }
        }
    }
}

/// Whether a point stands for an array.
pub fn is_spread(program: &Program, side: &Side) -> bool
    requires { side.now.group < length program.now.groups }
    ensures { result ≡ is_spread program.now side.now }
{
    group_at(program, side).array && side.index.is_none()
}

/// The endpoint of an instance that has this number in its declaration.
pub fn end_id(program: &Program, number: u32, node: NodeId) -> EndId
    requires node { node.0 < length program.now.nodes }
    requires end { number < length (node_at program.now node).ends }
    ensures { result ≡ end_id program.now number node }
{
    program.node(node).ends.as_slice()[number as usize]
}

/// The endpoint that a point names, as it is declared.
pub fn declared_end<'a>(program: &'a Program, side: &Side) -> &'a End
    requires program { IsConsistent program.now }
    requires side { IsSide program.now side.now }
    ensures { result.now ≡ declared_end program.now side.now }
{
    let first = group_at(program, side).nodes.as_slice()[0];
    program.end(end_id(program, side.end, first))
}

/// Whether a connection may start at the point.
pub fn is_source(program: &Program, side: &Side) -> bool
    requires program { IsConsistent program.now }
    requires side { IsSide program.now side.now }
    ensures { result ≡ is_source program.now side.now }
{
    let flow = declared_end(program, side).flow;
    if group_at(program, side).own {
        flow == Flow::Input
    } else {
        flow == Flow::Output
    }
}
