ghost use Rattle.std.specs.Prelude.{◌≡◌, ◌<◌, length};
ghost use Rattle.cm_core.specs.Tree.{node_at, end_at};

use crate::core_type::{CoreType, Structs};
use crate::link::{Groups, Links};
use crate::unit::Units;
use cm_base::{EndId, EndIds, Flow, HostEnds, Items, Kind, Name, NodeId, NodeIds, Place, Shape};

/// What a node is: a leaf, with the number of its unit, or a graph, with its nodes in the order of their declarations,
/// the elements of an array by index.
#[derive(Debug, Drop)]
pub enum Body {
    Leaf(u32),
    Graph(NodeIds),
}

/// An instance of a processor or graph: its path from the main declaration, as `a[3].b`, and its endpoints in
/// declaration order.
#[derive(Debug, Drop)]
pub struct Node {
    pub path: Name,
    pub body: Body,
    pub ends: EndIds,
}

pub type Nodes = Items<Node>;

/// An endpoint of a unit or of an instance: its type, and the scalars of the type.
#[derive(Debug, Drop)]
pub struct End {
    pub flow: Flow,
    pub kind: Kind,
    pub name: Name,
    pub ty: CoreType,
    pub shape: Shape,
}

pub type Ends = Items<End>;

/// A patch after names, constants and types are gone: each processor once for each list of arguments and factor, the tree
/// of instances, and the written connections. An `EndId` is a position in `ends`, a `NodeId` one in `nodes`. `place` is
/// that of the main declaration. `specs/Consistent` says when the parts of a program fit together.
#[derive(Debug, Drop)]
pub struct Program {
    pub structs: Structs,
    pub units: Units,
    pub nodes: Nodes,
    pub ends: Ends,
    pub groups: Groups,
    pub links: Links,
    pub host: HostEnds,
    pub main: NodeId,
    pub place: Place,
}

impl Program {
    /// The instance of this number.
    pub fn node(&self, id: NodeId) -> &Node
        requires { id.0 < length self.now.nodes }
        ensures { result.now ≡ node_at self.now id }
    {
        &self.nodes.as_slice()[id.0 as usize]
    }

    /// The endpoint of this number.
    pub fn end(&self, id: EndId) -> &End
        requires { id.0 < length self.now.ends }
        ensures { result.now ≡ end_at self.now id }
    {
        &self.ends.as_slice()[id.0 as usize]
    }
}
