use cm_base::{EndId, Items, Kind, LeafId, Name, NodeId, Place, Shape};

/// A leaf of the tree of instances: its node, the number of its unit, its path, and the latency of its unit as it
/// stands.
#[derive(Debug, Drop)]
pub struct Leaf {
    pub node: NodeId,
    pub unit: u32,
    pub path: Name,
    pub latency: u32,
}

pub type Leaves = Items<Leaf>;

/// An endpoint of a leaf, or of the host where there is no leaf.
#[derive(Clone, Copy, Debug, PartialEq, Eq)]
pub struct Point {
    pub leaf: Option<LeafId>,
    pub end: EndId,
}

/// Connections from a leaf's output or a host input through graphs to a leaf's input or a host output: what they
/// carry, and the sum of their delays in frames. `place` is that of the first connection, or that of the main
/// declaration where this is a processor.
#[derive(Debug, Drop)]
pub struct Chain {
    pub from: Point,
    pub to: Point,
    pub kind: Kind,
    pub shape: Shape,
    pub delay: u64,
    pub place: Place,
}

pub type Chains = Items<Chain>;

/// The leaves of a program, and the chains between them and the host, in the orders of docs/LANGUAGE.md, "Graphs".
#[derive(Debug, Drop)]
pub struct Flat {
    pub leaves: Leaves,
    pub chains: Chains,
}
