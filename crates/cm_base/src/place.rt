use sqlite_items::Items;

/// A place in a file: of the manifest, file 0, always line 0 and column 0; of the sources, which count
/// from 1, the line from 1 by the line feeds before it, and the column in bytes from 1.
#[derive(Clone, Copy, Debug, PartialEq, Eq, PartialOrd, Ord)]
pub struct Place {
    pub file: u32,
    pub line: u32,
    pub column: u32,
}

/// The number of a leaf: a processor of the flattened graph, in declaration order.
#[derive(Clone, Copy, Debug, PartialEq, Eq, PartialOrd, Ord)]
pub struct LeafId(pub u32);

/// The number of a node in the tree of instances.
#[derive(Clone, Copy, Debug, PartialEq, Eq, PartialOrd, Ord)]
pub struct NodeId(pub u32);

/// The number of an endpoint of a program.
#[derive(Clone, Copy, Debug, PartialEq, Eq, PartialOrd, Ord)]
pub struct EndId(pub u32);

pub type LeafIds = Items<LeafId>;

pub type NodeIds = Items<NodeId>;

pub type EndIds = Items<EndId>;
