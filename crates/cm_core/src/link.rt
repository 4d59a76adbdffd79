use cm_base::{EndId, Items, NodeIds, Place};

/// What a written point can mean: the graph instance itself, which is its own group, or the elements of a node that it
/// declares, in order. A node that isn't declared as an array is a group of one.
#[derive(Debug, Drop)]
pub struct Group {
    pub nodes: NodeIds,
    pub array: bool,
    pub own: bool,
}

pub type Groups = Items<Group>;

/// A written point: a group, the written index, and the number of the endpoint in its declaration. `place` is that of
/// its first token.
#[derive(Clone, Copy, Debug, PartialEq, Eq)]
pub struct Side {
    pub group: u32,
    pub index: Option<i64>,
    pub end: u32,
    pub place: Place,
}

/// A connection as it is written in a graph, once for each instance of the graph, with its written delay. `place` is
/// that of its first token.
#[derive(Clone, Copy, Debug, PartialEq, Eq)]
pub struct Link {
    pub from: Side,
    pub to: Side,
    pub delay: Option<i64>,
    pub place: Place,
}

pub type Links = Items<Link>;

/// A connection between the endpoints of two single instances, after node arrays are expanded. `place` is that of the
/// link that it comes from.
#[derive(Clone, Copy, Debug, PartialEq, Eq)]
pub struct Connection {
    pub from: EndId,
    pub to: EndId,
    pub delay: u32,
    pub place: Place,
}

pub type Connections = Items<Connection>;
