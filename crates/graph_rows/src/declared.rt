use cm_core::End;

/// A unit or a graph as a row declares it.
#[derive(Drop)]
pub struct Declaration {
    pub name: String,
    pub ends: Vec<End>,
    pub body: Declared,
}

#[derive(Drop)]
pub enum Declared {
    /// A unit with its latency.
    Unit(u32),
    Graph(Graph),
}

#[derive(Drop)]
pub struct Graph {
    pub nodes: Vec<NodeLine>,
    pub links: Vec<LinkLine>,
}

/// A node of a graph: its name, the number of what it is an instance of, and its count of elements where it is an
/// array.
#[derive(Drop)]
pub struct NodeLine {
    pub name: String,
    pub of: usize,
    pub count: Option<u32>,
}

/// A point of a connection: the number of the node in its graph, or none for an endpoint of the graph itself, the
/// index, and the number of the endpoint.
#[derive(Clone, Copy, Debug, PartialEq, Eq)]
pub struct PointLine {
    pub node: Option<u32>,
    pub index: Option<i64>,
    pub end: u32,
}

/// A connection of a graph with its line and its delay.
#[derive(Clone, Copy, Debug, PartialEq, Eq)]
pub struct LinkLine {
    pub line: u32,
    pub from: PointLine,
    pub to: PointLine,
    pub delay: Option<i64>,
}
