ghost use Rattle.std.specs.Prelude.{IsTrue, ◌↔◌};
ghost use Rattle.graph_search.specs.Edges.{AreWithin};

/// An edge leads from one node to another, or to itself. Nodes are numbers.
#[derive(Clone, Copy, Debug, PartialEq, Eq)]
pub struct Edge {
    pub from: u32,
    pub to: u32,
}

/// Whether both ends of each edge are below `count`.
pub fn are_within(count: u32, edges: &[Edge]) -> bool
    ensures { IsTrue result ↔ AreWithin count edges.now }
{
    edges
        .iter()
        .all(|edge| edge.from < count && edge.to < count)
}
