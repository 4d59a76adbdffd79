ghost use Rattle.std.specs.Prelude.{◌≡◌, ◌++◌, ◌∷◌, ◌<◌, ◌≤◌, IsTrue, IfOk, OnOk, All, length, map, nat_eq};
ghost use Rattle.std.specs.List.{IsDistinct};
ghost use Rattle.cm_core.specs.Tree.{children as all_children};
ghost use Rattle.cm_core.specs.Consistent.{IsTree};
ghost use Rattle.graph_search.specs.Edges.{AreWithin};
ghost use Rattle.program_shape.specs.Shape.{edge_to, AreEdges, children_of_all};

use crate::distinct::are_distinct;
use crate::misfit::Misfit;
use cm_base::NodeId;
use cm_core::{Body, Program};
use graph_search::{Edge, are_within, ranks};
use std::alloc::{AllocError, Global};

/// The instances of which a graph is made; a leaf has none.
pub fn children(body: &Body) -> &[NodeId]
    ensures { result.now ≡ all_children body.now }
{
    match body {
        Body::Leaf(_) => &[],
        Body::Graph(nodes) => nodes.as_slice(),
    }
}

/// Appends an edge to each of these instances.
fn push_edges(edges: &mut Vec<Edge>, from: u32, nodes: &[NodeId]) -> Result<(), AllocError>
    ensures { OnOk result (edges.new.items ≡ edges.old.items ++ map (edge_to from) nodes.now) }
{
    for node in nodes {
        edges.push(Edge { from, to: node.0 })?;
    }
    Ok(())
}

/// An edge from each graph to each of its instances, graph by graph.
pub fn edges(alloc: Global, program: &Program) -> Result<Vec<Edge>, AllocError>
    requires { length program.now.nodes ≤ 16384 }
    ensures to { IfOk result (λ es. map (λ e. e.to) es.items ≡ map (λ n. n.0) (children_of_all program.now.nodes)) }
    ensures leads { IfOk result (λ es. AreEdges program.now es.items) }
{
    let mut edges = Vec::new(alloc);
    let nodes = program.nodes.as_slice();
    for at in 0..nodes.len() {
        push_edges(&mut edges, at as u32, children(&nodes[at].body))?;
    }
    Ok(edges)
}

/// Where the edges lead, behind the number of the main instance.
fn targets(alloc: Global, main: NodeId, edges: &[Edge]) -> Result<Vec<u32>, AllocError>
    ensures { IfOk result (λ v. v.items ≡ main.0 ∷ map (λ e. e.to) edges.now) }
{
    let mut targets = Vec::with_capacity(alloc, edges.len())?;
    targets.push(main.0)?;
    for edge in edges {
        targets.push(edge.to)?;
    }
    Ok(targets)
}

/// Whether all are below `count`.
fn are_below(count: u32, numbers: &[u32]) -> bool
    ensures { IsTrue result → All (λ q. q < count) numbers.now }
{
    numbers.iter().all(|number| *number < count)
}

/// Tests that each instance but the main one is in one graph, and that a number falls from each graph to its instances.
pub fn check_tree(alloc: Global, program: &Program, edges: &[Edge]) -> Result<(), Misfit>
    requires few { length program.now.nodes ≤ 16384 }
    requires main { program.now.main.0 < length program.now.nodes }
    requires to { map (λ e. e.to) edges.now ≡ map (λ n. n.0) (children_of_all program.now.nodes) }
    requires leads { AreEdges program.now edges.now }
    ensures tree { OnOk result (IsTree program.now) }
    ensures within { OnOk result (AreWithin (length program.now.nodes) edges.now) }
{
    let count = program.nodes.len();
    let targets = targets(alloc, program.main, edges)?;
    if targets.len() != count || !are_within(count as u32, edges) {
        return Err(Misfit::Apart);
    }
    let once = are_distinct(alloc, count, &targets)?;
    let heights = ranks(alloc, count as u32, edges)?;
    if once && are_below(count as u32, heights.as_slice()) {
        Ok(())
    } else {
        Err(Misfit::Apart)
    }
}
