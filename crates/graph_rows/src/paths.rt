use crate::declared::{Declaration, Declared, NodeLine};
use std::alloc::{AllocError, Global};

/// Where an instance stands: in the graph of this number, the element with the index of the node of that number.
#[derive(Clone, Copy, Debug, PartialEq, Eq)]
pub struct Spot {
    pub graph: usize,
    pub node: usize,
    pub index: Option<u32>,
}

/// An instance of the declaration of this number. The main one stands nowhere.
#[derive(Clone, Copy, Debug, PartialEq, Eq)]
pub struct Instance {
    pub of: usize,
    pub spot: Option<Spot>,
}

/// The declared node at a spot.
fn node_at<'a>(
    declarations: &'a [Declaration],
    instances: &[Instance],
    spot: &Spot,
) -> Option<&'a NodeLine> {
    let graph = instances.get(spot.graph)?;
    match &declarations.get(graph.of)?.body {
        Declared::Graph(graph) => graph.nodes.get(spot.node),
        Declared::Unit(_) => None,
    }
}

/// The part of a path that a spot is, as `a` or `a[3]`.
fn step_of(
    alloc: Global,
    declarations: &[Declaration],
    instances: &[Instance],
    spot: &Spot,
) -> Result<String, AllocError> {
    let name = match node_at(declarations, instances, spot) {
        Some(node) => node.name.as_str(),
        None => "",
    };
    match spot.index {
        Some(index) => format!(in alloc; "{name}[{index}]"),
        None => String::from_str(alloc, name),
    }
}

/// The steps from an instance up to the main one.
fn steps_of(
    alloc: Global,
    declarations: &[Declaration],
    instances: &[Instance],
    at: usize,
) -> Result<Vec<String>, AllocError> {
    let mut steps = Vec::new(alloc);
    let mut current = at;
    for _ in 0..instances.len() {
        let Some(Some(spot)) = instances.get(current).map(|instance| instance.spot) else {
            break;
        };
        steps.push(step_of(alloc, declarations, instances, &spot)?)?;
        current = spot.graph;
    }
    Ok(steps)
}

/// The path of an instance from the main declaration, as `a[3].b`; at the main one itself the name of its declaration.
pub fn path_of(
    alloc: Global,
    declarations: &[Declaration],
    instances: &[Instance],
    at: usize,
) -> Result<String, AllocError> {
    let steps = steps_of(alloc, declarations, instances, at)?;
    let mut path = String::new(alloc);
    let count = steps.len();
    if count == 0 {
        let of = instances.get(at).map_or(0, |instance| instance.of);
        if let Some(declaration) = declarations.get(of) {
            path.push_str(declaration.name.as_str())?;
        }
    }
    for step in 0..count {
        if step > 0 {
            path.push('.')?;
        }
        path.push_str(steps[count - 1 - step].as_str())?;
    }
    Ok(path)
}
