use crate::changing::{Change, apply};
use crate::declared::{Declaration, Declared, Graph, LinkLine, PointLine};
use crate::ends::{copy_of, host_end_of};
use crate::halt::{Halt, Slip};
use crate::parts::{Parts, no_parts, place_at, plain_unit, program_of};
use crate::paths::{Instance, Spot, path_of};
use crate::words::small;
use cm_base::{EndId, Items, Name, NodeId};
use cm_core::{Body, End, Group, Link, Node, Program, Side};
use std::alloc::Global;

/// More instances than this are never built. A patch may have 16,384.
const INSTANCES: usize = 20_000;

/// Adds the units, and gives for each declaration how many units stand in front of it.
fn add_units(
    alloc: Global,
    parts: &mut Parts,
    declarations: &[Declaration],
) -> Result<Vec<u32>, Halt> {
    let mut numbers = Vec::with_capacity(alloc, declarations.len())?;
    for declaration in declarations {
        numbers.push(small(parts.units.len())?)?;
        if let Declared::Unit(latency) = &declaration.body {
            parts
                .units
                .push(plain_unit(alloc, &declaration.ends, *latency)?)?;
        }
    }
    Ok(numbers)
}

/// Adds the endpoints of an instance.
fn add_ends(alloc: Global, parts: &mut Parts, ends: &[End]) -> Result<Vec<EndId>, Halt> {
    let mut ids = Vec::with_capacity(alloc, ends.len())?;
    for end in ends {
        ids.push(EndId(small(parts.ends.len())?))?;
        parts.ends.push(copy_of(alloc, end)?)?;
    }
    Ok(ids)
}

/// Adds instances for the elements of a node of a graph, and gives their numbers.
fn add_elements(
    alloc: Global,
    instances: &mut Vec<Instance>,
    graph: usize,
    node: usize,
    of: usize,
    count: Option<u32>,
) -> Result<Vec<NodeId>, Halt> {
    let mut elements = Vec::new(alloc);
    for element in 0..count.unwrap_or(1) {
        let number = instances.len();
        if number >= INSTANCES {
            return Err(Halt::Slip(Slip::Size));
        }
        elements.push(NodeId(small(number)?))?;
        instances.push(Instance {
            of,
            spot: Some(Spot {
                graph,
                node,
                index: count.map(|_| element),
            }),
        })?;
    }
    Ok(elements)
}

/// Adds the groups of a graph, its own first, and the instances of its nodes, and gives their numbers.
fn add_nodes(
    alloc: Global,
    parts: &mut Parts,
    instances: &mut Vec<Instance>,
    graph: &Graph,
    at: usize,
) -> Result<Vec<NodeId>, Halt> {
    let mut nodes = Vec::new(alloc);
    parts.groups.push(Group {
        nodes: Items::from_slice(alloc, &[NodeId(small(at)?)])?,
        array: false,
        own: true,
    })?;
    for node in 0..graph.nodes.len() {
        let line = &graph.nodes[node];
        let elements = add_elements(alloc, instances, at, node, line.of, line.count)?;
        nodes.extend_from_slice(&elements)?;
        parts.groups.push(Group {
            nodes: Items::from_vec(elements),
            array: line.count.is_some(),
            own: false,
        })?;
    }
    Ok(nodes)
}

/// A point of a connection in the graph whose own group has this number. Its place is in the connection's line, in
/// this column.
fn side_of(own: u32, point: &PointLine, line: u32, column: u32) -> Side {
    let group = match point.node {
        None => own,
        Some(node) => own.saturating_add(1).saturating_add(node),
    };
    Side {
        group,
        index: point.index,
        end: point.end,
        place: place_at(line, column),
    }
}

/// A connection. It stands in column 1 of its line, its source in column 2, and its destination in column 3.
fn link_of(own: u32, link: &LinkLine) -> Link {
    Link {
        from: side_of(own, &link.from, link.line, 2),
        to: side_of(own, &link.to, link.line, 3),
        delay: link.delay,
        place: place_at(link.line, 1),
    }
}

/// Adds the nodes and the connections of a graph, and gives what it is.
fn add_graph(
    alloc: Global,
    parts: &mut Parts,
    instances: &mut Vec<Instance>,
    graph: &Graph,
    at: usize,
) -> Result<Body, Halt> {
    let own = small(parts.groups.len())?;
    let nodes = add_nodes(alloc, parts, instances, graph, at)?;
    for link in graph.links.as_slice() {
        parts.links.push(link_of(own, link))?;
    }
    Ok(Body::Graph(Items::from_vec(nodes)))
}

/// Adds an instance. Only a leaf is given its path, since no call reads the path of a graph and the paths of deep
/// nests are long.
fn add_instance(
    alloc: Global,
    parts: &mut Parts,
    instances: &mut Vec<Instance>,
    declarations: &[Declaration],
    units: &[u32],
    at: usize,
) -> Result<(), Halt> {
    let of = instances.get(at).map_or(0, |instance| instance.of);
    let (Some(declaration), Some(unit)) = (declarations.get(of), units.get(of)) else {
        return Err(Halt::Slip(Slip::Declaration));
    };
    let ends = Items::from_vec(add_ends(alloc, parts, &declaration.ends)?);
    let (body, path) = match &declaration.body {
        Declared::Unit(_) => (
            Body::Leaf(*unit),
            path_of(alloc, declarations, instances, at)?,
        ),
        Declared::Graph(graph) => (
            add_graph(alloc, parts, instances, graph, at)?,
            String::new(alloc),
        ),
    };
    parts.nodes.push(Node {
        path: Name::from_string(path),
        body,
        ends,
    })?;
    Ok(())
}

/// The parts of the program in which the last declaration is the main one. Instances are numbered from the main one,
/// then the elements of its nodes in order, then those of the nodes of the first graph among these, and so on; groups
/// and connections graph by graph in this order.
fn parts_of(alloc: Global, declarations: &[Declaration]) -> Result<Parts, Halt> {
    let Some((main, others)) = declarations.split_last() else {
        return Err(Halt::Slip(Slip::Declaration));
    };
    let mut parts = no_parts(alloc);
    let units = add_units(alloc, &mut parts, declarations)?;
    let mut instances = Vec::new(alloc);
    instances.push(Instance {
        of: others.len(),
        spot: None,
    })?;
    for at in 0..INSTANCES {
        if at >= instances.len() {
            break;
        }
        add_instance(alloc, &mut parts, &mut instances, declarations, &units, at)?;
    }
    for end in main.ends.as_slice() {
        parts.host.push(host_end_of(alloc, end)?)?;
    }
    Ok(parts)
}

/// The program of these declarations with these changes.
pub fn build(
    alloc: Global,
    declarations: &[Declaration],
    changes: &[Change],
) -> Result<Program, Halt> {
    let mut parts = parts_of(alloc, declarations)?;
    for wanted in changes {
        apply(alloc, &mut parts, wanted)?;
    }
    Ok(program_of(alloc, parts))
}
