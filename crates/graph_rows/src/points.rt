use crate::declared::{Declaration, Declared, Graph, LinkLine, PointLine};
use crate::halt::{Halt, Slip};
use crate::words::{indexed, number, signed, small};
use cm_core::End;

/// The number of an endpoint of this name.
fn end_number(ends: &[End], name: &str) -> Result<u32, Halt> {
    match ends.iter().position(|end| end.name.as_str() == name) {
        Some(at) => small(at),
        None => Err(Halt::Slip(Slip::Name)),
    }
}

/// The number of the node of this name, and what it is an instance of.
fn node_number(graph: &Graph, name: &str) -> Result<(u32, usize), Halt> {
    for at in 0..graph.nodes.len() {
        let node = &graph.nodes[at];
        if node.name.as_str() == name {
            return Ok((small(at)?, node.of));
        }
    }
    Err(Halt::Slip(Slip::Name))
}

/// A point at a node, as `name.end` or `name[1].end`.
fn node_point(
    declarations: &[Declaration],
    graph: &Graph,
    node: &str,
    end: &str,
) -> Result<PointLine, Halt> {
    let (name, index) = indexed(node)?;
    let (number, of) = node_number(graph, name)?;
    match declarations.get(of) {
        Some(declaration) => Ok(PointLine {
            node: Some(number),
            index,
            end: end_number(&declaration.ends, end)?,
        }),
        None => Err(Halt::Slip(Slip::Name)),
    }
}

/// A point at an endpoint of the graph itself, as `end`, or `end[1]`, which is never right.
fn own_point(ends: &[End], text: &str) -> Result<PointLine, Halt> {
    let (name, index) = indexed(text)?;
    Ok(PointLine {
        node: None,
        index,
        end: end_number(ends, name)?,
    })
}

/// A point of a connection in the graph that is declared last.
fn point_of(declarations: &[Declaration], text: &str) -> Result<PointLine, Halt> {
    let Some(last) = declarations.last() else {
        return Err(Halt::Slip(Slip::Connection));
    };
    let Declared::Graph(graph) = &last.body else {
        return Err(Halt::Slip(Slip::Connection));
    };
    match text.split_once('.') {
        Some((node, end)) => node_point(declarations, graph, node, end),
        None => own_point(&last.ends, text),
    }
}

/// A delay in brackets.
fn delay_of(text: &str) -> Result<i64, Halt> {
    match text.strip_prefix('[') {
        Some(rest) => signed(rest.strip_suffix(']').unwrap_or("")),
        None => Err(Halt::Slip(Slip::Connection)),
    }
}

/// A connection with its line, as `4: a.out -> [2] -> b[1].in`.
pub fn link_of(declarations: &[Declaration], text: &str) -> Result<LinkLine, Halt> {
    let Some((line, points)) = text.split_once(": ") else {
        return Err(Halt::Slip(Slip::Connection));
    };
    let line = number(line)?;
    let mut parts = points.split(" -> ");
    match (parts.next(), parts.next(), parts.next(), parts.next()) {
        (Some(from), Some(to), None, None) => Ok(LinkLine {
            line,
            from: point_of(declarations, from)?,
            to: point_of(declarations, to)?,
            delay: None,
        }),
        (Some(from), Some(delay), Some(to), None) => Ok(LinkLine {
            line,
            from: point_of(declarations, from)?,
            to: point_of(declarations, to)?,
            delay: Some(delay_of(delay)?),
        }),
        _ => Err(Halt::Slip(Slip::Connection)),
    }
}
