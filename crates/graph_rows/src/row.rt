use crate::changing::{Change, change_of};
use crate::declared::{Declaration, Declared, Graph, LinkLine, NodeLine};
use crate::ends::ends_of;
use crate::halt::{Halt, Slip};
use crate::points::link_of;
use crate::words::{indexed, number};
use std::alloc::Global;

/// A row: what is declared, what is changed of the program that is built from it, and the lines of the answer that is
/// expected. A row that a generator declares is answered in brief.
#[derive(Drop)]
pub struct Row {
    pub declarations: Vec<Declaration>,
    pub changes: Vec<Change>,
    pub expected: Vec<String>,
    pub brief: bool,
}

/// A row with nothing in it.
pub fn empty_row(alloc: Global) -> Row {
    Row {
        declarations: Vec::new(alloc),
        changes: Vec::new(alloc),
        expected: Vec::new(alloc),
        brief: false,
    }
}

/// The number of the last declaration of this name.
fn declaration_number(declarations: &[Declaration], name: &str) -> Result<usize, Halt> {
    let count = declarations.len();
    for step in 0..count {
        let at = count - 1 - step;
        if declarations[at].name.as_str() == name {
            return Ok(at);
        }
    }
    Err(Halt::Slip(Slip::Name))
}

/// The name and the latency of a unit, as `P` or `P latency 2`.
fn head_of(text: &str) -> Result<(&str, u32), Halt> {
    let mut words = text.split_whitespace();
    match (words.next(), words.next(), words.next(), words.next()) {
        (Some(name), None, None, None) => Ok((name, 0)),
        (Some(name), Some("latency"), Some(frames), None) => match number(frames) {
            Ok(latency) => Ok((name, latency)),
            Err(halt) => Err(halt),
        },
        _ => Err(Halt::Slip(Slip::Declaration)),
    }
}

/// A unit, as `P latency 2: in stream int in, out stream int out`.
fn unit_of(alloc: Global, text: &str) -> Result<Declaration, Halt> {
    let Some((head, ends)) = text.split_once(':') else {
        return Err(Halt::Slip(Slip::Declaration));
    };
    let (name, latency) = head_of(head)?;
    Ok(Declaration {
        name: String::from_str(alloc, name)?,
        ends: ends_of(alloc, ends)?,
        body: Declared::Unit(latency),
    })
}

/// A graph, as `G: in stream int in, out stream int out`.
fn graph_of(alloc: Global, text: &str) -> Result<Declaration, Halt> {
    let Some((name, ends)) = text.split_once(':') else {
        return Err(Halt::Slip(Slip::Declaration));
    };
    Ok(Declaration {
        name: String::from_str(alloc, name.trim())?,
        ends: ends_of(alloc, ends)?,
        body: Declared::Graph(Graph {
            nodes: Vec::new(alloc),
            links: Vec::new(alloc),
        }),
    })
}

/// A node, as `a = P` or `a = P[3]`, of what is declared above the graph that it stands in.
fn node_of(alloc: Global, declarations: &[Declaration], text: &str) -> Result<NodeLine, Halt> {
    let Some((name, instance)) = text.split_once(" = ") else {
        return Err(Halt::Slip(Slip::Node));
    };
    let Some((_graph, above)) = declarations.split_last() else {
        return Err(Halt::Slip(Slip::Node));
    };
    let (of, count) = indexed(instance)?;
    let count = match count {
        None => None,
        Some(elements) => match u32::try_from(elements) {
            Ok(found) => Some(found),
            Err(_) => return Err(Halt::Slip(Slip::Number)),
        },
    };
    Ok(NodeLine {
        name: String::from_str(alloc, name)?,
        of: declaration_number(above, of)?,
        count,
    })
}

/// Adds a node to the graph that is declared last.
fn push_node(declarations: &mut Vec<Declaration>, node: NodeLine) -> Result<(), Halt> {
    match declarations.last_mut() {
        Some(last) => match &mut last.body {
            Declared::Graph(graph) => {
                graph.nodes.push(node)?;
                Ok(())
            }
            Declared::Unit(_) => Err(Halt::Slip(Slip::Node)),
        },
        None => Err(Halt::Slip(Slip::Node)),
    }
}

/// Adds a connection to the graph that is declared last.
fn push_link(declarations: &mut Vec<Declaration>, link: LinkLine) -> Result<(), Halt> {
    match declarations.last_mut() {
        Some(last) => match &mut last.body {
            Declared::Graph(graph) => {
                graph.links.push(link)?;
                Ok(())
            }
            Declared::Unit(_) => Err(Halt::Slip(Slip::Connection)),
        },
        None => Err(Halt::Slip(Slip::Connection)),
    }
}

/// Adds a declaration, a node or a connection, if the line is one, and tells whether it is.
fn declare(alloc: Global, declarations: &mut Vec<Declaration>, line: &str) -> Result<bool, Halt> {
    if let Some(text) = line.strip_prefix("unit ") {
        declarations.push(unit_of(alloc, text)?)?;
        return Ok(true);
    }
    if let Some(text) = line.strip_prefix("graph ") {
        declarations.push(graph_of(alloc, text)?)?;
        return Ok(true);
    }
    if let Some(text) = line.strip_prefix("node ") {
        let node = node_of(alloc, declarations, text)?;
        push_node(declarations, node)?;
        return Ok(true);
    }
    if line.starts_with(|c: char| c.is_ascii_digit()) {
        let link = link_of(declarations, line)?;
        push_link(declarations, link)?;
        return Ok(true);
    }
    Ok(false)
}

/// Adds the declarations of these lines.
pub fn declare_all(
    alloc: Global,
    declarations: &mut Vec<Declaration>,
    lines: &[String],
) -> Result<(), Halt> {
    for line in lines {
        if !declare(alloc, declarations, line.as_str())? {
            return Err(Halt::Slip(Slip::Line));
        }
    }
    Ok(())
}

/// Whether a line begins as one of an answer does.
fn is_answer(line: &str) -> bool {
    matches!(
        line.split_whitespace().next(),
        Some("leaf" | "chain" | "order" | "latency" | "refused" | "inconsistent" | "counts")
    )
}

/// Adds a line to a row.
pub fn read_line(alloc: Global, row: &mut Row, line: &str) -> Result<(), Halt> {
    if declare(alloc, &mut row.declarations, line)? {
        return Ok(());
    }
    if let Some(text) = line.strip_prefix("change ") {
        row.changes.push(change_of(alloc, text)?)?;
        return Ok(());
    }
    if is_answer(line) {
        row.expected.push(String::from_str(alloc, line)?)?;
        return Ok(());
    }
    Err(Halt::Slip(Slip::Line))
}
