use crate::ends::host_end_of;
use crate::halt::{Halt, Slip};
use crate::parts::Parts;
use crate::words::number;
use cm_base::{EndId, Items, NodeId, Range};
use cm_core::{Body, Group, Side};
use std::alloc::{AllocError, Global};

/// What a change is of. The numbers that it takes stand behind the word of each.
#[derive(Clone, Copy, Debug, PartialEq, Eq)]
pub enum What {
    /// `main NODE`: the main instance is this one.
    Main,
    /// `leaf NODE UNIT`: the instance is a leaf of this unit.
    Leaf,
    /// `graph NODE INNER..`: the instance is a graph of these.
    Graph,
    /// `ends NODE END..`: the instance has these endpoints.
    Ends,
    /// `own GROUP NODE..`: the group is these graphs themselves. A group behind the last one is added.
    Own,
    /// `array GROUP NODE..`: the group is an array of these.
    Array,
    /// `single GROUP NODE..`: the group is these without being an array.
    Single,
    /// `from LINK GROUP END`: the connection starts at this endpoint of the group.
    From,
    /// `to LINK GROUP END`: the connection ends at this endpoint of the group.
    To,
    /// `host COUNT`: the host has only so many endpoints.
    Host,
    /// `hosts HOST END`: the endpoint of the host is as this one of the program.
    Hosts,
    /// `range HOST MIN INIT MAX`: the endpoint of the host is a parameter.
    Range,
}

/// A change of the program that is built from a row.
#[derive(Drop)]
pub struct Change {
    pub what: What,
    pub numbers: Vec<u32>,
}

fn what_of(word: &str) -> Result<What, Halt> {
    match word {
        "main" => Ok(What::Main),
        "leaf" => Ok(What::Leaf),
        "graph" => Ok(What::Graph),
        "ends" => Ok(What::Ends),
        "own" => Ok(What::Own),
        "array" => Ok(What::Array),
        "single" => Ok(What::Single),
        "from" => Ok(What::From),
        "to" => Ok(What::To),
        "host" => Ok(What::Host),
        "hosts" => Ok(What::Hosts),
        "range" => Ok(What::Range),
        _ => Err(Halt::Slip(Slip::Change)),
    }
}

/// A change, as `graph 0 1 2`.
pub fn change_of(alloc: Global, text: &str) -> Result<Change, Halt> {
    let mut words = text.split_whitespace();
    let what = what_of(words.next().unwrap_or(""))?;
    let mut numbers = Vec::new(alloc);
    for word in words {
        numbers.push(number(word)?)?;
    }
    Ok(Change { what, numbers })
}

fn nodes_of(alloc: Global, numbers: &[u32]) -> Result<Vec<NodeId>, AllocError> {
    let mut nodes = Vec::new(alloc);
    for number in numbers {
        nodes.push(NodeId(*number))?;
    }
    Ok(nodes)
}

fn ends_of(alloc: Global, numbers: &[u32]) -> Result<Vec<EndId>, AllocError> {
    let mut ends = Vec::new(alloc);
    for number in numbers {
        ends.push(EndId(*number))?;
    }
    Ok(ends)
}

fn set_body(parts: &mut Parts, node: u32, body: Body) -> Result<(), Halt> {
    match parts.nodes.get_mut(node as usize) {
        Some(found) => {
            found.body = body;
            Ok(())
        }
        None => Err(Halt::Slip(Slip::Part)),
    }
}

fn set_ends(parts: &mut Parts, node: u32, ends: Vec<EndId>) -> Result<(), Halt> {
    match parts.nodes.get_mut(node as usize) {
        Some(found) => {
            found.ends = Items::from_vec(ends);
            Ok(())
        }
        None => Err(Halt::Slip(Slip::Part)),
    }
}

/// Replaces a group, or adds it behind the last one.
fn set_group(parts: &mut Parts, at: u32, group: Group) -> Result<(), Halt> {
    if at as usize == parts.groups.len() {
        parts.groups.push(group)?;
        return Ok(());
    }
    match parts.groups.get_mut(at as usize) {
        Some(found) => {
            *found = group;
            Ok(())
        }
        None => Err(Halt::Slip(Slip::Part)),
    }
}

/// The point at this endpoint of the group, with the place of the one that it replaces.
fn moved(side: &Side, group: u32, end: u32) -> Side {
    Side {
        group,
        index: side.index,
        end,
        place: side.place,
    }
}

fn set_side(parts: &mut Parts, link: u32, what: What, numbers: &[u32]) -> Result<(), Halt> {
    let (Some(group), Some(end)) = (numbers.first(), numbers.get(1)) else {
        return Err(Halt::Slip(Slip::Change));
    };
    match parts.links.get_mut(link as usize) {
        Some(found) => {
            if what == What::From {
                found.from = moved(&found.from, *group, *end);
            } else {
                found.to = moved(&found.to, *group, *end);
            }
            Ok(())
        }
        None => Err(Halt::Slip(Slip::Part)),
    }
}

/// Makes an endpoint of the host as one of the program.
fn set_host(alloc: Global, parts: &mut Parts, host: u32, numbers: &[u32]) -> Result<(), Halt> {
    let Some(end) = numbers.first() else {
        return Err(Halt::Slip(Slip::Change));
    };
    let made = match parts.ends.get(*end as usize) {
        Some(found) => host_end_of(alloc, found)?,
        None => return Err(Halt::Slip(Slip::Part)),
    };
    match parts.host.get_mut(host as usize) {
        Some(found) => {
            *found = made;
            Ok(())
        }
        None => Err(Halt::Slip(Slip::Part)),
    }
}

/// A number of a range.
fn bound_of(numbers: &[u32], at: usize) -> Result<i32, Halt> {
    match numbers.get(at) {
        Some(number) => match i32::try_from(*number) {
            Ok(found) => Ok(found),
            Err(_) => Err(Halt::Slip(Slip::Number)),
        },
        None => Err(Halt::Slip(Slip::Change)),
    }
}

/// Makes an endpoint of the host a parameter.
fn set_range(parts: &mut Parts, host: u32, numbers: &[u32]) -> Result<(), Halt> {
    let min = bound_of(numbers, 0)?;
    let init = bound_of(numbers, 1)?;
    let max = bound_of(numbers, 2)?;
    match parts.host.get_mut(host as usize) {
        Some(found) => {
            found.parameter = Some(Range { min, max, init });
            Ok(())
        }
        None => Err(Halt::Slip(Slip::Part)),
    }
}

/// Changes the parts of a program.
pub fn apply(alloc: Global, parts: &mut Parts, change: &Change) -> Result<(), Halt> {
    let Some((at, others)) = change.numbers.as_slice().split_first() else {
        return Err(Halt::Slip(Slip::Change));
    };
    let at = *at;
    match change.what {
        What::Main => {
            parts.main = NodeId(at);
            Ok(())
        }
        What::Leaf => match others.first() {
            Some(unit) => set_body(parts, at, Body::Leaf(*unit)),
            None => Err(Halt::Slip(Slip::Change)),
        },
        What::Graph => {
            let nodes = Items::from_vec(nodes_of(alloc, others)?);
            set_body(parts, at, Body::Graph(nodes))
        }
        What::Ends => {
            let ends = ends_of(alloc, others)?;
            set_ends(parts, at, ends)
        }
        What::Own | What::Array | What::Single => {
            let group = Group {
                nodes: Items::from_vec(nodes_of(alloc, others)?),
                array: change.what == What::Array,
                own: change.what == What::Own,
            };
            set_group(parts, at, group)
        }
        What::From | What::To => set_side(parts, at, change.what, others),
        What::Host => {
            parts.host.truncate(at as usize);
            Ok(())
        }
        What::Hosts => set_host(alloc, parts, at, others),
        What::Range => set_range(parts, at, others),
    }
}
