use crate::ends::copies_of;
use cm_base::{HostEnd, Items, NodeId, Place};
use cm_core::{End, Group, Link, Node, Program, Unit};
use std::alloc::{AllocError, Global};

/// The parts of a program while it is built.
#[derive(Drop)]
pub struct Parts {
    pub units: Vec<Unit>,
    pub nodes: Vec<Node>,
    pub ends: Vec<End>,
    pub groups: Vec<Group>,
    pub links: Vec<Link>,
    pub host: Vec<HostEnd>,
    pub main: NodeId,
}

/// No parts.
pub fn no_parts(alloc: Global) -> Parts {
    Parts {
        units: Vec::new(alloc),
        nodes: Vec::new(alloc),
        ends: Vec::new(alloc),
        groups: Vec::new(alloc),
        links: Vec::new(alloc),
        host: Vec::new(alloc),
        main: NodeId(0),
    }
}

/// A place in the file of a row. The main declaration stands at 1:1.
pub fn place_at(line: u32, column: u32) -> Place {
    Place {
        file: 1,
        line,
        column,
    }
}

/// The program that has these parts.
pub fn program_of(alloc: Global, parts: Parts) -> Program {
    Program {
        structs: Items::new(alloc),
        units: Items::from_vec(parts.units),
        nodes: Items::from_vec(parts.nodes),
        ends: Items::from_vec(parts.ends),
        groups: Items::from_vec(parts.groups),
        links: Items::from_vec(parts.links),
        host: Items::from_vec(parts.host),
        main: parts.main,
        place: place_at(1, 1),
    }
}

/// A unit with these endpoints and this latency, which does nothing.
pub fn plain_unit(alloc: Global, ends: &[End], latency: u32) -> Result<Unit, AllocError> {
    Ok(Unit {
        ends: Items::from_vec(copies_of(alloc, ends)?),
        state: Items::new(alloc),
        locals: Items::new(alloc),
        constants: Items::new(alloc),
        functions: Items::new(alloc),
        init: None,
        main: None,
        handlers: Items::new(alloc),
        latency,
        factor: 1,
    })
}
