use crate::halt::{Halt, Slip};
use crate::types::type_of;
use cm_base::{Flow, HostEnd, Items, Kind, Name};
use cm_core::{CoreType, End};
use std::alloc::{AllocError, Global};

fn flow_of(word: &str) -> Result<Flow, Halt> {
    match word {
        "in" => Ok(Flow::Input),
        "out" => Ok(Flow::Output),
        _ => Err(Halt::Slip(Slip::Endpoint)),
    }
}

fn kind_of(word: &str) -> Result<Kind, Halt> {
    match word {
        "stream" => Ok(Kind::Stream),
        "value" => Ok(Kind::Value),
        "event" => Ok(Kind::Event),
        _ => Err(Halt::Slip(Slip::Endpoint)),
    }
}

/// An endpoint, as `in stream int[2] name`.
fn end_of(alloc: Global, text: &str) -> Result<End, Halt> {
    let mut words = text.split_whitespace();
    let (Some(flow), Some(kind), Some(ty), Some(name), None) = (
        words.next(),
        words.next(),
        words.next(),
        words.next(),
        words.next(),
    ) else {
        return Err(Halt::Slip(Slip::Endpoint));
    };
    let (ty, shape) = type_of(alloc, ty)?;
    Ok(End {
        flow: flow_of(flow)?,
        kind: kind_of(kind)?,
        name: Name::from_str(alloc, name)?,
        ty,
        shape,
    })
}

/// The endpoints of a declaration, with commas between them.
pub fn ends_of(alloc: Global, text: &str) -> Result<Vec<End>, Halt> {
    let mut ends = Vec::new(alloc);
    if text.trim().is_empty() {
        return Ok(ends);
    }
    for part in text.split(',') {
        ends.push(end_of(alloc, part)?)?;
    }
    Ok(ends)
}

/// A copy of an endpoint.
pub fn copy_of(alloc: Global, end: &End) -> Result<End, AllocError> {
    Ok(End {
        flow: end.flow,
        kind: end.kind,
        name: Name::from_str(alloc, end.name.as_str())?,
        ty: CoreType {
            base: end.ty.base,
            lengths: Items::from_slice(alloc, end.ty.lengths.as_slice())?,
        },
        shape: Items::from_slice(alloc, end.shape.as_slice())?,
    })
}

/// Copies of endpoints.
pub fn copies_of(alloc: Global, ends: &[End]) -> Result<Vec<End>, AllocError> {
    let mut copies = Vec::with_capacity(alloc, ends.len())?;
    for end in ends {
        copies.push(copy_of(alloc, end)?)?;
    }
    Ok(copies)
}

/// The endpoint of the host that an endpoint of the main declaration is.
pub fn host_end_of(alloc: Global, end: &End) -> Result<HostEnd, AllocError> {
    Ok(HostEnd {
        flow: end.flow,
        kind: end.kind,
        name: Name::from_str(alloc, end.name.as_str())?,
        shape: Items::from_slice(alloc, end.shape.as_slice())?,
        parameter: None,
    })
}
