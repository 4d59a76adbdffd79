// Endpoints of a host, in the notation of rows.

use cm_base::{Flow, HostEnd, Items, Kind, Name, Range, Scalar, Shape};
use std::alloc::{AllocError, Global};

fn flow_of(word: &str) -> Option<Flow> {
    match word {
        "in" => Some(Flow::Input),
        "out" => Some(Flow::Output),
        _ => None,
    }
}

fn kind_of(word: &str) -> Option<Kind> {
    match word {
        "stream" => Some(Kind::Stream),
        "value" => Some(Kind::Value),
        "event" => Some(Kind::Event),
        _ => None,
    }
}

fn number(word: &str) -> Option<i32> {
    match word.parse::<i32>() {
        Ok(found) => Some(found),
        Err(_) => None,
    }
}

fn count(word: &str) -> Option<u32> {
    match word.parse::<u32>() {
        Ok(found) => Some(found),
        Err(_) => None,
    }
}

/// A scalar: `int32`, `int64`, `bool`, `wrapN` or `clampN`.
fn scalar_of(word: &str) -> Option<Scalar> {
    if let Some(digits) = word.strip_prefix("wrap") {
        return Some(Scalar::Wrap(count(digits)?));
    }
    if let Some(digits) = word.strip_prefix("clamp") {
        return Some(Scalar::Clamp(count(digits)?));
    }
    match word {
        "int32" => Some(Scalar::Int32),
        "int64" => Some(Scalar::Int64),
        "bool" => Some(Scalar::Bool),
        _ => None,
    }
}

/// Scalars with commas between them, or `none`.
fn shape_of(alloc: Global, word: &str) -> Result<Option<Shape>, AllocError> {
    let mut scalars = Vec::new(alloc);
    if word == "none" {
        return Ok(Some(Items::from_vec(scalars)));
    }
    for part in word.split(',') {
        match scalar_of(part) {
            Some(scalar) => scalars.push(scalar)?,
            None => return Ok(None),
        }
    }
    Ok(Some(Items::from_vec(scalars)))
}

/// The range of a parameter: where it begins, where it ends, and the value that it starts with.
fn range_of(text: &str) -> Option<Range> {
    let (min, rest) = text.split_once(' ')?;
    let (max, init) = rest.split_once(' ')?;
    Some(Range {
        min: number(min)?,
        max: number(max)?,
        init: number(init)?,
    })
}

/// The flow, the kind and the text behind them, as of `in stream int32 name`.
fn head_of(text: &str) -> Option<(Flow, Kind, &str)> {
    let (flow, rest) = text.split_once(' ')?;
    let (kind, rest) = rest.split_once(' ')?;
    Some((flow_of(flow)?, kind_of(kind)?, rest))
}

/// The name at the front of a text, and the range behind it, if there is one. A range that isn't right gives nothing.
fn name_and_range(text: &str) -> Option<(&str, Option<Range>)> {
    match text.split_once(' ') {
        Some((name, range)) => Some((name, Some(range_of(range)?))),
        None => Some((text, None)),
    }
}

/// An endpoint, as `in stream int32,bool name`, or a parameter, as `in value int32 name -10 10 1`.
pub fn end_of(alloc: Global, text: &str) -> Result<Option<HostEnd>, AllocError> {
    let Some((flow, kind, rest)) = head_of(text) else {
        return Ok(None);
    };
    let Some((word, rest)) = rest.split_once(' ') else {
        return Ok(None);
    };
    let Some((name, parameter)) = name_and_range(rest) else {
        return Ok(None);
    };
    let Some(shape) = shape_of(alloc, word)? else {
        return Ok(None);
    };
    Ok(Some(HostEnd {
        flow,
        kind,
        name: Name::from_str(alloc, name)?,
        shape,
        parameter,
    }))
}
