use crate::types::word_of;
use cm_base::{Kind, Place, Refused, Scalar};
use cm_core::{Chain, Flat, Leaf, Point, Program};
use std::alloc::{AllocError, Global};

/// Appends a word and a number, unless the number is 0.
fn push_number(line: &mut String, word: &str, number: u64) -> Result<(), AllocError> {
    if number > 0 {
        write!(line, " {word} {number}")?;
    }
    Ok(())
}

/// The line and column of a place, and its file where this isn't the first.
fn place_text(alloc: Global, place: &Place) -> Result<String, AllocError> {
    let (file, line, column) = (place.file, place.line, place.column);
    if file == 1 {
        format!(in alloc; "{line}:{column}")
    } else {
        format!(in alloc; "{file}:{line}:{column}")
    }
}

/// What stands in front of a chain: its line, and its column too where this isn't the first.
fn chain_place(alloc: Global, place: &Place) -> Result<String, AllocError> {
    let line = place.line;
    if place.file == 1 && place.column == 1 {
        format!(in alloc; "{line}")
    } else {
        place_text(alloc, place)
    }
}

fn kind_word(kind: Kind) -> &'static str {
    match kind {
        Kind::Stream => "stream",
        Kind::Value => "value",
        Kind::Event => "event",
    }
}

/// The words of scalars, with commas between them.
fn shape_text(alloc: Global, shape: &[Scalar]) -> Result<String, AllocError> {
    let mut text = String::new(alloc);
    for at in 0..shape.len() {
        if at > 0 {
            text.push(',')?;
        }
        text.push_str(word_of(alloc, shape[at])?.as_str())?;
    }
    Ok(text)
}

/// The path of the leaf of this number.
pub fn leaf_path(flat: &Flat, leaf: u32) -> &str {
    match flat.leaves.get(leaf as usize) {
        Some(found) => found.path.as_str(),
        None => "no leaf",
    }
}

/// An endpoint of the host by its name, or one of a leaf by the leaf's path and its name.
fn point_text(
    alloc: Global,
    program: &Program,
    flat: &Flat,
    point: &Point,
) -> Result<String, AllocError> {
    let end = match program.ends.get(point.end.0 as usize) {
        Some(found) => found.name.as_str(),
        None => "no endpoint",
    };
    match point.leaf {
        None => String::from_str(alloc, end),
        Some(leaf) => {
            let path = leaf_path(flat, leaf.0);
            format!(in alloc; "{path}.{end}")
        }
    }
}

/// The line of a leaf of this unit that arrives at this frame.
pub fn leaf_line(
    alloc: Global,
    leaf: &Leaf,
    unit: &str,
    arrive: u32,
) -> Result<String, AllocError> {
    let path = leaf.path.as_str();
    let mut line = format!(in alloc; "leaf {path} {unit}")?;
    push_number(&mut line, "latency", leaf.latency as u64)?;
    push_number(&mut line, "arrive", arrive as u64)?;
    Ok(line)
}

/// The line of a chain with this extra delay.
pub fn chain_line(
    alloc: Global,
    program: &Program,
    flat: &Flat,
    chain: &Chain,
    extra: u32,
) -> Result<String, AllocError> {
    let place = chain_place(alloc, &chain.place)?;
    let from = point_text(alloc, program, flat, &chain.from)?;
    let to = point_text(alloc, program, flat, &chain.to)?;
    let kind = kind_word(chain.kind);
    let shape = shape_text(alloc, chain.shape.as_slice())?;
    let mut line = format!(in alloc; "chain {place}: {from} -> {to} {kind} {shape}")?;
    push_number(&mut line, "delay", chain.delay)?;
    push_number(&mut line, "fill", extra as u64)?;
    Ok(line)
}

/// The line of a refusal without the leaves of a cycle.
pub fn refusal_line(alloc: Global, refused: &Refused) -> Result<String, AllocError> {
    let place = place_text(alloc, &refused.place)?;
    let cause = refused.cause;
    format!(in alloc; "refused {cause:?} {place}")
}
