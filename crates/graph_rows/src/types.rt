use crate::halt::{Halt, Slip};
use crate::words::number;
use cm_base::{Items, Scalar, Shape};
use cm_core::{BaseType, CoreType};
use std::alloc::{AllocError, Global};

/// The scalars of the largest type that rows need.
const SCALARS: u64 = 1_048_576;

/// The scalar that a word is: `int`, `long`, `bool`, `wrapN` or `clampN`.
fn scalar_of(word: &str) -> Result<Scalar, Halt> {
    if let Some(count) = word.strip_prefix("wrap") {
        return Ok(Scalar::Wrap(number(count)?));
    }
    if let Some(count) = word.strip_prefix("clamp") {
        return Ok(Scalar::Clamp(number(count)?));
    }
    match word {
        "int" => Ok(Scalar::Int32),
        "long" => Ok(Scalar::Int64),
        "bool" => Ok(Scalar::Bool),
        _ => Err(Halt::Slip(Slip::Type)),
    }
}

/// A type without its arrays, and its one scalar: a scalar, or `structN`, which has one field of type `int`.
fn base_of(word: &str) -> Result<(BaseType, Scalar), Halt> {
    if let Some(count) = word.strip_prefix("struct") {
        return Ok((BaseType::Struct(number(count)?), Scalar::Int32));
    }
    let scalar = scalar_of(word)?;
    Ok((BaseType::Scalar(scalar), scalar))
}

/// So many of a scalar.
fn shape_of(alloc: Global, scalar: Scalar, count: u64) -> Result<Shape, Halt> {
    let mut scalars = Vec::new(alloc);
    for _ in 0..count {
        scalars.push(scalar)?;
    }
    Ok(Items::from_vec(scalars))
}

/// The type that a word is, with its scalars: a scalar or `structN`, and then the lengths of arrays in brackets, the
/// outermost first.
pub fn type_of(alloc: Global, word: &str) -> Result<(CoreType, Shape), Halt> {
    let mut parts = word.split('[');
    let (base, scalar) = base_of(parts.next().unwrap_or(""))?;
    let mut lengths = Vec::new(alloc);
    let mut count: u64 = 1;
    for part in parts {
        let length = number(part.strip_suffix(']').unwrap_or(""))?;
        lengths.push(length)?;
        count = count.saturating_mul(length as u64);
    }
    if count > SCALARS {
        return Err(Halt::Slip(Slip::Type));
    }
    let shape = shape_of(alloc, scalar, count)?;
    Ok((
        CoreType {
            base,
            lengths: Items::from_vec(lengths),
        },
        shape,
    ))
}

/// The word of a scalar.
pub fn word_of(alloc: Global, scalar: Scalar) -> Result<String, AllocError> {
    match scalar {
        Scalar::Int32 => String::from_str(alloc, "int"),
        Scalar::Int64 => String::from_str(alloc, "long"),
        Scalar::Bool => String::from_str(alloc, "bool"),
        Scalar::Wrap(count) => format!(in alloc; "wrap{count}"),
        Scalar::Clamp(count) => format!(in alloc; "clamp{count}"),
    }
}
