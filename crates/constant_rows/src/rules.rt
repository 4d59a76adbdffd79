// Rows that ask about types.

use crate::halt::{Halt, Slip};
use crate::kinds::kind_or_none;
use crate::names::Names;
use crate::operators::{binary_of, unary_of};
use crate::sound::is_lawful;
use crate::types::type_of;
use crate::words::{first, number, one, told};
use crate::written::{kinds_text, value_text};
use cm_types::CmType;
use std::alloc::Global;
use type_rules::{
    arithmetic, converts, flat, is_condition, is_same, joined, operated, operated_alone, scalars,
    zero,
};

/// Two types.
fn pair(alloc: Global, names: &Names, text: &str) -> Result<(CmType, CmType), Halt> {
    let (left, right) = first(text)?;
    let from = type_of(alloc, names, left)?;
    let to = type_of(alloc, names, one(right)?)?;
    Ok((from, to))
}

fn conversion(
    alloc: Global,
    from: &CmType,
    to: &CmType,
    known: Option<i64>,
) -> Result<String, Halt> {
    if !is_lawful(to) {
        return Err(Halt::Slip(Slip::Type));
    }
    let is_so = converts(from, to, known);
    Ok(told(alloc, is_so)?)
}

/// `converts FROM TO`, with a constant number where one is known.
fn converts_row(alloc: Global, names: &Names, text: &str) -> Result<String, Halt> {
    let (left, others) = first(text)?;
    let from = type_of(alloc, names, left)?;
    match others.split_once(' ') {
        Some((right, word)) => {
            let to = type_of(alloc, names, right)?;
            let known = number(word)?;
            conversion(alloc, &from, &to, Some(known))
        }
        None => {
            let to = type_of(alloc, names, others)?;
            conversion(alloc, &from, &to, None)
        }
    }
}

/// `operated OP TYPE TYPE` or `operated OP TYPE`.
fn operated_row(alloc: Global, names: &Names, text: &str) -> Result<String, Halt> {
    let (op, others) = first(text)?;
    let found = match others.split_once(' ') {
        Some((left, right)) => {
            let one = type_of(alloc, names, left)?;
            let other = type_of(alloc, names, right)?;
            operated(binary_of(op)?, &one, &other)
        }
        None => {
            let one = type_of(alloc, names, others)?;
            operated_alone(unary_of(op)?, &one)
        }
    };
    Ok(kind_or_none(alloc, found)?)
}

/// `zero TYPE`
fn zero_row(alloc: Global, names: &Names, text: &str) -> Result<String, Halt> {
    let ty = type_of(alloc, names, one(text)?)?;
    if !is_lawful(&ty) {
        return Err(Halt::Slip(Slip::Type));
    }
    let value = zero(alloc, &ty)?;
    Ok(value_text(alloc, &ty, &value)?)
}

/// Rows of one type.
fn alone(alloc: Global, names: &Names, word: &str, text: &str) -> Result<Option<String>, Halt> {
    if word == "zero" {
        return Ok(Some(zero_row(alloc, names, text)?));
    }
    if word == "scalars" {
        let ty = type_of(alloc, names, one(text)?)?;
        let count = scalars(&ty);
        return Ok(Some(format!(in alloc; "{count}")?));
    }
    if word == "flat" {
        let ty = type_of(alloc, names, one(text)?)?;
        let kinds = flat(alloc, &ty)?;
        return Ok(Some(kinds_text(alloc, kinds.as_slice())?));
    }
    if word == "arithmetic" {
        let ty = type_of(alloc, names, one(text)?)?;
        return Ok(Some(kind_or_none(alloc, arithmetic(&ty))?));
    }
    if word == "condition" {
        let ty = type_of(alloc, names, one(text)?)?;
        return Ok(Some(told(alloc, is_condition(&ty))?));
    }
    Ok(None)
}

/// The answer of a row that asks about types, by its first word and the others.
pub fn rule_answer(
    alloc: Global,
    names: &Names,
    word: &str,
    text: &str,
) -> Result<Option<String>, Halt> {
    if word == "converts" {
        return Ok(Some(converts_row(alloc, names, text)?));
    }
    if word == "operated" {
        return Ok(Some(operated_row(alloc, names, text)?));
    }
    if word == "same" {
        let (left, right) = pair(alloc, names, text)?;
        return Ok(Some(told(alloc, is_same(&left, &right))?));
    }
    if word == "joined" {
        let (left, right) = pair(alloc, names, text)?;
        return Ok(Some(kind_or_none(alloc, joined(&left, &right))?));
    }
    alone(alloc, names, word, text)
}
