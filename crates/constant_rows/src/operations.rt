// Rows that ask what operators and conversions give.
ghost use Rattle.std.specs.Prelude.{◌≡◌, true, FitsSigned, IfOk};
ghost use Rattle.cm_const.specs.Operands.{Suits};
ghost use Rattle.cm_number.specs.Conversion.{IsWidth, width_of};

use crate::halt::{Halt, Slip};
use crate::kinds::kind_of;
use crate::names::Names;
use crate::operators::{binary_of, unary_of};
use crate::sound::{is_lawful, is_sound};
use crate::types::type_of;
use crate::values::{constant_of, scalar_of};
use crate::words::{first, number, number_text, one};
use crate::written::{value_or_none, valued_or_none};
use cm_const::{cast, computed, computed_alone, fitted, known, operate, operate_alone};
use cm_tree::Binary;
use cm_types::{CmType, Valued};
use std::alloc::Global;

/// The bits that a word is, 32 or 64.
fn bits_of(word: &str) -> Result<u32, Halt>
    ensures { IfOk result (λ bits. IsWidth bits) }
{
    if word == "32" {
        return Ok(32);
    }
    if word == "64" {
        return Ok(64);
    }
    Err(Halt::Slip(Slip::Number))
}

fn fits(number: i64, bits: u32) -> bool
    requires { IsWidth bits }
    ensures { result ≡ true → FitsSigned (width_of bits) number }
{
    bits == 64 || (number >= -2_147_483_648 && number <= 2_147_483_647)
}

// Whether an operator may be asked about these numbers: those that are shifted or divided, and a divisor, fit the width.
fn suits(op: Binary, a: i64, b: i64, bits: u32) -> bool
    requires { IsWidth bits }
    ensures { result ≡ true → Suits op (width_of bits) a b }
{
    match op {
        Binary::ShiftLeft | Binary::ShiftRight | Binary::ShiftRightZero => fits(a, bits),
        Binary::Divide | Binary::Remainder => fits(a, bits) && fits(b, bits),
        _ => true,
    }
}

fn computed_text(alloc: Global, op: Binary, a: i64, b: i64, bits: u32) -> Result<String, Halt>
    requires { IsWidth bits }
{
    if !suits(op, a, b, bits) {
        return Err(Halt::Slip(Slip::Number));
    }
    let found = computed(op, a, b, bits);
    Ok(number_text(alloc, found)?)
}

/// `computed OP BITS A B` or `computed OP BITS A`.
fn computed_row(alloc: Global, text: &str) -> Result<String, Halt> {
    let (op, others) = first(text)?;
    let (width, numbers) = first(others)?;
    let bits = bits_of(width)?;
    match numbers.split_once(' ') {
        Some((left, right)) => {
            let (a, b) = (number(left)?, number(right)?);
            computed_text(alloc, binary_of(op)?, a, b, bits)
        }
        None => {
            let found = computed_alone(unary_of(op)?, number(numbers)?, bits);
            Ok(number_text(alloc, Some(found))?)
        }
    }
}

fn operate_text(alloc: Global, op: Binary, one: &Valued, other: &Valued) -> Result<String, Halt> {
    if !is_sound(one) || !is_sound(other) {
        return Err(Halt::Slip(Slip::Value));
    }
    let found = operate(op, one, other);
    Ok(valued_or_none(alloc, &found)?)
}

/// `operate OP CONSTANT CONSTANT` or `operate OP CONSTANT`.
fn operate_row(alloc: Global, names: &Names, text: &str) -> Result<String, Halt> {
    let (op, others) = first(text)?;
    match others.split_once(' ') {
        Some((left, right)) => {
            let one = constant_of(alloc, names, left)?;
            let other = constant_of(alloc, names, right)?;
            operate_text(alloc, binary_of(op)?, &one, &other)
        }
        None => {
            let one = constant_of(alloc, names, others)?;
            let found = operate_alone(unary_of(op)?, &one);
            Ok(valued_or_none(alloc, &found)?)
        }
    }
}

/// `cast KIND SCALAR`
fn cast_row(alloc: Global, text: &str) -> Result<String, Halt> {
    let (word, scalar) = first(text)?;
    let Some(kind) = kind_of(word) else {
        return Err(Halt::Slip(Slip::Type));
    };
    let value = scalar_of(scalar)?;
    let found = cast(kind, &value);
    Ok(value_or_none(alloc, &CmType::Single(kind), &found)?)
}

/// `fitted TYPE CONSTANT`
fn fitted_row(alloc: Global, names: &Names, text: &str) -> Result<String, Halt> {
    let (word, constant) = first(text)?;
    let ty = type_of(alloc, names, word)?;
    let one = constant_of(alloc, names, constant)?;
    if !is_lawful(&ty) {
        return Err(Halt::Slip(Slip::Type));
    }
    let found = fitted(alloc, &ty, &one)?;
    Ok(value_or_none(alloc, &ty, &found)?)
}

/// The answer of a row that asks for what an operator or a conversion gives, by its first word and the others.
pub fn operation_answer(
    alloc: Global,
    names: &Names,
    word: &str,
    text: &str,
) -> Result<Option<String>, Halt> {
    if word == "computed" {
        return Ok(Some(computed_row(alloc, text)?));
    }
    if word == "operate" {
        return Ok(Some(operate_row(alloc, names, text)?));
    }
    if word == "cast" {
        return Ok(Some(cast_row(alloc, text)?));
    }
    if word == "fitted" {
        return Ok(Some(fitted_row(alloc, names, text)?));
    }
    if word == "known" {
        let constant = constant_of(alloc, names, one(text)?)?;
        return Ok(Some(number_text(alloc, known(&constant))?));
    }
    Ok(None)
}
