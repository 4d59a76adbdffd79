// How rows write types and values.

use crate::kinds::kind_text;
use cm_base::Scalar;
use cm_types::{CmType, Value, Valued};
use std::alloc::{AllocError, Global};

/// Appends a type without its sizes.
fn push_base(alloc: Global, line: &mut String, ty: &CmType) -> Result<(), AllocError> {
    match ty {
        CmType::Single(kind) => line.push_str(kind_text(alloc, *kind)?.as_str()),
        CmType::Array(_, element) => push_base(alloc, line, element.get()),
        CmType::Record(declared, _) => {
            let number = declared.line;
            write!(line, "struct{number}")
        }
    }
}

/// Appends the sizes of an array, the outermost first.
fn push_sizes(line: &mut String, ty: &CmType) -> Result<(), AllocError> {
    match ty {
        CmType::Array(count, element) => {
            write!(line, "[{count}]")?;
            push_sizes(line, element.get())
        }
        CmType::Single(_) | CmType::Record(_, _) => Ok(()),
    }
}

/// Appends a comma, unless the line ends with a parenthesis that is open.
fn push_comma(line: &mut String) -> Result<(), AllocError> {
    if line.as_str().ends_with('(') {
        Ok(())
    } else {
        line.push(',')
    }
}

/// Appends the scalars of a value from left to right.
#[cycle(scalars)]
fn push_scalars(line: &mut String, value: &Value) -> Result<(), AllocError> {
    match value {
        Value::Number(number) => {
            push_comma(line)?;
            write!(line, "{number}")
        }
        Value::Truth(truth) => {
            push_comma(line)?;
            write!(line, "{truth}")
        }
        Value::Many(all) => push_all(line, all.as_slice()),
    }
}

#[cycle(scalars)]
fn push_all(line: &mut String, all: &[Value]) -> Result<(), AllocError> {
    for value in all {
        push_scalars(line, value)?;
    }
    Ok(())
}

/// Appends the scalars of a value in parentheses.
fn push_value(line: &mut String, value: &Value) -> Result<(), AllocError> {
    line.push('(')?;
    push_scalars(line, value)?;
    line.push(')')
}

/// A type, as `int32[2][3]`. A struct is written by the line of its declaration, as `struct3`.
pub fn type_text(alloc: Global, ty: &CmType) -> Result<String, AllocError> {
    let mut line = String::new(alloc);
    push_base(alloc, &mut line, ty)?;
    push_sizes(&mut line, ty)?;
    Ok(line)
}

/// A value of a type, as `bool[2](true,false)`.
pub fn value_text(alloc: Global, ty: &CmType, value: &Value) -> Result<String, AllocError> {
    let mut line = type_text(alloc, ty)?;
    push_value(&mut line, value)?;
    Ok(line)
}

/// A constant, or `none`.
pub fn valued_or_none(alloc: Global, found: &Option<Valued>) -> Result<String, AllocError> {
    match found {
        Some(one) => value_text(alloc, &one.ty, &one.value),
        None => String::from_str(alloc, "none"),
    }
}

/// A value of a type, or `none`.
pub fn value_or_none(
    alloc: Global,
    ty: &CmType,
    found: &Option<Value>,
) -> Result<String, AllocError> {
    match found {
        Some(value) => value_text(alloc, ty, value),
        None => String::from_str(alloc, "none"),
    }
}

/// Kinds with commas between them, or `none`.
pub fn kinds_text(alloc: Global, kinds: &[Scalar]) -> Result<String, AllocError> {
    if kinds.is_empty() {
        return String::from_str(alloc, "none");
    }
    let mut line = String::new(alloc);
    for kind in kinds {
        if !line.is_empty() {
            line.push(',')?;
        }
        line.push_str(kind_text(alloc, *kind)?.as_str())?;
    }
    Ok(line)
}
