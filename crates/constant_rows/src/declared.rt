// Lines that declare names.

use crate::halt::{Halt, Slip};
use crate::names::{Meaning, Names};
use crate::types::{struct_of, type_of};
use crate::values::constant_of;
use crate::words::{first, one, small};
use cm_base::Name;
use std::alloc::Global;

/// `let NAME CONSTANT`
fn declare_constant(alloc: Global, names: &mut Names, text: &str) -> Result<(), Halt> {
    let (name, word) = first(text)?;
    let constant = constant_of(alloc, names, one(word)?)?;
    let name = Name::from_str(alloc, name)?;
    names.declare(name, Meaning::Constant(constant))?;
    Ok(())
}

/// `type NAME TYPE`
fn declare_type(alloc: Global, names: &mut Names, text: &str) -> Result<(), Halt> {
    let (name, word) = first(text)?;
    let ty = type_of(alloc, names, one(word)?)?;
    let name = Name::from_str(alloc, name)?;
    names.declare(name, Meaning::Type(ty))?;
    Ok(())
}

/// `struct NAME LINE: TYPE FIELD, TYPE FIELD`
fn declare_struct(alloc: Global, names: &mut Names, text: &str) -> Result<(), Halt> {
    let Some((head, fields)) = text.split_once(':') else {
        return Err(Halt::Slip(Slip::Line));
    };
    let (name, line) = first(head)?;
    let ty = struct_of(alloc, names, small(line)?, fields)?;
    let name = Name::from_str(alloc, name)?;
    names.declare(name, Meaning::Type(ty))?;
    Ok(())
}

/// Declares what a line declares, if it does.
pub fn declare(alloc: Global, names: &mut Names, line: &str) -> Result<bool, Halt> {
    if let Some(text) = line.strip_prefix("let ") {
        declare_constant(alloc, names, text)?;
        return Ok(true);
    }
    if let Some(text) = line.strip_prefix("type ") {
        declare_type(alloc, names, text)?;
        return Ok(true);
    }
    if let Some(text) = line.strip_prefix("struct ") {
        declare_struct(alloc, names, text)?;
        return Ok(true);
    }
    Ok(false)
}
