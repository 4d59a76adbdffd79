use crate::halt::{Halt, Slip};
use crate::kinds::kind_of;
use crate::names::{Meaning, Names};
use crate::words::small;
use cm_base::{Boxed, Items, Name, Place};
use cm_types::{CmType, FieldType};
use std::alloc::Global;

/// A type without sizes: a kind of scalar, or a name that is declared above.
fn base_of(alloc: Global, names: &Names, word: &str) -> Result<CmType, Halt> {
    if let Some(kind) = kind_of(word) {
        return Ok(CmType::Single(kind));
    }
    match names.meaning(word) {
        Some(Meaning::Type(ty)) => Ok(ty.copy(alloc)?),
        _ => Err(Halt::Slip(Slip::Type)),
    }
}

/// The sizes of arrays, as `2` and `3` of `[2][3]`.
fn sizes_of(alloc: Global, text: &str) -> Result<Vec<u32>, Halt> {
    let mut sizes = Vec::new(alloc);
    for part in text.split('[').skip(1) {
        sizes.push(small(part.strip_suffix(']').unwrap_or(""))?)?;
    }
    Ok(sizes)
}

/// The type that a word is: a kind of scalar or a name, and then the sizes of arrays, the outermost first.
pub fn type_of(alloc: Global, names: &Names, word: &str) -> Result<CmType, Halt> {
    let mut ty = base_of(alloc, names, word.split('[').next().unwrap_or(""))?;
    let sizes = sizes_of(alloc, word)?;
    for index in (0..sizes.len()).rev() {
        ty = CmType::Array(sizes[index], Boxed::new(alloc, ty)?);
    }
    Ok(ty)
}

/// A field, as `int32 a`.
fn field_of(alloc: Global, names: &Names, text: &str) -> Result<FieldType, Halt> {
    let Some((ty, name)) = text.trim().split_once(' ') else {
        return Err(Halt::Slip(Slip::Type));
    };
    Ok(FieldType {
        name: Name::from_str(alloc, name)?,
        ty: type_of(alloc, names, ty)?,
    })
}

/// A struct that is declared in a line, with its fields, as `int32 a, bool[2] b`.
pub fn struct_of(alloc: Global, names: &Names, line: u32, text: &str) -> Result<CmType, Halt> {
    let mut fields = Items::new(alloc);
    if !text.is_empty() {
        for part in text.split(',') {
            fields.push(field_of(alloc, names, part)?)?;
        }
    }
    let (file, column) = (1, 8);
    Ok(CmType::Record(Place { file, line, column }, fields))
}
