use crate::halt::{Halt, Slip};
use crate::names::{Meaning, Names};
use crate::types::type_of;
use crate::words::number;
use cm_base::Items;
use cm_types::{CmType, FieldType, Value, Valued};
use std::alloc::Global;

/// A number, `true` or `false`.
pub fn scalar_of(word: &str) -> Result<Value, Halt> {
    if word == "true" {
        return Ok(Value::Truth(true));
    }
    if word == "false" {
        return Ok(Value::Truth(false));
    }
    match number(word) {
        Ok(found) => Ok(Value::Number(found)),
        Err(halt) => Err(halt),
    }
}

/// Scalars with commas between them, the last one first.
fn scalars_of(alloc: Global, text: &str) -> Result<Vec<Value>, Halt> {
    let mut all = Vec::new(alloc);
    if !text.is_empty() {
        for word in text.rsplit(',') {
            all.push(scalar_of(word)?)?;
        }
    }
    Ok(all)
}

/// A value of a type, of the next scalars, the last of which comes first.
#[cycle(value)]
fn filled(alloc: Global, ty: &CmType, scalars: &mut Vec<Value>) -> Result<Value, Halt> {
    match ty {
        CmType::Single(_) => match scalars.pop() {
            Some(value) => Ok(value),
            None => Err(Halt::Slip(Slip::Value)),
        },
        CmType::Array(count, element) => {
            let mut all = Items::new(alloc);
            for _ in 0..*count {
                all.push(filled(alloc, element.get(), scalars)?)?;
            }
            Ok(Value::Many(all))
        }
        CmType::Record(_, fields) => {
            let all = filled_fields(alloc, fields.as_slice(), scalars)?;
            Ok(Value::Many(all))
        }
    }
}

#[cycle(value)]
fn filled_fields(
    alloc: Global,
    fields: &[FieldType],
    scalars: &mut Vec<Value>,
) -> Result<Items<Value>, Halt> {
    let mut all = Items::new(alloc);
    for field in fields {
        all.push(filled(alloc, &field.ty, scalars)?)?;
    }
    Ok(all)
}

/// A constant of a type, with its scalars from left to right.
fn written(alloc: Global, ty: CmType, text: &str) -> Result<Valued, Halt> {
    let mut scalars = scalars_of(alloc, text)?;
    let value = filled(alloc, &ty, &mut scalars)?;
    if scalars.is_empty() {
        Ok(Valued { ty, value })
    } else {
        Err(Halt::Slip(Slip::Value))
    }
}

/// The constant that a word is: a name that is declared above, or a type and its scalars, as `int32[2](1,2)`.
pub fn constant_of(alloc: Global, names: &Names, word: &str) -> Result<Valued, Halt> {
    if let Some(inner) = word.strip_suffix(')') {
        let Some((ty, text)) = inner.split_once('(') else {
            return Err(Halt::Slip(Slip::Value));
        };
        return written(alloc, type_of(alloc, names, ty)?, text);
    }
    match names.meaning(word) {
        Some(Meaning::Constant(one)) => Ok(Valued {
            ty: one.ty.copy(alloc)?,
            value: one.value.copy(alloc)?,
        }),
        _ => Err(Halt::Slip(Slip::Value)),
    }
}
