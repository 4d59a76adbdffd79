ghost use Rattle.std.specs.Prelude.{◌≡◌, IfOk};

use cm_base::{Boxed, Items, Name, NoMemory, Place, Scalar};
use std::alloc::Global;

/// A type: docs/LANGUAGE.md, "Types". Contracts see what it means by `meant_type` of `specs/Meant`.
#[cycle(cm_type)]
#[derive(Debug, Drop)]
pub enum CmType {
    /// A number or truth value.
    Single(Scalar),
    /// So many elements of a type.
    Array(u32, Boxed<CmType>),
    /// A struct, with the place of its declaration's name.
    Record(Place, Items<FieldType>),
}

/// A field of a struct.
#[cycle(cm_type)]
#[derive(Debug, Drop)]
pub struct FieldType {
    pub name: Name,
    pub ty: CmType,
}

impl CmType {
    /// The same type again.
    #[cycle(copy_type)]
    pub fn copy(&self, alloc: Global) -> Result<CmType, NoMemory>
        ensures { IfOk result (λ again. again ≡ self.now) }
    {
        match self {
            CmType::Single(kind) => Ok(CmType::Single(*kind)),
            CmType::Array(count, element) => {
                let element = element.get().copy(alloc)?;
                Ok(CmType::Array(*count, Boxed::new(alloc, element)?))
            }
            CmType::Record(declared, fields) => {
                let fields = copy_fields(fields.as_slice(), alloc)?;
                Ok(CmType::Record(*declared, fields))
            }
        }
    }
}

#[cycle(copy_type)]
fn copy_fields(fields: &[FieldType], alloc: Global) -> Result<Items<FieldType>, NoMemory>
    ensures { IfOk result (λ again. again ≡ fields.now) }
{
    let mut copies = Vec::with_capacity(alloc, fields.len())?;
    for field in fields {
        let name = Name::from_str(alloc, field.name.as_str())?;
        let ty = field.ty.copy(alloc)?;
        copies.push(FieldType { name, ty })?;
    }
    Ok(Items::from_vec(copies))
}
