use crate::{CmType, FieldType, Value};
use cm_base::{Boxed, Items, Name, NoMemory, Place, Scalar};
use std::alloc::{AllocError, Global};

// `struct S { wrap<4>[2] b; }`
fn record(alloc: Global) -> Result<CmType, AllocError> {
    let element = CmType::Single(Scalar::Wrap(4));
    let mut fields = Vec::new(alloc);
    fields.push(FieldType {
        name: Name::from_str(alloc, "b")?,
        ty: CmType::Array(2, Boxed::new(alloc, element)?),
    })?;
    let declared = Place {
        file: 1,
        line: 2,
        column: 8,
    };
    Ok(CmType::Record(declared, Items::from_vec(fields)))
}

fn is_element(ty: &CmType) -> bool {
    match ty {
        CmType::Single(kind) => *kind == Scalar::Wrap(4),
        CmType::Array(_, _) | CmType::Record(_, _) => false,
    }
}

fn is_pair(field: &FieldType) -> bool {
    match &field.ty {
        CmType::Array(count, element) => {
            field.name.as_str() == "b" && *count == 2 && is_element(element.get())
        }
        CmType::Single(_) | CmType::Record(_, _) => false,
    }
}

fn is_record(ty: &CmType) -> bool {
    match ty {
        CmType::Record(declared, fields) => {
            declared.line == 2
                && fields.len() == 1
                && fields.as_slice().iter().all(|field| is_pair(field))
        }
        CmType::Single(_) | CmType::Array(_, _) => false,
    }
}

#[test]
fn types_are_copied(rt: HostRuntime) -> Result<(), AllocError> {
    let ty = record(rt.alloc())?;
    match ty.copy(rt.alloc()) {
        Ok(again) => assert!(rt; is_record(&again)),
        Err(NoMemory) => assert!(rt; false),
    }
    Ok(())
}

#[test]
fn values_are_copied(rt: HostRuntime) -> Result<(), AllocError> {
    let mut all = Vec::new(rt.alloc());
    all.push(Value::Number(-3))?;
    all.push(Value::Truth(true))?;
    let value = Value::Many(Items::from_vec(all));
    assert_eq!(rt; value.number(), None);
    match value.copy(rt.alloc()) {
        Ok(Value::Many(again)) => {
            assert_eq!(rt; again.len(), 2);
            assert!(rt;
                again.as_slice().iter().all(|part| part.number() == Some(-3)
                    || part.number() == Some(1))
            );
        }
        Ok(Value::Number(_)) | Ok(Value::Truth(_)) | Err(NoMemory) => assert!(rt; false),
    }
    Ok(())
}
