use crate::cm_type::CmType;
use crate::value::Value;

/// A value with its type. Contracts see what it means by `meant_valued` of `specs/Meant`.
#[derive(Debug, Drop)]
pub struct Valued {
    pub ty: CmType,
    pub value: Value,
}
