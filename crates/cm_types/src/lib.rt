//! The types and values of the language as the compiler holds them. `meant_type` and `meant_value` of `specs/Meant` say which
//! types and values of the definitions in `cm_meaning` they are; contracts speak of code's types and values by these two.
#![tactic(auto)]

mod cm_type;
#[cfg(test)]
mod tests;
mod value;
mod valued;

pub use cm_type::{CmType, FieldType};
pub use value::Value;
pub use valued::Valued;
