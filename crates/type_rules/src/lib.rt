//! The rules of types that need no names: when two types are the same, how many scalars a type has, its scalars from left to
//! right, and its zero. Each call meets the definition of its name in `cm_meaning`, of what its arguments mean by
//! `meant_type` and `meant_value` of `cm_types`.
//!
//! Each walks the tree of a type and goes down no further than its height. An array's elements are counted by one
//! multiplication.
#![tactic(auto)]

mod conversion;
mod operators;
mod same;
mod shape;
mod size;
mod values;

pub use conversion::{converts, holds, is_bool, is_number};
pub use operators::{arithmetic, is_condition, is_int64, joined, operated, operated_alone};
pub use same::is_same;
pub use shape::flat;
pub use size::scalars;
pub use values::{copies, scalar_value, zero};
