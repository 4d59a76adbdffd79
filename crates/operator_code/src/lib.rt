//! Code of operators and conversions on scalars, which stands behind the code of its operands: `push_operator`,
//! `push_shift`, `push_division`, `push_unary` and `push_conversion`. An index of n elements is converted as to `wrap<n>`.
//! Their contracts say which instructions are appended (`specs/Operators`, `specs/Conversions`), that these compute what
//! the language says by the standard's reduction wherever they stand, in one reduction for each instruction other than a
//! constant (`Computes` and `Turns` of `specs/Promises`), that they are typed, and that they are straight.
#![tactic(auto)]

mod conversions;
mod laws;
mod operators;
mod scratch;

pub use conversions::push_conversion;
pub use laws::{code_is_straight, code_is_typed, conversions_convert, operators_compute};
pub use operators::{push_division, push_operator, push_shift, push_unary};
pub use scratch::Scratch;
