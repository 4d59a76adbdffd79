//! The values of constants: `computed` and `computed_alone` are what each operator gives for numbers of a width, `operate` and
//! `operate_alone` what it gives for constants, in the type in which it computes; `cast` is a scalar of another type, and `fitted`
//! a constant where a value of a type is needed. Each meets the definition of its name in `cm_meaning`, `Conversions`, of what
//! its arguments mean by `meant_valued` of `cm_types`.
#![tactic(auto)]

mod fitting;
mod numbers;
mod operations;

pub use fitting::{cast, fitted, known};
pub use numbers::{computed, computed_alone};
pub use operations::{converted, operate, operate_alone};
