//! The value of a constant expression, or why it has none: `constant`; and so for a type that is written: `type_written`. What names mean is answered by `ConstNames`; the
//! definitions that it meets are those of `cm_meaning`, `Constants` for the value, and `Demands` with `TypeRows` for what is
//! wrong.
//!
//! It goes down the tree of an expression and no further than its height, and never into the declaration of a name: whoever
//! answers for names evaluates constants in the order of their needs, each once.
#![tactic(auto)]

mod choices;
mod construct;
mod elements;
mod evaluate;
mod form;
mod members;
mod names;
mod operations;
mod places;
mod sizes;
mod written;

pub use construct::{Given, made};
pub use evaluate::constant;
pub use form::is_constant;
pub use names::{Argument, Arguments, ConstNames, Env, Found};
pub use written::type_written;
