//! Parsers of statements, declarations and files as functions on token lists, in `specs/`, and their laws.
#![tactic(auto)]

mod begun;
mod laws;

pub use begun::Begun;
pub use laws::{reads_files, reads_no_further};
