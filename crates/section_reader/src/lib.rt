//! Reads the contents of the custom section `cmajor`, which tells a host of a module's endpoints (docs/MODULE.md, "The
//! section"). The layers above use `read_section`: it gives what the bytes say (`Spelled_section` of wasm_tree), of at most
//! 1,048,576 scalars, and tells where they say nothing of the kind. Inside, the section is read as it is spelled, with runs of
//! scalars of one kind (`specs/Reading`), by the cursor and the laws of wasm_reader. Only then are the runs counted, and
//! the shapes made, so that a few bytes can't ask for much memory. `offset_of` tells where a section begins, for the refusal
//! of a module that breaks a rule of validity.
#![tactic(auto)]

mod expand;
mod place;
mod raw;
mod section;

pub use place::{Wanted, offset_of};
pub use section::{Section, read_section};

#[cfg(test)]
mod tests;
