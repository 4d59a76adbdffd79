//! The scalars of host endpoints in a module's memory, as the definitions `Slots` of wasm_tree state them: each takes four
//! bytes or, as an int64, eight, low byte first, and one follows another without gaps. `read_scalars` reads what stands at
//! the begin of some bytes, `read_entry` an entry of a slot, and `write_entry` writes one. A byte past the end counts as 0,
//! and a number outside of its kind is converted to it. `written_is_read` is the law that what was written is read.
#![tactic(auto)]

mod kind;
mod laws;
mod read;
mod size;
mod write;

pub use kind::{has_shape, is_of_kind};
pub use laws::written_is_read;
pub use read::{read_entry, read_scalars};
pub use size::{shape_bytes, size_of};
pub use write::{write_entry, write_scalars};

#[cfg(test)]
mod tests;
