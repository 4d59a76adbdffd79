//! Code that copies and zeroes parts of memory: `push_copy` and `push_zero`. Their contracts say which instructions are
//! appended (`specs/Copies`). `copies_and_zeroes` says what these do by the standard's reduction wherever they stand, and
//! in how many reductions, and `code_is_straight` that they are typed and straight. `Part` is how the code of rings copies
//! too.
#![tactic(auto)]

mod address;
mod copies;
mod laws;
mod part;

pub use address::Address;
pub use copies::{push_copy, push_zero};
pub use laws::{code_is_straight, copies_and_zeroes};
pub use part::Part;
