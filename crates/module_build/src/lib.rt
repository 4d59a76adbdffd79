//! Builds the module of a patch. So far the one patch is that which passes its input through: `build_through`
//! gives a module that is valid and keeps the patch (`Keeps` of `wasm_tree` over `run` of `cm_tree`), and
//! that the writer can write.
#![tactic(auto)]

mod example;
mod parts;
mod pass;

pub use example::the_example_is_spelled;
pub use pass::build_through;
