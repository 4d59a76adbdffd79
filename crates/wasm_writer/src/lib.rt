//! Writes a module of WebAssembly 1.0 in its shortest spelling: shortest numbers, no empty section, and the
//! custom sections last. The layers above call `write_module`. Its bytes are `spelling` of `specs/Spelling`,
//! which is a function of the module, and they spell the module as `Spelled` of `wasm_tree` says. The sizes of
//! sections and bodies are counted first, so that each byte is written once, into a list that is reserved with
//! the module's size. What it asks of a module is `IsWritable`, and `is_writable` tests exactly that.
//! `write_section` gives the contents of the custom section `cmajor`, which tells a host of the endpoints:
//! `section_contents` of `specs/Description`. Two laws go with `write_module`: no spelling of a module is
//! shorter (`spelling_is_shortest`), and a module that fewer than 2 ^ 32 bytes spell is writable
//! (`spelled_is_writable`).
#![tactic(auto)]

mod description;
mod encode;
mod entry;
mod instruction;
mod laws;
mod number;
mod section_sizes;
mod size;
mod types;
mod writable;
mod writing;

pub use description::write_section;
pub use laws::{spelled_is_writable, spelling_is_shortest};
pub use writable::is_writable;
pub use writing::write_module;
