//! Reads a module from bytes that anyone may have written. The layers above use the contract of `read_module`
//! alone: it gives the module that the bytes spell (`Spelled` of wasm_tree), refuses exactly where none is
//! spelled, and names the first rule that fails and the byte at which it does (`specs/Fault`). Inside, each
//! reader is proved equal to a reading function on lists (`specs/Reading`), and laws about these functions
//! tie them to both definitions. No list is reserved by a count that the bytes state, a function's locals and
//! open blocks are counted, without recursion, and refused past their limits before anything of that size is
//! made, and no byte is looked at more than twice: the text of a name, which is tested for UTF-8 first, what opens
//! a block, and the first byte of a longer number. `Cursor`, `Decode` and the laws of `proofs/Readers` serve the reader of
//! the section `cmajor` too (`section_reader`).
#![tactic(auto)]

mod code;
mod cursor;
mod decode;
mod entries;
mod fault;
mod instr;
mod locals;
mod name;
mod opcode;
mod reader;
mod section;

pub use cursor::Cursor;
pub use decode::{Decode, Filling};
pub use fault::{Fault, ReadFail, at};
pub use name::read_name;
pub use reader::{read_module, spelled_once};
