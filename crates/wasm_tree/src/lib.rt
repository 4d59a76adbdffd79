//! Modules and instructions of WebAssembly 1.0 in the integer subset of docs/MODULE.md, as plain types, and
//! in `specs/` the definitions that the rest of the compiler rests on: which bytes spell a module (`Spelled`,
//! `Opcode`, `Control`), when a module is valid and how another one is refused (`Valid`, `Typed`, `Refusal`), how
//! instructions reduce (`Reduce`, `Meaning`), what a host's run of a module is (`HostRun`, over `Instance`, `Slots`
//! and `Calls`), and when a module keeps its source (`Keeps`, `Stopped`). The writer, the reader, the validator, the
//! runner and the headline cite them. The functions of `laws` do nothing: their contracts state what follows from
//! the definitions.
#![tactic(auto)]

mod control;
mod failure;
mod format;
mod instr;
mod interface;
mod laws;
mod module;
mod op;

pub use control::ControlStack;
pub use failure::{ModuleFail, ModuleRefused, ModuleRule};
pub use format::{CMAJOR, CUSTOM_ID, HEADER, Listed, is_cmajor};
pub use instr::{BlockType, Code, Instr, LabelTable, MemArg};
pub use interface::Interface;
pub use laws::{broken_has_an_offset, broken_is_invalid, emit_is_function_0, section_is_unique};
pub use module::{
    Custom, Customs, ExportEntry, ExportKind, Exports, FuncBodies, FuncBody, FuncType, FuncTypes,
    GlobalVar, Globals, Import, ImportKind, Imports, Indices, Limits, LocalRun, LocalRuns,
    Memories, Module, Segment, Segments, ValType, ValTypes,
};
pub use op::{BinaryOp, CompareOp, ConvertOp, LoadOp, StoreOp, UnaryOp};
