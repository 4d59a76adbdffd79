ghost use Rattle.std.specs.Prelude.{◌≡◌, ◌≢◌, MatchOption};
ghost use Rattle.wasm_tree.specs.declared.module.ValType.{ValType as TheType};
ghost use Rattle.wasm_tree.specs.Spelled.{type_byte};

use crate::instr::Instr;
use cm_base::{Bytes, Items, Name};

/// The types of values.
#[derive(Clone, Copy, Debug, PartialEq, Eq)]
pub enum ValType {
    I32,
    I64,
}

impl ValType {
    /// The byte that stands for the type (Core Specification 1.0, 5.3.1).
    pub fn byte(self) -> u8
        ensures { result ≡ type_byte self }
    {
        match self {
            ValType::I32 => 0x7F,
            ValType::I64 => 0x7E,
        }
    }

    /// The type that the byte stands for.
    pub fn of_byte(byte: u8) -> Option<ValType>
        ensures { MatchOption result ((ty : TheType) → type_byte ty ≢ byte) (λ ty. type_byte ty ≡ byte) }
    {
        match byte {
            0x7F => Some(ValType::I32),
            0x7E => Some(ValType::I64),
            _ => None,
        }
    }
}

pub type ValTypes = Items<ValType>;

/// The types of a function's parameters and results.
#[derive(Debug, Drop)]
pub struct FuncType {
    pub params: ValTypes,
    pub results: ValTypes,
}

/// A memory's size in pages of 65,536 bytes.
#[derive(Clone, Copy, Debug, PartialEq, Eq)]
pub struct Limits {
    pub min: u32,
    pub max: Option<u32>,
}

/// What is imported: a function of the type with this number, or a memory.
#[derive(Clone, Copy, Debug, PartialEq, Eq)]
pub enum ImportKind {
    Function(u32),
    Memory(Limits),
}

#[derive(Debug, Drop)]
pub struct Import {
    pub module: Name,
    pub name: Name,
    pub kind: ImportKind,
}

/// What is exported: the function or the memory with this number.
#[derive(Clone, Copy, Debug, PartialEq, Eq)]
pub enum ExportKind {
    Function(u32),
    Memory(u32),
}

#[derive(Debug, Drop)]
pub struct ExportEntry {
    pub name: Name,
    pub kind: ExportKind,
}

/// A global, and the instruction that gives its first value.
#[derive(Debug, Drop)]
pub struct GlobalVar {
    pub ty: ValType,
    pub mutable: bool,
    pub value: Instr,
}

/// Locals of one type that follow one another.
#[derive(Clone, Copy, Debug, PartialEq, Eq)]
pub struct LocalRun {
    pub count: u32,
    pub ty: ValType,
}

pub type LocalRuns = Items<LocalRun>;

/// A function's locals beside its parameters, and its code.
#[derive(Debug, Drop)]
pub struct FuncBody {
    pub locals: LocalRuns,
    pub code: Items<Instr>,
}

/// Bytes that a memory begins with, from this address on, which is read as unsigned.
#[derive(Debug, Drop)]
pub struct Segment {
    pub memory: u32,
    pub offset: i32,
    pub bytes: Bytes,
}

/// A custom section.
#[derive(Debug, Drop)]
pub struct Custom {
    pub name: Name,
    pub bytes: Bytes,
}

pub type FuncTypes = Items<FuncType>;

pub type Imports = Items<Import>;

/// Numbers of types, functions or labels.
pub type Indices = Items<u32>;

pub type Memories = Items<Limits>;

pub type Globals = Items<GlobalVar>;

pub type Exports = Items<ExportEntry>;

pub type FuncBodies = Items<FuncBody>;

pub type Segments = Items<Segment>;

pub type Customs = Items<Custom>;

/// A module of the subset (Core Specification 1.0, 2.5). `functions` has the number of the type of each
/// function that isn't imported, and `codes` its body. `customs` has the custom sections of other names
/// first, and then those named `cmajor`.
#[derive(Debug, Drop)]
pub struct Module {
    pub types: FuncTypes,
    pub imports: Imports,
    pub functions: Indices,
    pub memory: Memories,
    pub globals: Globals,
    pub exports: Exports,
    pub codes: FuncBodies,
    pub segments: Segments,
    pub customs: Customs,
}
