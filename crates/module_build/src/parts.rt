//! Small parts of modules, each equal to its definition.

ghost use Rattle.std.specs.Prelude.{◌≡◌, ◌∷◌, [], IfOk, Some, pos, codes};
ghost use Rattle.module_build.specs.Through.{function_export, memory_export, emit_import, body_of, word_at, one_page, cmajor_custom};
ghost use Rattle.wasm_tree.specs.Valid.{emit_type, no_type};

use cm_base::{Bytes, Items, Name, NoMemory};
use std::alloc::Global;
use wasm_tree::{
    Code, Custom, ExportEntry, ExportKind, FuncBody, FuncType, Import, ImportKind, Limits, MemArg,
    ValType,
};

/// A list of one part.
pub fn one<T: Drop>(alloc: Global, part: T) -> Result<Items<T>, NoMemory>
    ensures { IfOk result (λ parts. parts ≡ part ∷ []) }
{
    let mut parts = Items::new(alloc);
    parts.push(part)?;
    Ok(parts)
}

/// A list of two parts.
pub fn two<T: Drop>(alloc: Global, first: T, second: T) -> Result<Items<T>, NoMemory>
    ensures { IfOk result (λ parts. parts ≡ first ∷ second ∷ []) }
{
    let mut parts = one(alloc, first)?;
    parts.push(second)?;
    Ok(parts)
}

/// The type of a function that takes and gives nothing.
pub fn plain_type(alloc: Global) -> FuncType
    ensures { result ≡ no_type }
{
    FuncType {
        params: Items::new(alloc),
        results: Items::new(alloc),
    }
}

/// The type of a function that takes one `i32`.
pub fn number_type(alloc: Global) -> Result<FuncType, NoMemory>
    ensures { IfOk result (λ ty. ty ≡ emit_type) }
{
    Ok(FuncType {
        params: one(alloc, ValType::I32)?,
        results: Items::new(alloc),
    })
}

/// The import of `emit` from `host`, a function of type 0.
pub fn host_import(alloc: Global) -> Result<Import, NoMemory>
    ensures { IfOk result (λ import. import ≡ emit_import) }
{
    Ok(Import {
        module: Name::from_str(alloc, "host")?,
        name: Name::from_str(alloc, "emit")?,
        kind: ImportKind::Function(0),
    })
}

/// The export of a function.
pub fn export_function(alloc: Global, name: &str, number: u32) -> Result<ExportEntry, NoMemory>
    ensures { IfOk result (λ entry. entry ≡ function_export name.now number) }
{
    Ok(ExportEntry {
        name: Name::from_str(alloc, name)?,
        kind: ExportKind::Function(number),
    })
}

/// The export of the memory.
pub fn export_memory(alloc: Global) -> Result<ExportEntry, NoMemory>
    ensures { IfOk result (λ entry. entry ≡ memory_export) }
{
    Ok(ExportEntry {
        name: Name::from_str(alloc, "memory")?,
        kind: ExportKind::Memory(0),
    })
}

/// A function without locals beside its parameters.
pub fn body(alloc: Global, code: Code) -> FuncBody
    ensures { result ≡ body_of code }
{
    FuncBody {
        locals: Items::new(alloc),
        code,
    }
}

/// A word of four bytes at this offset.
pub fn word(offset: u32) -> MemArg
    ensures { result ≡ word_at offset }
{
    MemArg { align: 2, offset }
}

/// A memory of one page.
pub fn page() -> Limits
    ensures { result ≡ one_page }
{
    Limits {
        min: 1,
        max: Some(1),
    }
}

/// The custom section `cmajor` with these bytes.
pub fn description(alloc: Global, bytes: Bytes) -> Result<Custom, NoMemory>
    ensures { IfOk result (λ custom. custom ≡ cmajor_custom bytes) }
{
    Ok(Custom {
        name: Name::from_str(alloc, "cmajor")?,
        bytes,
    })
}
