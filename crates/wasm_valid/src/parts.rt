//! The rules on the parts of a module beside its code and its section `cmajor`: each check tells which part breaks its rule.

ghost use Rattle.std.specs.Prelude.{◌≡◌, ◌↔◌, IsTrue, IfErr, OnOk};
ghost use Rattle.std.specs.List.{AllByRecursion};
ghost use Rattle.wasm_tree.specs.Host.{HasImport};
ghost use Rattle.wasm_tree.specs.Numbers.{HasImportedType};
ghost use Rattle.wasm_tree.specs.Valid.{AreImportsIndexed, AreFunctionsIndexed, AreExportsIndexed, AreSegmentsIndexed, HasMemory, HaveFewResults, AreGlobalsTyped, Segment as DoSegmentsFit};
ghost use Rattle.wasm_valid.specs.IsBroken.{IsBroken};
ghost use Rattle.wasm_valid.specs.Parts.{IsExportThere};
ghost use Rattle.wasm_valid.specs.Rules.{HasParts};

use crate::broken::{Broken, Part};
use crate::imports::has_import;
use crate::memory::pages;
use crate::rules::{
    are_below, are_globals_typed, are_segments_indexed, do_segments_fit, have_few_results,
    is_memory,
};
use wasm_tree::{ExportEntry, ExportKind, ImportKind, Limits, Module, ModuleRule};

/// Whether the type of an imported function is there.
fn has_imported_type(module: &Module, kind: ImportKind) -> bool
    ensures { IsTrue result ↔ HasImportedType «module».now kind }
{
    match kind {
        ImportKind::Function(ty) => (ty as usize) < module.types.len(),
        ImportKind::Memory(_) => true,
    }
}

fn are_imports_indexed(module: &Module) -> bool
    ensures { IsTrue result ↔ AreImportsIndexed «module».now }
{
    module
        .imports
        .as_slice()
        .iter()
        .all(|import| has_imported_type(module, import.kind))
}

/// Checks the imports: their types are there, and `emit` of `host` is imported, and nothing else.
fn check_imports(module: &Module) -> Result<(), Broken>
    ensures indexed { OnOk result (AreImportsIndexed «module».now) }
    ensures holds { OnOk result (HasImport «module».now) }
    ensures broken { IfErr result (IsBroken «module».now) }
{
    if !are_imports_indexed(module) {
        return Err(Broken::Rule(ModuleRule::Index, Part::Imports));
    }
    if has_import(module) {
        return Ok(());
    }
    if module.imports.as_slice().is_empty() {
        return Err(Broken::Rule(ModuleRule::Interface, Part::Missing));
    }
    Err(Broken::Rule(ModuleRule::Interface, Part::Imports))
}

/// Checks that the types of functions are there.
fn check_functions(module: &Module) -> Result<(), Broken>
    ensures holds { OnOk result (AreFunctionsIndexed «module».now) }
    ensures broken { IfErr result (IsBroken «module».now) }
{
    if are_below(module.functions.as_slice(), module.types.len()) {
        return Ok(());
    }
    Err(Broken::Rule(ModuleRule::Index, Part::Functions))
}

/// Checks that no function type has more than one result.
fn check_types(module: &Module) -> Result<(), Broken>
    ensures holds { OnOk result (HaveFewResults «module».now) }
    ensures broken { IfErr result (IsBroken «module».now) }
{
    if have_few_results(module.types.as_slice()) {
        return Ok(());
    }
    Err(Broken::Rule(ModuleRule::Typing, Part::Types))
}

/// Whether these are one memory that is within the limits.
fn is_one_memory(memory: &[Limits]) -> bool
    ensures { IsTrue result ↔ HasMemory memory.now }
{
    match memory {
        [limits] => is_memory(*limits),
        _ => false,
    }
}

/// Checks that there is one memory, within the limits.
fn check_memory(module: &Module) -> Result<(), Broken>
    ensures holds { OnOk result (HasMemory «module».now.memory) }
    ensures broken { IfErr result (IsBroken «module».now) }
{
    let memory = module.memory.as_slice();
    if is_one_memory(memory) {
        return Ok(());
    }
    if memory.is_empty() {
        return Err(Broken::Rule(ModuleRule::Limit, Part::Missing));
    }
    Err(Broken::Rule(ModuleRule::Limit, Part::Memories))
}

/// Checks that each global begins with a constant of its type.
fn check_globals(module: &Module) -> Result<(), Broken>
    ensures holds { OnOk result (AreGlobalsTyped «module».now) }
    ensures broken { IfErr result (IsBroken «module».now) }
{
    if are_globals_typed(module.globals.as_slice()) {
        return Ok(());
    }
    Err(Broken::Rule(ModuleRule::Typing, Part::Globals))
}

/// Checks that each segment is of the one memory, and lies in its minimum size.
#[tactic(auto, using(crate::proofs::PartLemmas::segments_are, crate::proofs::PartLemmas::segments_were, crate::proofs::PartLemmas::data_fits, crate::proofs::PartLemmas::data_fitted))]
fn check_segments(module: &Module) -> Result<(), Broken>
    requires import { HasImport «module».now }
    requires memory { HasMemory «module».now.memory }
    ensures indexed { OnOk result (AreSegmentsIndexed «module».now) }
    ensures holds { OnOk result (DoSegmentsFit «module».now) }
    ensures broken { IfErr result (IsBroken «module».now) }
{
    let segments = module.segments.as_slice();
    if !are_segments_indexed(segments) {
        return Err(Broken::Rule(ModuleRule::Index, Part::Segments));
    }
    if !do_segments_fit(segments, pages(module.memory.as_slice())) {
        return Err(Broken::Rule(ModuleRule::Segment, Part::Segments));
    }
    Ok(())
}

/// Whether what is exported is one of so many functions, or the one memory.
fn is_export_there(functions: u64, kind: ExportKind) -> bool
    ensures { IsTrue result ↔ IsExportThere functions kind }
{
    match kind {
        ExportKind::Function(number) => (number as u64) < functions,
        ExportKind::Memory(number) => number < 1,
    }
}

fn are_exports_there(functions: u64, exports: &[ExportEntry]) -> bool
    ensures { IsTrue result ↔ AllByRecursion (λ entry. IsExportThere functions entry.kind) exports.now }
{
    exports
        .iter()
        .all(|entry| is_export_there(functions, entry.kind))
}

/// Checks that what is exported is there.
#[tactic(auto, using(crate::proofs::PartLemmas::exports_are, crate::proofs::PartLemmas::exports_were))]
fn check_exported(module: &Module) -> Result<(), Broken>
    requires import { HasImport «module».now }
    requires memory { HasMemory «module».now.memory }
    ensures holds { OnOk result (AreExportsIndexed «module».now) }
    ensures broken { IfErr result (IsBroken «module».now) }
{
    let functions = module.functions.as_slice().len() as u64 + 1;
    if are_exports_there(functions, module.exports.as_slice()) {
        return Ok(());
    }
    Err(Broken::Rule(ModuleRule::Index, Part::Exports))
}

/// Checks the rules on all parts beside the code and the section `cmajor`.
pub fn check_parts(module: &Module) -> Result<(), Broken>
    ensures holds { OnOk result (HasParts «module».now) }
    ensures broken { IfErr result (IsBroken «module».now) }
{
    check_types(module)?;
    check_imports(module)?;
    check_functions(module)?;
    check_memory(module)?;
    check_globals(module)?;
    check_exported(module)?;
    check_segments(module)
}
