//! The rule on exports: the memory and the functions by which a host calls the module, and nothing else.

ghost use Rattle.std.specs.Prelude.{ℕ, List, codes, ◌≡◌, ◌↔◌, ◌+◌, ◌++◌, ◌∷◌, [], length, slice_get, Contains, IfOk, IfErr, IfSome, IsTrue, OnOk, Some, None};
ghost use Rattle.wasm_tree.specs.declared.module.Module.{Module as TheModule};
ghost use Rattle.wasm_tree.specs.declared.module.FuncType.{FuncType as TheType};
ghost use Rattle.wasm_tree.specs.Host.{HasImport, HasExports, event_inputs, event_exports, frame_export, exported_functions};
ghost use Rattle.wasm_tree.specs.Numbers.{no_type, function_types};
ghost use Rattle.wasm_tree.specs.Refusal.{Exports};
ghost use Rattle.wasm_tree.specs.Section.{CmajorSection, IsSection, ends_of};
ghost use Rattle.wasm_tree.specs.Valid.{AreFunctionsIndexed};
ghost use Rattle.section_reader.specs.Raw.{said};
ghost use Rattle.wasm_valid.specs.Exported.{type_of, entry_names, TellsFunction, TellsFunctions, TellsMemory, TellsExports};
ghost use Rattle.wasm_valid.specs.IsBroken.{IsBroken};
ghost use Rattle.wasm_valid.specs.declared.exports.Found.TheVariants.{Same};
ghost use Rattle.cm_base.specs.HostEnds.{AreDistinct};
ghost use Rattle.wasm_valid.specs.Texts.{texts};

use crate::broken::{Broken, Part};
use crate::imports::is_emit_type;
use crate::names::Names;
use crate::scope::function_type;
use cm_base::{Flow, HostEnd, Kind, NoMemory};
use section_reader::Section;
use std::alloc::Global;
use wasm_tree::{ExportEntry, ExportKind, FuncType, Interface, Module, ModuleRule};

/// What a function that a host calls takes. It gives nothing.
#[derive(Clone, Copy, Debug, PartialEq, Eq)]
pub enum Takes {
    Nothing,
    Int32,
}

/// How far what is wanted is exported.
#[derive(Clone, Copy, Debug, PartialEq, Eq)]
pub enum Found {
    /// Just so.
    Same,
    /// Something else stands there.
    Other,
    /// Nothing has the name.
    Missing,
}

impl Found {
    /// What is told of some functions and one more.
    #[tactic(auto, using(crate::proofs::ExportLemmas::missing_stays))]
    fn with_one(self, one: Found) -> Found
        ensures { (m : TheModule) (ws : List (List ℕ × TheType)) (w : List ℕ × TheType) → TellsFunctions m ws self → TellsFunction m w one → TellsFunctions m (ws ++ w ∷ []) result }
    {
        match self {
            Found::Missing => Found::Missing,
            Found::Other => match one {
                Found::Missing => Found::Missing,
                Found::Other => Found::Other,
                Found::Same => Found::Other,
            },
            Found::Same => one,
        }
    }
}

/// The names of exports, in order.
fn names_of(alloc: Global, exports: &[ExportEntry]) -> Result<Vec<&str>, NoMemory>
    ensures { IfOk result (λ names. texts names.items ≡ entry_names exports.now) }
{
    let mut names = Vec::with_capacity(alloc, exports.len())?;
    for entry in exports {
        names.push(entry.name.as_str())?;
    }
    Ok(names)
}

/// What is exported under the name.
#[tactic(auto, using(crate::proofs::ExportLemmas::entry_within, crate::proofs::ExportLemmas::entry_there))]
fn kind_of(exports: &[ExportEntry], names: &Names<'_>, name: &str) -> Option<ExportKind>
    requires { names.now ≡ entry_names exports.now }
    ensures found { IfSome result (λ kind. Contains exports.now (record { name = name.now; kind = kind })) }
    ensures absent { result ≡ None → ¬ Contains (entry_names exports.now) name.now }
{
    match names.place(name) {
        Some(at) => Some(exports[at].kind),
        None => None,
    }
}

/// Whether the type takes nothing and gives nothing.
fn is_no_type(ty: &FuncType) -> bool
    ensures { IsTrue result ↔ (ty.now ≡ no_type) }
{
    match (ty.params.as_slice(), ty.results.as_slice()) {
        ([], []) => true,
        _ => false,
    }
}

/// Whether the function of this number takes this and gives nothing.
fn has_type(module: &Module, function: u32, takes: Takes) -> bool
    requires import { HasImport «module».now }
    requires indexed { AreFunctionsIndexed «module».now }
    ensures { IsTrue result ↔ (slice_get (function_types «module».now) function ≡ Some (type_of takes)) }
{
    match function_type(module, function) {
        None => false,
        Some(ty) => match takes {
            Takes::Nothing => is_no_type(ty),
            Takes::Int32 => is_emit_type(ty),
        },
    }
}

/// How far a function that takes this is exported under the name.
#[tactic(auto, using(crate::proofs::ExportLemmas::function_is))]
fn find_function(module: &Module, names: &Names<'_>, name: &str, takes: Takes) -> Found
    requires import { HasImport «module».now }
    requires indexed { AreFunctionsIndexed «module».now }
    requires listed { names.now ≡ entry_names «module».now.exports }
    ensures { TellsFunction «module».now (name.now, type_of takes) result }
{
    match kind_of(module.exports.as_slice(), names, name) {
        None => Found::Missing,
        Some(ExportKind::Memory(_)) => Found::Other,
        Some(ExportKind::Function(number)) => {
            if has_type(module, number, takes) {
                Found::Same
            } else {
                Found::Other
            }
        }
    }
}

/// How far the memory is exported.
fn find_memory(module: &Module, names: &Names<'_>) -> Found
    requires listed { names.now ≡ entry_names «module».now.exports }
    ensures { TellsMemory «module».now result }
{
    match kind_of(module.exports.as_slice(), names, "memory") {
        None => Found::Missing,
        Some(ExportKind::Memory(number)) => {
            if number == 0 {
                Found::Same
            } else {
                Found::Other
            }
        }
        Some(ExportKind::Function(_)) => Found::Other,
    }
}

/// How many events the host can send.
fn count_event_inputs(host: &[HostEnd]) -> usize
    ensures { result ≡ event_inputs host.now }
{
    host.iter()
        .filter(|end| end.flow == Flow::Input && end.kind == Kind::Event)
        .count()
}

/// How far the functions of so many event inputs are exported, with what is told of others before.
fn find_events(
    alloc: Global,
    module: &Module,
    names: &Names<'_>,
    count: usize,
    before: Found,
) -> Result<Found, NoMemory>
    requires import { HasImport «module».now }
    requires indexed { AreFunctionsIndexed «module».now }
    requires listed { names.now ≡ entry_names «module».now.exports }
    ensures { IfOk result (λ found. (ws : List (List ℕ × TheType)) → TellsFunctions «module».now ws before → TellsFunctions «module».now (ws ++ event_exports 0 count) found) }
{
    let mut found = before;
    for number in 0..count {
        let name = format!(in alloc; "e{number}")?;
        let one = find_function(module, names, name.as_str(), Takes::Nothing);
        found = found.with_one(one);
    }
    Ok(found)
}

/// How far `frame` or `frames` is exported.
fn find_frame(module: &Module, names: &Names<'_>, interface: Interface) -> Found
    requires import { HasImport «module».now }
    requires indexed { AreFunctionsIndexed «module».now }
    requires listed { names.now ≡ entry_names «module».now.exports }
    ensures { TellsFunction «module».now (frame_export interface) result }
{
    match interface {
        Interface::Single => find_function(module, names, "frame", Takes::Nothing),
        Interface::Blocks(_) => find_function(module, names, "frames", Takes::Int32),
    }
}

/// How far the functions are exported by which a host calls a module with this section.
fn find_functions(
    alloc: Global,
    module: &Module,
    names: &Names<'_>,
    interface: Interface,
    events: usize,
) -> Result<Found, NoMemory>
    requires import { HasImport «module».now }
    requires indexed { AreFunctionsIndexed «module».now }
    requires listed { names.now ≡ entry_names «module».now.exports }
    ensures { IfOk result (TellsFunctions «module».now ((codes "init", no_type) ∷ frame_export interface ∷ event_exports 0 events)) }
{
    let init = find_function(module, names, "init", Takes::Nothing);
    let frame = find_frame(module, names, interface);
    find_events(alloc, module, names, events, init.with_one(frame))
}

/// Whether the memory and the functions are exported, and so many exports with distinct names are all.
fn are_all(
    exports: &[ExportEntry],
    names: &Names<'_>,
    events: usize,
    memory: Found,
    functions: Found,
) -> bool
    requires listed { names.now ≡ entry_names exports.now }
    ensures { IsTrue result ↔ ((memory ≡ Same) × (functions ≡ Same) × AreDistinct (entry_names exports.now) × (length exports.now ≡ events + 3)) }
{
    memory == Found::Same
        && functions == Found::Same
        && names.are_distinct()
        && exports.len() >= 3
        && exports.len() - 3 == events
}

/// How far the module exports what a host asks for, from what is told of the memory and of the functions.
fn joined(
    exports: &[ExportEntry],
    names: &Names<'_>,
    events: usize,
    memory: Found,
    functions: Found,
) -> Found
    requires listed { names.now ≡ entry_names exports.now }
    ensures { (m : TheModule) (section : CmajorSection) → m.exports ≡ exports.now → events ≡ event_inputs (ends_of section) → TellsMemory m memory → TellsFunctions m (exported_functions section) functions → TellsExports m section result }
{
    if memory == Found::Missing {
        return Found::Missing;
    }
    if functions == Found::Missing {
        return Found::Missing;
    }
    if are_all(exports, names, events, memory, functions) {
        return Found::Same;
    }
    Found::Other
}

/// How far the module exports what this section asks for, and nothing else.
#[tactic(auto, using(crate::proofs::SlotLemmas::ends_are))]
fn find_exports(alloc: Global, module: &Module, section: &Section) -> Result<Found, NoMemory>
    requires import { HasImport «module».now }
    requires indexed { AreFunctionsIndexed «module».now }
    requires paired { length section.now.host ≡ length section.now.addresses }
    ensures { IfOk result (TellsExports «module».now (said section.now)) }
{
    let exports = module.exports.as_slice();
    let names = Names::new(alloc, names_of(alloc, exports)?)?;
    let events = count_event_inputs(section.host.as_slice());
    let memory = find_memory(module, &names);
    let functions = find_functions(alloc, module, &names, section.interface, events)?;
    Ok(joined(exports, &names, events, memory, functions))
}

/// Checks that the module exports the memory and the functions that its section asks for, and nothing else.
pub fn check_exports(alloc: Global, module: &Module, section: &Section) -> Result<(), Broken>
    requires import { HasImport «module».now }
    requires indexed { AreFunctionsIndexed «module».now }
    requires paired { length section.now.host ≡ length section.now.addresses }
    requires described { IsSection «module».now (said section.now) }
    ensures holds { OnOk result (HasExports «module».now (said section.now)) }
    ensures broken { IfErr result (IsBroken «module».now) }
{
    match find_exports(alloc, module, section)? {
        Found::Same => Ok(()),
        Found::Other => Err(Broken::Rule(ModuleRule::Interface, Part::Exports)),
        Found::Missing => Err(Broken::Rule(ModuleRule::Interface, Part::Missing)),
    }
}
