ghost use Rattle.std.specs.Prelude.{◌≡◌, ◌++◌, ℕ, List, Ok, IfOk, IfErr, MatchResult};
ghost use Rattle.wasm_tree.specs.Spelled.{Spelled};
ghost use Rattle.wasm_tree.specs.declared.failure.ModuleFail.TheVariants.{NoMemory as LacksMemory};
ghost use Rattle.wasm_tree.specs.declared.module.Module.{Module as TheModule};
ghost use Rattle.wasm_reader.specs.Fault.{IsCause};
ghost use Rattle.wasm_reader.specs.Reading.{Gives, header_byte_at, header_at, module_at};

use crate::cursor::Cursor;
use crate::fault::{ReadFail, at};
use crate::section::{Found, customs, section};
use cm_base::Items;
use std::alloc::Global;
use wasm_tree::{
    Customs, ExportEntry, FuncBody, FuncType, GlobalVar, HEADER, Import, Limits, Module,
    ModuleFail, ModuleRefused, ModuleRule, Segment,
};

/// Takes this byte, which is the header's.
#[tactic(auto, unfolding(crate::specs::Reading::header_byte_at, crate::specs::Reading::behind_id))]
fn header_byte(due: u8, cursor: &mut Cursor<'_>) -> Result<(), ReadFail>
    ensures { Gives (λ _. cursor.new) result (header_byte_at due cursor.old) }
{
    if cursor.accept(due) {
        return Ok(());
    }
    Err(at(ModuleRule::Header, cursor.left()))
}

/// Takes the header.
fn header(cursor: &mut Cursor<'_>) -> Result<(), ReadFail>
    ensures { Gives (λ _. cursor.new) result (header_at HEADER cursor.old) }
{
    for due in HEADER {
        header_byte(due, cursor)?;
    }
    Ok(())
}

/// The custom sections, those named `cmajor` last.
fn sorted(found: Found) -> Result<Customs, ReadFail>
    ensures { Gives (λ customs. customs) result (Ok (found.others ++ found.named)) }
{
    let Found { others, named } = found;
    let mut customs = others;
    customs.append(named)?;
    Ok(customs)
}

#[tactic(auto, unfolding(crate::specs::Reading::module_at, crate::specs::Reading::sections_at, crate::specs::Reading::section_then, crate::specs::Reading::last_at))]
fn module(alloc: Global, bytes: &[u8]) -> Result<Module, ReadFail>
    ensures { Gives (λ m. m) result (module_at bytes.now) }
{
    let mut cursor = Cursor::new(bytes);
    header(&mut cursor)?;
    let mut found = Found {
        others: Items::new(alloc),
        named: Items::new(alloc),
    };
    let types = section::<FuncType>(alloc, &mut found, &mut cursor)?;
    let imports = section::<Import>(alloc, &mut found, &mut cursor)?;
    let functions = section::<u32>(alloc, &mut found, &mut cursor)?;
    let memory = section::<Limits>(alloc, &mut found, &mut cursor)?;
    let globals = section::<GlobalVar>(alloc, &mut found, &mut cursor)?;
    let exports = section::<ExportEntry>(alloc, &mut found, &mut cursor)?;
    let codes = section::<FuncBody>(alloc, &mut found, &mut cursor)?;
    let segments = section::<Segment>(alloc, &mut found, &mut cursor)?;
    customs(alloc, &mut found, &mut cursor)?;
    if cursor.left() > 0 {
        return Err(at(ModuleRule::Section, cursor.left()));
    }
    if functions.len() != codes.len() {
        return Err(at(ModuleRule::Size, 0));
    }
    let customs = sorted(found)?;
    Ok(Module {
        types,
        imports,
        functions,
        memory,
        globals,
        exports,
        codes,
        segments,
        customs,
    })
}

/// The module that the bytes spell (Core Specification 1.0, chapter 5, in the subset of docs/MODULE.md), or
/// the first rule that fails, and the byte at which it does. No list is reserved by a count that the bytes state:
/// each element takes a byte at least, and lists grow by doubling, so that memory is bound by the bytes. Code takes
/// 16 bytes for an instruction, at most 32 for a byte of it once its list has grown.
pub fn read_module(alloc: Global, bytes: &[u8]) -> Result<Module, ModuleFail>
    // What is read is spelled by the bytes, all of them.
    ensures found { IfOk result (λ m. Spelled bytes.now m) }
    // What is spelled is read, unless memory runs out.
    ensures only { (m : TheModule) → Spelled bytes.now m → MatchResult result (λ read. read ≡ m) (λ e. e ≡ LacksMemory) }
    // The parts before the offset are spelled, one after another, and the rule fails there.
    ensures refused { IfErr result (λ fail. IsCause fail bytes.now) }
{
    match module(alloc, bytes) {
        Ok(module) => Ok(module),
        Err(ReadFail::NoMemory) => Err(ModuleFail::NoMemory),
        Err(ReadFail::Fault(fault)) => Err(ModuleFail::Refused(ModuleRefused {
            offset: bytes.len().saturating_sub(fault.left) as u64,
            rule: fault.rule,
        })),
    }
}

/// Bytes spell at most one module.
pub fn spelled_once()
    ensures { (bytes : List ℕ) (m n : TheModule) → Spelled bytes m → Spelled bytes n → m ≡ n }
{}
