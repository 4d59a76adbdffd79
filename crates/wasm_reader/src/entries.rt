ghost use Rattle.std.specs.Prelude.{◌≡◌};
ghost use Rattle.wasm_reader.specs.Reading.{Gives, index_at, type_at, function_type_at, memory_at, import_at, import_kind_at, export_at, export_kind_at, constant_at, mutable_at, global_at, segment_at};

use crate::cursor::Cursor;
use crate::decode::{Decode, Filling};
use crate::fault::{ReadFail, at};
use crate::name::read_name;
use cm_base::Items;
use std::alloc::Global;
use wasm_tree::{
    ExportEntry, ExportKind, FuncType, GlobalVar, Import, ImportKind, Instr, Limits, ModuleRule,
    Segment, ValType,
};

/// The number of a type, function or label.
impl Decode for u32 {
    ghost reads = { index_at };

    fn read(_alloc: Global, cursor: &mut Cursor<'_>) -> Result<u32, ReadFail> {
        cursor.index()
    }
}

impl Decode for ValType {
    ghost reads = { type_at };

    #[tactic(auto, unfolding(crate::specs::Reading::type_at))]
    fn read(_alloc: Global, cursor: &mut Cursor<'_>) -> Result<ValType, ReadFail> {
        let start = cursor.left();
        let byte = cursor.byte()?;
        match ValType::of_byte(byte) {
            Some(ty) => Ok(ty),
            None => Err(at(ModuleRule::Opcode, start)),
        }
    }
}

impl Decode for FuncType {
    ghost reads = { function_type_at };

    #[tactic(auto, unfolding(crate::specs::Reading::function_type_at))]
    fn read(alloc: Global, cursor: &mut Cursor<'_>) -> Result<FuncType, ReadFail> {
        cursor.fixed(0x60)?;
        let params = Items::<ValType>::fill(alloc, cursor)?;
        let results = Items::<ValType>::fill(alloc, cursor)?;
        Ok(FuncType { params, results })
    }
}

impl Decode for Limits {
    ghost reads = { memory_at };

    #[tactic(auto, unfolding(crate::specs::Reading::memory_at))]
    fn read(_alloc: Global, cursor: &mut Cursor<'_>) -> Result<Limits, ReadFail> {
        let start = cursor.left();
        match cursor.byte()? {
            0x00 => {
                let min = cursor.index()?;
                Ok(Limits { min, max: None })
            }
            0x01 => {
                let min = cursor.index()?;
                let max = Some(cursor.index()?);
                Ok(Limits { min, max })
            }
            _ => Err(at(ModuleRule::Opcode, start)),
        }
    }
}

#[tactic(auto, unfolding(crate::specs::Reading::import_kind_at))]
fn import_kind(alloc: Global, cursor: &mut Cursor<'_>) -> Result<ImportKind, ReadFail>
    ensures { Gives (λ x. (x, cursor.new)) result (import_kind_at cursor.old) }
{
    let start = cursor.left();
    match cursor.byte()? {
        0x00 => Ok(ImportKind::Function(cursor.index()?)),
        0x02 => Ok(ImportKind::Memory(Limits::read(alloc, cursor)?)),
        _ => Err(at(ModuleRule::Opcode, start)),
    }
}

impl Decode for Import {
    ghost reads = { import_at };

    #[tactic(auto, unfolding(crate::specs::Reading::import_at))]
    fn read(alloc: Global, cursor: &mut Cursor<'_>) -> Result<Import, ReadFail> {
        let module = read_name(alloc, cursor)?;
        let name = read_name(alloc, cursor)?;
        let kind = import_kind(alloc, cursor)?;
        Ok(Import { module, name, kind })
    }
}

#[tactic(auto, unfolding(crate::specs::Reading::export_kind_at))]
fn export_kind(cursor: &mut Cursor<'_>) -> Result<ExportKind, ReadFail>
    ensures { Gives (λ x. (x, cursor.new)) result (export_kind_at cursor.old) }
{
    let start = cursor.left();
    match cursor.byte()? {
        0x00 => Ok(ExportKind::Function(cursor.index()?)),
        0x02 => Ok(ExportKind::Memory(cursor.index()?)),
        _ => Err(at(ModuleRule::Opcode, start)),
    }
}

impl Decode for ExportEntry {
    ghost reads = { export_at };

    #[tactic(auto, unfolding(crate::specs::Reading::export_at))]
    fn read(alloc: Global, cursor: &mut Cursor<'_>) -> Result<ExportEntry, ReadFail> {
        let name = read_name(alloc, cursor)?;
        let kind = export_kind(cursor)?;
        Ok(ExportEntry { name, kind })
    }
}

/// Whether a global may be written.
#[tactic(auto, unfolding(crate::specs::Reading::mutable_at))]
fn mutable(cursor: &mut Cursor<'_>) -> Result<bool, ReadFail>
    ensures { Gives (λ x. (x, cursor.new)) result (mutable_at cursor.old) }
{
    let start = cursor.left();
    match cursor.byte()? {
        0x00 => Ok(false),
        0x01 => Ok(true),
        _ => Err(at(ModuleRule::Opcode, start)),
    }
}

/// The constant that is a global's first value.
#[tactic(auto, unfolding(crate::specs::Reading::constant_at))]
fn constant(cursor: &mut Cursor<'_>) -> Result<Instr, ReadFail>
    ensures { Gives (λ x. (x, cursor.new)) result (constant_at cursor.old) }
{
    let start = cursor.left();
    match cursor.byte()? {
        0x41 => Ok(Instr::I32Const(cursor.signed32()?)),
        0x42 => Ok(Instr::I64Const(cursor.signed64()?)),
        _ => Err(at(ModuleRule::Opcode, start)),
    }
}

impl Decode for GlobalVar {
    ghost reads = { global_at };

    #[tactic(auto, unfolding(crate::specs::Reading::global_at))]
    fn read(alloc: Global, cursor: &mut Cursor<'_>) -> Result<GlobalVar, ReadFail> {
        let ty = ValType::read(alloc, cursor)?;
        let mutable = mutable(cursor)?;
        let value = constant(cursor)?;
        cursor.fixed(0x0B)?;
        Ok(GlobalVar { ty, mutable, value })
    }
}

impl Decode for Segment {
    ghost reads = { segment_at };

    #[tactic(auto, unfolding(crate::specs::Reading::segment_at))]
    fn read(alloc: Global, cursor: &mut Cursor<'_>) -> Result<Segment, ReadFail> {
        let memory = cursor.index()?;
        cursor.fixed(0x41)?;
        let offset = cursor.signed32()?;
        cursor.fixed(0x0B)?;
        let bytes = Items::from_slice(alloc, cursor.text()?)?;
        Ok(Segment {
            memory,
            offset,
            bytes,
        })
    }
}
