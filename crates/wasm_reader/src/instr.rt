ghost use Rattle.std.specs.Prelude.{◌≡◌, ◌≤◌, ◌<◌};
ghost use Rattle.wasm_tree.specs.Opcode.{opcode_of};
ghost use Rattle.wasm_tree.specs.declared.instr.Instr.{Instr as TheInstr};
ghost use Rattle.wasm_reader.specs.Samples.{IsAlone};
ghost use Rattle.wasm_reader.specs.Reading.{Gives, block_type_at, place_at, labels_at, behind_at, instruction_at};

use crate::cursor::Cursor;
use crate::decode::Filling;
use crate::fault::{ReadFail, at};
use crate::opcode::{alone, load, store};
use cm_base::{Boxed, Items};
use std::alloc::Global;
use wasm_tree::{Instr, LabelTable, MemArg, ModuleRule, ValType};

/// The result of a sequence, if it has one.
#[tactic(auto, unfolding(crate::specs::Reading::block_type_at, crate::specs::Reading::type_at, crate::specs::Reading::byte_at))]
fn block_type(cursor: &mut Cursor<'_>) -> Result<Option<ValType>, ReadFail>
    ensures { Gives (λ x. (x, cursor.new)) result (block_type_at cursor.old) }
{
    let start = cursor.left();
    let byte = cursor.byte()?;
    if byte == 0x40 {
        return Ok(None);
    }
    match ValType::of_byte(byte) {
        Some(ty) => Ok(Some(ty)),
        None => Err(at(ModuleRule::Opcode, start)),
    }
}

/// An alignment and an offset.
#[tactic(auto, unfolding(crate::specs::Reading::place_at))]
fn place(cursor: &mut Cursor<'_>) -> Result<MemArg, ReadFail>
    ensures { Gives (λ x. (x, cursor.new)) result (place_at cursor.old) }
{
    let align = cursor.index()?;
    let offset = cursor.index()?;
    Ok(MemArg { align, offset })
}

/// The labels of a branch by a table.
#[tactic(auto, unfolding(crate::specs::Reading::labels_at))]
fn labels(alloc: Global, cursor: &mut Cursor<'_>) -> Result<LabelTable, ReadFail>
    ensures { Gives (λ x. (x, cursor.new)) result (labels_at cursor.old) }
{
    let labels = Items::<u32>::fill(alloc, cursor)?;
    let other = cursor.index()?;
    Ok(LabelTable { labels, other })
}

/// The rest of an instruction of control, or with the number of a variable, whose opcode stands where `start`
/// bytes are left (Core Specification 1.0, 5.4.1 and 5.4.3).
#[tactic(auto, unfolding(crate::specs::Reading::behind_at, crate::specs::Samples::sample_of, crate::specs::Samples::samples))]
fn control(
    alloc: Global,
    start: usize,
    opcode: u8,
    cursor: &mut Cursor<'_>,
) -> Result<Instr, ReadFail>
    requires low { opcode < 0x28 }
    requires other { (i : TheInstr) → IsAlone i → opcode_of i ≡ opcode → ⊥ }
    ensures { Gives (λ x. (x, cursor.new)) result (behind_at start opcode cursor.old) }
{
    match opcode {
        0x02 => Ok(Instr::Block(block_type(cursor)?)),
        0x03 => Ok(Instr::Loop(block_type(cursor)?)),
        0x04 => Ok(Instr::If(block_type(cursor)?)),
        0x0C => Ok(Instr::Br(cursor.index()?)),
        0x0D => Ok(Instr::BrIf(cursor.index()?)),
        0x0E => Ok(Instr::BrTable(Boxed::new(alloc, labels(alloc, cursor)?)?)),
        0x10 => Ok(Instr::Call(cursor.index()?)),
        0x20 => Ok(Instr::LocalGet(cursor.index()?)),
        0x21 => Ok(Instr::LocalSet(cursor.index()?)),
        0x22 => Ok(Instr::LocalTee(cursor.index()?)),
        0x23 => Ok(Instr::GlobalGet(cursor.index()?)),
        0x24 => Ok(Instr::GlobalSet(cursor.index()?)),
        _ => Err(at(ModuleRule::Opcode, start)),
    }
}

/// The rest of an instruction of memory, or of a constant.
#[tactic(auto, unfolding(crate::specs::Reading::behind_at, crate::specs::Samples::sample_of, crate::specs::Samples::samples))]
fn memory(start: usize, opcode: u8, cursor: &mut Cursor<'_>) -> Result<Instr, ReadFail>
    requires high { 0x28 ≤ opcode }
    requires other { (i : TheInstr) → IsAlone i → opcode_of i ≡ opcode → ⊥ }
    ensures { Gives (λ x. (x, cursor.new)) result (behind_at start opcode cursor.old) }
{
    if let Some(op) = load(opcode) {
        return Ok(Instr::Load(op, place(cursor)?));
    }
    if let Some(op) = store(opcode) {
        return Ok(Instr::Store(op, place(cursor)?));
    }
    match opcode {
        0x3F => {
            cursor.fixed(0x00)?;
            Ok(Instr::MemorySize)
        }
        0x41 => Ok(Instr::I32Const(cursor.signed32()?)),
        0x42 => Ok(Instr::I64Const(cursor.signed64()?)),
        _ => Err(at(ModuleRule::Opcode, start)),
    }
}

/// An instruction.
#[tactic(auto, unfolding(crate::specs::Reading::instruction_at))]
pub fn instr(alloc: Global, cursor: &mut Cursor<'_>) -> Result<Instr, ReadFail>
    ensures { Gives (λ x. (x, cursor.new)) result (instruction_at cursor.old) }
{
    let start = cursor.left();
    let opcode = cursor.byte()?;
    if let Some(instr) = alone(opcode) {
        return Ok(instr);
    }
    if opcode < 0x28 {
        control(alloc, start, opcode, cursor)
    } else {
        memory(start, opcode, cursor)
    }
}
