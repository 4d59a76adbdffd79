ghost use Rattle.std.specs.Prelude.{◌≡◌, ◌+◌, ◌<◌, ◌≤◌, ◌^◌, ◌++◌, ◌∷◌, [], length, OnOk, Option};
ghost use Rattle.wasm_tree.specs.Spelled.{MemoryArgument, Immediates, Joined, Vector, Index, result_byte};
ghost use Rattle.wasm_writer.specs.Size.{capped};
ghost use Rattle.wasm_writer.specs.Spelling.{memory_argument_bytes, table_bytes, immediate_bytes};

use crate::encode::{Encode, put_byte, put_vector, size_of_vector};
use crate::number::{put_narrow, put_signed, put_unsigned, size_of_signed, size_of_unsigned};
use crate::size::add;
use cm_base::NoMemory;
use wasm_tree::{Instr, LabelTable, MemArg, ValType};

fn byte_of_result(result_type: Option<ValType>) -> u8
    ensures { result ≡ result_byte result_type }
{
    match result_type {
        None => 0x40,
        Some(ty) => ty.byte(),
    }
}

#[tactic(auto, using(crate::proofs::Parts::joined))]
fn put_memory_argument(out: &mut Vec<u8>, place: MemArg) -> Result<(), NoMemory>
    ensures appended { OnOk result (out.new.items ≡ out.old.items ++ memory_argument_bytes place) }
    ensures spelled { OnOk result (MemoryArgument place (memory_argument_bytes place)) }
{
    put_unsigned(out, place.align)?;
    put_unsigned(out, place.offset)
}

#[tactic(auto, using(crate::proofs::Sizes::memory_argument_sized))]
fn size_of_memory_argument(place: MemArg) -> u64
    ensures exact { result ≡ length (memory_argument_bytes place) }
    ensures few { result ≤ 10 }
{
    size_of_unsigned(u64::from(place.align)) + size_of_unsigned(u64::from(place.offset))
}

/// Appends the labels of a `br_table`.
#[tactic(auto, using(crate::proofs::Parts::joined, crate::proofs::InstructionLemmas::table_sizes))]
fn put_table(out: &mut Vec<u8>, table: &LabelTable) -> Result<(), NoMemory>
    requires { length (table_bytes table.now) < 2 ^ 32 }
    ensures appended { OnOk result (out.new.items ≡ out.old.items ++ table_bytes table.now) }
    ensures spelled { OnOk result (Joined (Vector Index table.now.labels) (Index table.now.other) (table_bytes table.now)) }
{
    put_vector(out, &table.labels)?;
    put_unsigned(out, table.other)
}

#[tactic(auto, using(crate::proofs::Sizes::table_sized))]
fn size_of_table(table: &LabelTable) -> u64
    ensures { result ≡ capped (length (table_bytes table.now)) }
{
    let other = size_of_unsigned(u64::from(table.other));
    add(size_of_vector(&table.labels), other)
}

/// Appends what stands behind the instruction's opcode.
fn put_immediates(out: &mut Vec<u8>, instr: &Instr) -> Result<(), NoMemory>
    requires { length (immediate_bytes instr.now) < 2 ^ 32 }
    ensures appended { OnOk result (out.new.items ≡ out.old.items ++ immediate_bytes instr.now) }
    ensures spelled { OnOk result (Immediates instr.now (immediate_bytes instr.now)) }
{
    match instr {
        Instr::Block(ty) | Instr::Loop(ty) | Instr::If(ty) => put_byte(out, byte_of_result(*ty)),
        Instr::Br(index)
        | Instr::BrIf(index)
        | Instr::Call(index)
        | Instr::LocalGet(index)
        | Instr::LocalSet(index)
        | Instr::LocalTee(index)
        | Instr::GlobalGet(index)
        | Instr::GlobalSet(index) => put_unsigned(out, *index),
        Instr::BrTable(table) => put_table(out, table.get()),
        Instr::Load(_, place) | Instr::Store(_, place) => put_memory_argument(out, *place),
        Instr::MemorySize => put_byte(out, 0x00),
        Instr::I32Const(value) => put_narrow(out, *value),
        Instr::I64Const(value) => put_signed(out, *value),
        _ => Ok(()),
    }
}

fn size_of_immediates(instr: &Instr) -> u64
    ensures { result ≡ capped (length (immediate_bytes instr.now)) }
{
    match instr {
        Instr::Block(_) | Instr::Loop(_) | Instr::If(_) | Instr::MemorySize => 1,
        Instr::Br(index)
        | Instr::BrIf(index)
        | Instr::Call(index)
        | Instr::LocalGet(index)
        | Instr::LocalSet(index)
        | Instr::LocalTee(index)
        | Instr::GlobalGet(index)
        | Instr::GlobalSet(index) => size_of_unsigned(u64::from(*index)),
        Instr::BrTable(table) => size_of_table(table.get()),
        Instr::Load(_, place) | Instr::Store(_, place) => size_of_memory_argument(*place),
        Instr::I32Const(value) => size_of_signed(i64::from(*value)),
        Instr::I64Const(value) => size_of_signed(*value),
        _ => 0,
    }
}

impl Encode for Instr {
    ghost use Rattle.wasm_tree.specs.Spelled.{Instruction};
    ghost use Rattle.wasm_writer.specs.Spelling.{instruction_bytes};

    ghost shortest = { instruction_bytes };

    ghost spells = { Instruction };

    ghost well_formed = { λ _. Unit {0} };

    #[tactic(auto, using(crate::proofs::Parts::begins))]
    fn encode(&self, out: &mut Vec<u8>) -> Result<(), NoMemory> {
        out.push(self.opcode())?;
        put_immediates(out, self)
    }

    fn size(&self) -> u64 {
        add(1, size_of_immediates(self))
    }
}
