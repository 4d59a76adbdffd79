ghost use Rattle.std.specs.Prelude.{◌≡◌, IfSome, IfNone};
ghost use Rattle.wasm_tree.specs.Opcode.{opcode_of, load_opcode, store_opcode};
ghost use Rattle.wasm_tree.specs.declared.instr.Instr.{Instr as TheInstr};
ghost use Rattle.wasm_tree.specs.declared.op.LoadOp.{LoadOp as TheLoad};
ghost use Rattle.wasm_tree.specs.declared.op.StoreOp.{StoreOp as TheStore};
ghost use Rattle.wasm_reader.specs.Samples.{IsAlone};

use wasm_tree::{BinaryOp, CompareOp, ConvertOp, Instr, LoadOp, StoreOp, UnaryOp, ValType};

/// The instruction that is this opcode alone (Core Specification 1.0, 5.4), if there is one.
pub fn alone(opcode: u8) -> Option<Instr>
    ensures some { IfSome result (λ i. (opcode_of i ≡ opcode) × IsAlone i) }
    ensures none { IfNone result ((i : TheInstr) → IsAlone i → opcode_of i ≡ opcode → ⊥) }
{
    Some(match opcode {
        0x00 => Instr::Unreachable,
        0x01 => Instr::Nop,
        0x05 => Instr::Else,
        0x0B => Instr::End,
        0x0F => Instr::Return,
        0x1A => Instr::Drop,
        0x1B => Instr::Select,
        0x45 => Instr::Test(ValType::I32),
        0x46..=0x4F => Instr::Compare(ValType::I32, CompareOp::at(opcode - 0x46)),
        0x50 => Instr::Test(ValType::I64),
        0x51..=0x5A => Instr::Compare(ValType::I64, CompareOp::at(opcode - 0x51)),
        0x67..=0x69 => Instr::Unary(ValType::I32, UnaryOp::at(opcode - 0x67)),
        0x6A..=0x78 => Instr::Binary(ValType::I32, BinaryOp::at(opcode - 0x6A)),
        0x79..=0x7B => Instr::Unary(ValType::I64, UnaryOp::at(opcode - 0x79)),
        0x7C..=0x8A => Instr::Binary(ValType::I64, BinaryOp::at(opcode - 0x7C)),
        0xA7 => Instr::Convert(ConvertOp::WrapI64),
        0xAC => Instr::Convert(ConvertOp::ExtendI32Signed),
        0xAD => Instr::Convert(ConvertOp::ExtendI32Unsigned),
        _ => return None,
    })
}

/// The load with this opcode, if there is one. Those of floats stand between those of whole and narrow integers.
pub fn load(opcode: u8) -> Option<LoadOp>
    ensures some { IfSome result (λ op. load_opcode op ≡ opcode) }
    ensures none { IfNone result ((op : TheLoad) → load_opcode op ≡ opcode → ⊥) }
{
    match opcode {
        0x28..=0x29 => Some(LoadOp::at(opcode - 0x28)),
        0x2C..=0x35 => Some(LoadOp::at(opcode - 0x2A)),
        _ => None,
    }
}

/// And so for the stores.
pub fn store(opcode: u8) -> Option<StoreOp>
    ensures some { IfSome result (λ op. store_opcode op ≡ opcode) }
    ensures none { IfNone result ((op : TheStore) → store_opcode op ≡ opcode → ⊥) }
{
    match opcode {
        0x36..=0x37 => Some(StoreOp::at(opcode - 0x36)),
        0x3A..=0x3E => Some(StoreOp::at(opcode - 0x38)),
        _ => None,
    }
}
