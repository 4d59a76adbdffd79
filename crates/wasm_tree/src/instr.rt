ghost use Rattle.std.specs.Prelude.{◌≡◌};
ghost use Rattle.wasm_tree.specs.Opcode.{opcode_of};

use crate::module::ValType;
use crate::op::{BinaryOp, CompareOp, ConvertOp, LoadOp, StoreOp, UnaryOp};
use cm_base::{Boxed, Items};

/// The result of a block, loop or `if`, where it has one.
pub type BlockType = Option<ValType>;

/// Where a load or store goes: the alignment, as a power of two, is a hint, and the offset is added to the
/// address on the stack.
#[derive(Clone, Copy, Debug, PartialEq, Eq)]
pub struct MemArg {
    pub align: u32,
    pub offset: u32,
}

/// The labels of a `br_table` by number, and the one for every number past them.
#[derive(Debug, Drop)]
pub struct LabelTable {
    pub labels: Items<u32>,
    pub other: u32,
}

/// An instruction as it stands in a function's code (Core Specification 1.0, 5.4). Code is flat: `Block`,
/// `Loop` and `If` open a sequence, `Else` ends the first arm of an `If`, and `End` ends the innermost open
/// sequence, the last one the function's body. It takes 16 bytes, so a `br_table` has its labels in a box.
#[derive(Debug, Drop)]
pub enum Instr {
    Unreachable,
    Nop,
    Block(Option<ValType>),
    Loop(Option<ValType>),
    If(Option<ValType>),
    Else,
    End,
    Br(u32),
    BrIf(u32),
    BrTable(Boxed<LabelTable>),
    Return,
    Call(u32),
    Drop,
    Select,
    LocalGet(u32),
    LocalSet(u32),
    LocalTee(u32),
    GlobalGet(u32),
    GlobalSet(u32),
    Load(LoadOp, MemArg),
    Store(StoreOp, MemArg),
    MemorySize,
    I32Const(i32),
    I64Const(i64),
    /// Whether the number is 0.
    Test(ValType),
    Compare(ValType, CompareOp),
    Unary(ValType, UnaryOp),
    Binary(ValType, BinaryOp),
    Convert(ConvertOp),
}

/// The instructions of a function, in order, its last `End` among them.
pub type Code = Items<Instr>;

impl Instr {
    /// The byte with which the instruction begins (Core Specification 1.0, 5.4).
    pub fn opcode(&self) -> u8
        ensures { result ≡ opcode_of self.now }
    {
        match self {
            Instr::Unreachable => 0x00,
            Instr::Nop => 0x01,
            Instr::Block(_) => 0x02,
            Instr::Loop(_) => 0x03,
            Instr::If(_) => 0x04,
            Instr::Else => 0x05,
            Instr::End => 0x0B,
            Instr::Br(_) => 0x0C,
            Instr::BrIf(_) => 0x0D,
            Instr::BrTable(_) => 0x0E,
            Instr::Return => 0x0F,
            Instr::Call(_) => 0x10,
            Instr::Drop => 0x1A,
            Instr::Select => 0x1B,
            Instr::LocalGet(_) => 0x20,
            Instr::LocalSet(_) => 0x21,
            Instr::LocalTee(_) => 0x22,
            Instr::GlobalGet(_) => 0x23,
            Instr::GlobalSet(_) => 0x24,
            Instr::Load(op, _) => op.opcode(),
            Instr::Store(op, _) => op.opcode(),
            Instr::MemorySize => 0x3F,
            Instr::I32Const(_) => 0x41,
            Instr::I64Const(_) => 0x42,
            Instr::Test(ValType::I32) => 0x45,
            Instr::Test(ValType::I64) => 0x50,
            Instr::Compare(ty, op) => op.opcode(*ty),
            Instr::Unary(ty, op) => op.opcode(*ty),
            Instr::Binary(ty, op) => op.opcode(*ty),
            Instr::Convert(op) => op.opcode(),
        }
    }
}

const _: () = prove!(size_of::<Instr>() == 16);
