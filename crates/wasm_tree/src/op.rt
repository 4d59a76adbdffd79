ghost use Rattle.std.specs.Prelude.{◌≡◌, ◌<◌};
ghost use Rattle.wasm_tree.specs.Opcode.{load_opcode, load_place, store_opcode, store_place, compare_opcode, compare_place, unary_opcode, unary_place, binary_opcode, binary_place, convert_opcode};

use crate::module::ValType;

/// The instructions that load (Core Specification 1.0, 2.4.4): the type of the value, and for a narrow load
/// the bits in memory and whether their sign is kept.
#[derive(Clone, Copy, Debug, PartialEq, Eq)]
pub enum LoadOp {
    I32,
    I64,
    I32Signed8,
    I32Unsigned8,
    I32Signed16,
    I32Unsigned16,
    I64Signed8,
    I64Unsigned8,
    I64Signed16,
    I64Unsigned16,
    I64Signed32,
    I64Unsigned32,
}

/// The instructions that store: the type of the value, and for a narrow store how many of its low bits.
#[derive(Clone, Copy, Debug, PartialEq, Eq)]
pub enum StoreOp {
    I32,
    I64,
    I32Low8,
    I32Low16,
    I64Low8,
    I64Low16,
    I64Low32,
}

/// Comparisons of two numbers of one type (2.4.1), each giving 1 or 0.
#[derive(Clone, Copy, Debug, PartialEq, Eq)]
pub enum CompareOp {
    Equal,
    NotEqual,
    LessSigned,
    LessUnsigned,
    GreaterSigned,
    GreaterUnsigned,
    LessEqualSigned,
    LessEqualUnsigned,
    GreaterEqualSigned,
    GreaterEqualUnsigned,
}

/// Operators of one number.
#[derive(Clone, Copy, Debug, PartialEq, Eq)]
pub enum UnaryOp {
    LeadingZeros,
    TrailingZeros,
    PopulationCount,
}

/// Operators of two numbers of one type.
#[derive(Clone, Copy, Debug, PartialEq, Eq)]
pub enum BinaryOp {
    Add,
    Sub,
    Mul,
    DivSigned,
    DivUnsigned,
    RemSigned,
    RemUnsigned,
    And,
    Or,
    Xor,
    ShiftLeft,
    ShiftRightSigned,
    ShiftRightUnsigned,
    RotateLeft,
    RotateRight,
}

/// Conversions between the two types of numbers.
#[derive(Clone, Copy, Debug, PartialEq, Eq)]
pub enum ConvertOp {
    WrapI64,
    ExtendI32Signed,
    ExtendI32Unsigned,
}

/// The loads in the order of their opcodes.
const LOADS: [LoadOp; 12] = [
    LoadOp::I32,
    LoadOp::I64,
    LoadOp::I32Signed8,
    LoadOp::I32Unsigned8,
    LoadOp::I32Signed16,
    LoadOp::I32Unsigned16,
    LoadOp::I64Signed8,
    LoadOp::I64Unsigned8,
    LoadOp::I64Signed16,
    LoadOp::I64Unsigned16,
    LoadOp::I64Signed32,
    LoadOp::I64Unsigned32,
];

impl LoadOp {
    /// The opcode (Core Specification 1.0, 5.4.3).
    pub fn opcode(self) -> u8
        ensures { result ≡ load_opcode self }
    {
        let place = self as u8;
        if place < 2 {
            0x28 + place
        } else {
            0x2A + place
        }
    }

    /// The load at this place among them, in the order of their opcodes.
    pub fn at(place: u8) -> LoadOp
        requires { place < 12 }
        ensures { load_place result ≡ place }
    {
        LOADS[place as usize]
    }
}

/// The stores in the order of their opcodes.
const STORES: [StoreOp; 7] = [
    StoreOp::I32,
    StoreOp::I64,
    StoreOp::I32Low8,
    StoreOp::I32Low16,
    StoreOp::I64Low8,
    StoreOp::I64Low16,
    StoreOp::I64Low32,
];

impl StoreOp {
    /// The opcode (Core Specification 1.0, 5.4.3).
    pub fn opcode(self) -> u8
        ensures { result ≡ store_opcode self }
    {
        let place = self as u8;
        if place < 2 {
            0x36 + place
        } else {
            0x38 + place
        }
    }

    /// The store at this place among them, in the order of their opcodes.
    pub fn at(place: u8) -> StoreOp
        requires { place < 7 }
        ensures { store_place result ≡ place }
    {
        STORES[place as usize]
    }
}

/// The comparisons in the order of their opcodes.
const COMPARISONS: [CompareOp; 10] = [
    CompareOp::Equal,
    CompareOp::NotEqual,
    CompareOp::LessSigned,
    CompareOp::LessUnsigned,
    CompareOp::GreaterSigned,
    CompareOp::GreaterUnsigned,
    CompareOp::LessEqualSigned,
    CompareOp::LessEqualUnsigned,
    CompareOp::GreaterEqualSigned,
    CompareOp::GreaterEqualUnsigned,
];

impl CompareOp {
    /// The opcode at a type (Core Specification 1.0, 5.4.5).
    pub fn opcode(self, ty: ValType) -> u8
        ensures { result ≡ compare_opcode ty self }
    {
        match ty {
            ValType::I32 => 0x46 + self as u8,
            ValType::I64 => 0x51 + self as u8,
        }
    }

    /// The comparison at this place among them, in the order of their opcodes.
    pub fn at(place: u8) -> CompareOp
        requires { place < 10 }
        ensures { compare_place result ≡ place }
    {
        COMPARISONS[place as usize]
    }
}

/// The operators of one number in the order of their opcodes.
const UNARY: [UnaryOp; 3] = [
    UnaryOp::LeadingZeros,
    UnaryOp::TrailingZeros,
    UnaryOp::PopulationCount,
];

impl UnaryOp {
    /// The opcode at a type (Core Specification 1.0, 5.4.5).
    pub fn opcode(self, ty: ValType) -> u8
        ensures { result ≡ unary_opcode ty self }
    {
        match ty {
            ValType::I32 => 0x67 + self as u8,
            ValType::I64 => 0x79 + self as u8,
        }
    }

    /// The operator of one number at this place among them, in the order of their opcodes.
    pub fn at(place: u8) -> UnaryOp
        requires { place < 3 }
        ensures { unary_place result ≡ place }
    {
        UNARY[place as usize]
    }
}

/// The operators of two numbers in the order of their opcodes.
const BINARY: [BinaryOp; 15] = [
    BinaryOp::Add,
    BinaryOp::Sub,
    BinaryOp::Mul,
    BinaryOp::DivSigned,
    BinaryOp::DivUnsigned,
    BinaryOp::RemSigned,
    BinaryOp::RemUnsigned,
    BinaryOp::And,
    BinaryOp::Or,
    BinaryOp::Xor,
    BinaryOp::ShiftLeft,
    BinaryOp::ShiftRightSigned,
    BinaryOp::ShiftRightUnsigned,
    BinaryOp::RotateLeft,
    BinaryOp::RotateRight,
];

impl BinaryOp {
    /// The opcode at a type (Core Specification 1.0, 5.4.5).
    pub fn opcode(self, ty: ValType) -> u8
        ensures { result ≡ binary_opcode ty self }
    {
        match ty {
            ValType::I32 => 0x6A + self as u8,
            ValType::I64 => 0x7C + self as u8,
        }
    }

    /// The operator of two numbers at this place among them, in the order of their opcodes.
    pub fn at(place: u8) -> BinaryOp
        requires { place < 15 }
        ensures { binary_place result ≡ place }
    {
        BINARY[place as usize]
    }
}

impl ConvertOp {
    /// The opcode (Core Specification 1.0, 5.4.5).
    pub fn opcode(self) -> u8
        ensures { result ≡ convert_opcode self }
    {
        match self {
            ConvertOp::WrapI64 => 0xA7,
            ConvertOp::ExtendI32Signed => 0xAC,
            ConvertOp::ExtendI32Unsigned => 0xAD,
        }
    }
}
