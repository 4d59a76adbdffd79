// What operators compute on cells: `Meaning` of wasm_tree. A cell has 64 bits, and a value of 32 bits is the cell's number.

ghost use Rattle.std.specs.Prelude.{◌≡◌, IfSome};
ghost use Rattle.std.specs.Int.{w32, w64};
ghost use Rattle.wasm_tree.specs.declared.op.BinaryOp.TheVariants as binary;
ghost use Rattle.wasm_tree.specs.Meaning.{width, test_of, compares, compare_of, unary_of, binary_of, convert_of};
ghost use Rattle.wasm_tree.specs.Typed.{convert_from, convert_to};
ghost use Rattle.wasm_tree.specs.declared.module.ValType.TheVariants.{I32};
ghost use Rattle.wasm_sound.specs.Kinds.{IsOf};

use wasm_tree::{BinaryOp, CompareOp, ConvertOp, UnaryOp, ValType};

/// An operator of two numbers, and none where it traps.
#[inline(always)]
pub fn binary(ty: ValType, op: BinaryOp, x: u64, y: u64) -> Option<u64>
    requires first { IsOf ty x }
    requires second { IsOf ty y }
    ensures value { result ≡ binary_of (width ty) op x y }
    ensures fits { IfSome result (λ z. IsOf ty z) }
{
    match ty {
        ValType::I32 => match binary32(op, x as u32, y as u32) {
            Some(z) => Some(u64::from(z)),
            None => None,
        },
        ValType::I64 => binary64(op, x, y),
    }
}

/// A comparison: 1 or 0.
#[inline(always)]
pub fn compare(ty: ValType, op: CompareOp, x: u64, y: u64) -> u64
    requires first { IsOf ty x }
    requires second { IsOf ty y }
    ensures value { result ≡ compare_of (width ty) op x y }
    ensures fits { IsOf I32 result }
{
    let holds = match ty {
        ValType::I32 => compare32(op, x as u32, y as u32),
        ValType::I64 => compare64(op, x, y),
    };
    u64::from(holds)
}

/// An operator of one number.
#[inline(always)]
pub fn unary(ty: ValType, op: UnaryOp, x: u64) -> u64
    requires { IsOf ty x }
    ensures value { result ≡ unary_of (width ty) op x }
    ensures fits { IsOf ty result }
{
    match ty {
        ValType::I32 => u64::from(unary32(op, x as u32)),
        ValType::I64 => u64::from(unary64(op, x)),
    }
}

/// Whether the number is 0: 1 or 0.
#[inline(always)]
pub fn test(x: u64) -> u64
    ensures value { result ≡ test_of x }
    ensures fits { IsOf I32 result }
{
    u64::from(x == 0)
}

/// A number in the other type.
#[inline(always)]
pub fn convert(op: ConvertOp, x: u64) -> u64
    requires { IsOf (convert_from op) x }
    ensures value { result ≡ convert_of op x }
    ensures fits { IsOf (convert_to op) result }
{
    match op {
        ConvertOp::WrapI64 => x % 0x1_0000_0000,
        ConvertOp::ExtendI32Signed => i64::from((x as u32).cast_signed()).cast_unsigned(),
        ConvertOp::ExtendI32Unsigned => x,
    }
}

#[inline(always)]
fn binary32(op: BinaryOp, x: u32, y: u32) -> Option<u32>
    ensures { result ≡ binary_of w32 op x y }
{
    match op {
        BinaryOp::Add => Some(x.wrapping_add(y)),
        BinaryOp::Sub => Some(x.wrapping_sub(y)),
        BinaryOp::Mul => Some(x.wrapping_mul(y)),
        BinaryOp::DivSigned => div_signed32(x, y),
        BinaryOp::DivUnsigned => div_unsigned32(x, y),
        BinaryOp::RemSigned => rem_signed32(x, y),
        BinaryOp::RemUnsigned => rem_unsigned32(x, y),
        BinaryOp::And => Some(x & y),
        BinaryOp::Or => Some(x | y),
        BinaryOp::Xor => Some(x ^ y),
        BinaryOp::ShiftLeft => Some(x.wrapping_shl(y % 32)),
        BinaryOp::ShiftRightSigned => Some(x.cast_signed().wrapping_shr(y % 32).cast_unsigned()),
        BinaryOp::ShiftRightUnsigned => Some(x.wrapping_shr(y % 32)),
        BinaryOp::RotateLeft => Some(x.rotate_left(y % 32)),
        BinaryOp::RotateRight => Some(x.rotate_right(y % 32)),
    }
}

#[inline(always)]
fn div_signed32(x: u32, y: u32) -> Option<u32>
    ensures { result ≡ binary_of w32 binary.DivSigned x y }
{
    if y == 0 || (x == 0x8000_0000 && y == 0xFFFF_FFFF) {
        return None;
    }
    Some((x.cast_signed() / y.cast_signed()).cast_unsigned())
}

#[inline(always)]
fn div_unsigned32(x: u32, y: u32) -> Option<u32>
    ensures { result ≡ binary_of w32 binary.DivUnsigned x y }
{
    if y == 0 {
        return None;
    }
    Some(x / y)
}

#[inline(always)]
fn rem_signed32(x: u32, y: u32) -> Option<u32>
    ensures { result ≡ binary_of w32 binary.RemSigned x y }
{
    if y == 0 {
        return None;
    }
    Some(
        x.cast_signed()
            .wrapping_rem(y.cast_signed())
            .cast_unsigned(),
    )
}

#[inline(always)]
fn rem_unsigned32(x: u32, y: u32) -> Option<u32>
    ensures { result ≡ binary_of w32 binary.RemUnsigned x y }
{
    if y == 0 {
        return None;
    }
    Some(x % y)
}

#[inline(always)]
fn compare32(op: CompareOp, x: u32, y: u32) -> bool
    ensures { result ≡ compares w32 op x y }
{
    match op {
        CompareOp::Equal => x == y,
        CompareOp::NotEqual => x != y,
        CompareOp::LessSigned => x.cast_signed() < y.cast_signed(),
        CompareOp::LessUnsigned => x < y,
        CompareOp::GreaterSigned => x.cast_signed() > y.cast_signed(),
        CompareOp::GreaterUnsigned => x > y,
        CompareOp::LessEqualSigned => x.cast_signed() <= y.cast_signed(),
        CompareOp::LessEqualUnsigned => x <= y,
        CompareOp::GreaterEqualSigned => x.cast_signed() >= y.cast_signed(),
        CompareOp::GreaterEqualUnsigned => x >= y,
    }
}

#[inline(always)]
fn unary32(op: UnaryOp, x: u32) -> u32
    ensures { result ≡ unary_of w32 op x }
{
    match op {
        UnaryOp::LeadingZeros => x.leading_zeros(),
        UnaryOp::TrailingZeros => x.trailing_zeros(),
        UnaryOp::PopulationCount => x.count_ones(),
    }
}

#[inline(always)]
fn binary64(op: BinaryOp, x: u64, y: u64) -> Option<u64>
    ensures { result ≡ binary_of w64 op x y }
{
    match op {
        BinaryOp::Add => Some(x.wrapping_add(y)),
        BinaryOp::Sub => Some(x.wrapping_sub(y)),
        BinaryOp::Mul => Some(x.wrapping_mul(y)),
        BinaryOp::DivSigned => div_signed64(x, y),
        BinaryOp::DivUnsigned => div_unsigned64(x, y),
        BinaryOp::RemSigned => rem_signed64(x, y),
        BinaryOp::RemUnsigned => rem_unsigned64(x, y),
        BinaryOp::And => Some(x & y),
        BinaryOp::Or => Some(x | y),
        BinaryOp::Xor => Some(x ^ y),
        BinaryOp::ShiftLeft => Some(x.wrapping_shl((y % 64) as u32)),
        BinaryOp::ShiftRightSigned => Some(
            x.cast_signed()
                .wrapping_shr((y % 64) as u32)
                .cast_unsigned(),
        ),
        BinaryOp::ShiftRightUnsigned => Some(x.wrapping_shr((y % 64) as u32)),
        BinaryOp::RotateLeft => Some(x.rotate_left((y % 64) as u32)),
        BinaryOp::RotateRight => Some(x.rotate_right((y % 64) as u32)),
    }
}

#[inline(always)]
fn div_signed64(x: u64, y: u64) -> Option<u64>
    ensures { result ≡ binary_of w64 binary.DivSigned x y }
{
    if y == 0 || (x == 0x8000_0000_0000_0000 && y == 0xFFFF_FFFF_FFFF_FFFF) {
        return None;
    }
    Some((x.cast_signed() / y.cast_signed()).cast_unsigned())
}

#[inline(always)]
fn div_unsigned64(x: u64, y: u64) -> Option<u64>
    ensures { result ≡ binary_of w64 binary.DivUnsigned x y }
{
    if y == 0 {
        return None;
    }
    Some(x / y)
}

#[inline(always)]
fn rem_signed64(x: u64, y: u64) -> Option<u64>
    ensures { result ≡ binary_of w64 binary.RemSigned x y }
{
    if y == 0 {
        return None;
    }
    Some(
        x.cast_signed()
            .wrapping_rem(y.cast_signed())
            .cast_unsigned(),
    )
}

#[inline(always)]
fn rem_unsigned64(x: u64, y: u64) -> Option<u64>
    ensures { result ≡ binary_of w64 binary.RemUnsigned x y }
{
    if y == 0 {
        return None;
    }
    Some(x % y)
}

#[inline(always)]
fn compare64(op: CompareOp, x: u64, y: u64) -> bool
    ensures { result ≡ compares w64 op x y }
{
    match op {
        CompareOp::Equal => x == y,
        CompareOp::NotEqual => x != y,
        CompareOp::LessSigned => x.cast_signed() < y.cast_signed(),
        CompareOp::LessUnsigned => x < y,
        CompareOp::GreaterSigned => x.cast_signed() > y.cast_signed(),
        CompareOp::GreaterUnsigned => x > y,
        CompareOp::LessEqualSigned => x.cast_signed() <= y.cast_signed(),
        CompareOp::LessEqualUnsigned => x <= y,
        CompareOp::GreaterEqualSigned => x.cast_signed() >= y.cast_signed(),
        CompareOp::GreaterEqualUnsigned => x >= y,
    }
}

#[inline(always)]
fn unary64(op: UnaryOp, x: u64) -> u32
    ensures { result ≡ unary_of w64 op x }
{
    match op {
        UnaryOp::LeadingZeros => x.leading_zeros(),
        UnaryOp::TrailingZeros => x.trailing_zeros(),
        UnaryOp::PopulationCount => x.count_ones(),
    }
}
