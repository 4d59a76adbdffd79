ghost use Rattle.std.specs.Prelude.{◌≡◌, ◌≢◌, FitsSigned, Some, pos, ◌+ℤ◌, ◌-ℤ◌, ◌*ℤ◌};
ghost use Rattle.cm_const.specs.Operands.{Suits};
ghost use Rattle.cm_tree.specs.declared.operator.Binary.TheVariants as o;
ghost use Rattle.cm_meaning.specs.Conversions as rules;
ghost use Rattle.cm_number.specs.Bitwise as bitwise;
ghost use Rattle.cm_number.specs.Conversion.{to_signed, to_unsigned, IsWidth, width_of};

use cm_number::{ShiftOp, div_by, rem_by, shift, wrap32, wrap64};
use cm_tree::{Binary, Unary};

// The number of the signed type of `bits` bits that differs from `v` by a multiple of 2^`bits`.
fn wrap(v: i128, bits: u32) -> i64
    requires { IsWidth bits }
    ensures { result ≡ to_signed (width_of bits) v }
{
    if bits == 32 {
        i64::from(wrap32(v))
    } else {
        wrap64(v)
    }
}

// Two's complement of a number at `bits` bits.
#[tactic(auto, using(crate::proofs::Widths::unsigned_at))]
fn unsigned(v: i64, bits: u32) -> u64
    requires { IsWidth bits }
    ensures { result ≡ to_unsigned (width_of bits) v }
{
    if bits == 32 {
        u64::from(wrap32(i128::from(v)).cast_unsigned())
    } else {
        v.cast_unsigned()
    }
}

#[tactic(auto, unfolding(cm_number::specs::Bitwise::bitwise_or))]
fn bit_or(a: i64, b: i64, bits: u32) -> i64
    requires { IsWidth bits }
    ensures { result ≡ bitwise.bitwise_or (width_of bits) a b }
{
    wrap(i128::from(unsigned(a, bits) | unsigned(b, bits)), bits)
}

#[tactic(auto, unfolding(cm_number::specs::Bitwise::bitwise_xor))]
fn bit_xor(a: i64, b: i64, bits: u32) -> i64
    requires { IsWidth bits }
    ensures { result ≡ bitwise.bitwise_xor (width_of bits) a b }
{
    wrap(i128::from(unsigned(a, bits) ^ unsigned(b, bits)), bits)
}

#[tactic(auto, unfolding(cm_number::specs::Bitwise::bitwise_and))]
fn bit_and(a: i64, b: i64, bits: u32) -> i64
    requires { IsWidth bits }
    ensures { result ≡ bitwise.bitwise_and (width_of bits) a b }
{
    wrap(i128::from(unsigned(a, bits) & unsigned(b, bits)), bits)
}

// Every bit turned: the number and its complement have the sum -1.
#[tactic(auto, unfolding(cm_number::specs::Bitwise::bitwise_not))]
fn complement(a: i64) -> i64
    ensures { result ≡ bitwise.bitwise_not a }
{
    -1 - a
}

fn told(truth: bool) -> Option<i64>
    ensures { result ≡ rules.told truth }
{
    Some(i64::from(truth))
}

#[tactic(auto, unfolding(cm_number::specs::Conversion::to_bool))]
fn quotient(a: i64, b: i64, bits: u32) -> Option<i64>
    requires width { IsWidth bits }
    requires suits { Suits o.Divide (width_of bits) a b }
    ensures { result ≡ rules.computed o.Divide (width_of bits) a b }
{
    if b == 0 {
        None
    } else {
        Some(div_by(a, b, bits))
    }
}

#[tactic(auto, unfolding(cm_number::specs::Conversion::to_bool))]
fn remainder(a: i64, b: i64, bits: u32) -> Option<i64>
    requires width { IsWidth bits }
    requires suits { Suits o.Remainder (width_of bits) a b }
    ensures { result ≡ rules.computed o.Remainder (width_of bits) a b }
{
    if b == 0 {
        None
    } else {
        Some(rem_by(a, b, bits))
    }
}

/// What an operator gives for two numbers at a width of `bits` bits, or for truth values as 0 and 1. A division by 0 gives
/// nothing.
#[tactic(auto, unfolding(cm_number::specs::Conversion::to_bool))]
pub fn computed(op: Binary, a: i64, b: i64, bits: u32) -> Option<i64>
    requires width { IsWidth bits }
    requires suits { Suits op (width_of bits) a b }
    ensures { result ≡ rules.computed op (width_of bits) a b }
{
    match op {
        Binary::Or => told(a != 0 || b != 0),
        Binary::And => told(a != 0 && b != 0),
        Binary::BitOr => Some(bit_or(a, b, bits)),
        Binary::BitXor => Some(bit_xor(a, b, bits)),
        Binary::BitAnd => Some(bit_and(a, b, bits)),
        Binary::Equal => told(a == b),
        Binary::NotEqual => told(a != b),
        Binary::Less => told(a < b),
        Binary::LessEqual => told(a <= b),
        Binary::Greater => told(a > b),
        Binary::GreaterEqual => told(a >= b),
        Binary::ShiftLeft => Some(shift(a, b, ShiftOp::Left, bits)),
        Binary::ShiftRight => Some(shift(a, b, ShiftOp::Right, bits)),
        Binary::ShiftRightZero => Some(shift(a, b, ShiftOp::RightZero, bits)),
        Binary::Add => Some(wrap(i128::from(a) + i128::from(b), bits)),
        Binary::Subtract => Some(wrap(i128::from(a) - i128::from(b), bits)),
        Binary::Multiply => Some(wrap(i128::from(a) * i128::from(b), bits)),
        Binary::Divide => quotient(a, b, bits),
        Binary::Remainder => remainder(a, b, bits),
    }
}

/// What an operator gives for one number at a width of `bits` bits, or for a truth value as 0 or 1.
#[tactic(auto, unfolding(cm_number::specs::Conversion::to_bool))]
pub fn computed_alone(op: Unary, a: i64, bits: u32) -> i64
    requires { IsWidth bits }
    ensures { result ≡ rules.computed_alone op (width_of bits) a }
{
    match op {
        Unary::Minus => wrap(-i128::from(a), bits),
        Unary::Complement => complement(a),
        Unary::Not => i64::from(a == 0),
    }
}
