//! Whole-number operations of the language: the conversions between number types, division that
//! rounds toward 0, and shifts.
//!
//! Each call takes no memory and can't fail: what it asks of its arguments is a `requires`, and its
//! result is that of a definition on whole numbers in `specs/`. `to_signed` is the conversion to
//! `int32` and `int64`, `to_wrap`, `to_clamp` and `to_bool` are the other conversions, `quotient`
//! and `remainder` are `/` and `%`, and `shift_of` has the three shifts. The layers above cite
//! these definitions, and the contracts of `laws`: that each definition gives the only number with
//! its property, that to wrap on the way changes nothing, and, for each operator of the language,
//! which WebAssembly instruction computes it on bits.
#![tactic(auto)]

ghost use Rattle.std.specs.Prelude.{◌≡◌, ◌≢◌, ◌≤◌, pos, ◌≤ℤ◌, FitsSigned};
ghost use Rattle.std.specs.Int.{w32, w64};
ghost use Rattle.cm_number.specs.Conversion.{to_signed, to_unsigned, floor_modulus, nearest, IsWidth, width_of};
ghost use Rattle.cm_number.specs.Division.{quotient, remainder};
ghost use Rattle.cm_number.specs.Shift.{shift_of};

pub mod laws;
#[cfg(test)]
mod tests;

/// Which way a shift goes, and what fills the places that it leaves.
#[derive(Clone, Copy, Debug, PartialEq, Eq)]
pub enum ShiftOp {
    /// `<<`: to higher places, filling with zeros.
    Left,
    /// `>>`: to lower places, keeping the sign.
    Right,
    /// `>>>`: to lower places, filling with zeros.
    RightZero,
}

/// The `int32` that differs from `v` by a multiple of 2^32: two's complement of the low bits.
pub fn wrap32(v: i128) -> i32
    ensures { result ≡ to_signed w32 v }
{
    (v.rem_euclid(1 << 32) as u32).cast_signed()
}

/// The `int64` that differs from `v` by a multiple of 2^64: two's complement of the low bits.
pub fn wrap64(v: i128) -> i64
    ensures { result ≡ to_signed w64 v }
{
    (v.rem_euclid(1 << 64) as u64).cast_signed()
}

/// The number of 0 to `n` - 1 that differs from `v` by a multiple of `n`.
pub fn floor_mod(v: i64, n: u32) -> u32
    requires { 1 ≤ n }
    ensures { result ≡ floor_modulus v n }
{
    v.rem_euclid(i64::from(n)) as u32
}

/// The number of `low` to `high` that is nearest to `v`.
pub fn hold(v: i64, low: i64, high: i64) -> i64
    requires { low ≤ℤ high }
    ensures { result ≡ nearest low high v }
{
    v.clamp(low, high)
}

/// The quotient of two numbers of `bits` bits, rounded toward 0 and wrapped: the least number by -1
/// gives itself.
pub fn div_by(v: i64, d: i64, bits: u32) -> i64
    requires width { IsWidth bits }
    requires divisor { d ≢ pos 0 }
    requires dividend_in_range { FitsSigned (width_of bits) v }
    requires divisor_in_range { FitsSigned (width_of bits) d }
    ensures { result ≡ quotient (width_of bits) v d }
{
    wrap(i128::from(v) / i128::from(d), bits)
}

/// The remainder of that division at `bits` bits, which has the sign of `v`. The least number by -1
/// gives 0.
pub fn rem_by(v: i64, d: i64, bits: u32) -> i64
    requires width { IsWidth bits }
    requires divisor { d ≢ pos 0 }
    requires dividend_in_range { FitsSigned (width_of bits) v }
    requires divisor_in_range { FitsSigned (width_of bits) d }
    ensures { result ≡ remainder v d }
{
    v.wrapping_rem(d)
}

/// Shifts a number of `bits` bits by as many places as the floor modulus of `by` by `bits`.
pub fn shift(v: i64, by: i64, op: ShiftOp, bits: u32) -> i64
    requires width { IsWidth bits }
    requires in_range { FitsSigned (width_of bits) v }
    ensures { result ≡ shift_of op (width_of bits) v by }
{
    let places = floor_mod(by, bits);
    match op {
        ShiftOp::Left => wrap(i128::from(v) << places, bits),
        ShiftOp::Right => v >> places,
        ShiftOp::RightZero => wrap(i128::from(unsigned(v, bits) >> places), bits),
    }
}

// The number of the signed type of `bits` bits that differs from `v` by a multiple of 2^`bits`.
fn wrap(v: i128, bits: u32) -> i64
    requires { IsWidth bits }
    ensures { result ≡ to_signed (width_of bits) v }
{
    if bits == 32 {
        i64::from(wrap32(v))
    } else {
        wrap64(v)
    }
}

// Two's complement of a number of `bits` bits.
fn unsigned(v: i64, bits: u32) -> u64
    requires width { IsWidth bits }
    requires in_range { FitsSigned (width_of bits) v }
    ensures { result ≡ to_unsigned (width_of bits) v }
{
    if bits == 32 {
        u64::from((v as i32).cast_unsigned())
    } else {
        v.cast_unsigned()
    }
}
