ghost use Rattle.std.specs.Prelude.{◌≡◌, ◌<◌, ◌≤◌, ◌^◌, ◌-◌, ◌++◌, ◌∷◌, [], ℤ, OnOk};
ghost use Rattle.cm_base.specs.Scripts.{IsOfKind};
ghost use Rattle.cm_core.specs.Typing.{IsKind, IsSize};
ghost use Rattle.cm_scalar.specs.Scalars.{converted};
ghost use Rattle.operator_code.specs.Operands.{type_of, bits_of};
ghost use Rattle.operator_code.specs.Conversions as codes;

use crate::operators::{constant, value_type};
use crate::scratch::Scratch;
use cm_base::{NoMemory, Scalar};
use wasm_tree::{BinaryOp, Code, CompareOp, ConvertOp, Instr, ValType};

/// The local for numbers of the type.
fn local_of(scratch: Scratch, ty: ValType) -> u32
    ensures { result ≡ codes.local_of scratch ty }
{
    match ty {
        ValType::I32 => scratch.narrow,
        ValType::I64 => scratch.wide,
    }
}

/// What all values of the kind are below, none of which is below 0.
fn bound_of(kind: Scalar) -> Option<u32>
    ensures { result ≡ codes.bound_of kind }
{
    match kind {
        Scalar::Int32 | Scalar::Int64 => None,
        Scalar::Bool => Some(2),
        Scalar::Wrap(count) | Scalar::Clamp(count) => Some(count),
    }
}

fn are_below(bound: Option<u32>, count: u32) -> bool
    ensures { result ≡ codes.are_below bound count }
{
    match bound {
        None => false,
        Some(bound) => bound <= count,
    }
}

fn push_narrowing(code: &mut Code, ty: ValType) -> Result<(), NoMemory>
    ensures { OnOk result (code.new ≡ code.old ++ codes.narrow_code ty) }
{
    match ty {
        ValType::I32 => {}
        ValType::I64 => code.push(Instr::Convert(ConvertOp::WrapI64))?,
    }
    Ok(())
}

fn push_widening(code: &mut Code, ty: ValType) -> Result<(), NoMemory>
    ensures { OnOk result (code.new ≡ code.old ++ codes.widen_code ty) }
{
    match ty {
        ValType::I32 => code.push(Instr::Convert(ConvertOp::ExtendI32Signed))?,
        ValType::I64 => {}
    }
    Ok(())
}

fn push_truth(code: &mut Code, from: Scalar) -> Result<(), NoMemory>
    ensures { OnOk result (code.new ≡ code.old ++ codes.truth_code from) }
{
    match from {
        Scalar::Bool => Ok(()),
        Scalar::Int32 | Scalar::Int64 | Scalar::Wrap(_) | Scalar::Clamp(_) => {
            let ty = value_type(from);
            code.push(constant(ty, 0))?;
            code.push(Instr::Compare(ty, CompareOp::NotEqual))?;
            Ok(())
        }
    }
}

/// The remainder, and where it is below 0 its sum with the divisor.
fn push_floor(code: &mut Code, ty: ValType, count: u32, local: u32) -> Result<(), NoMemory>
    requires { count < 2 ^ 31 }
    ensures { OnOk result (code.new ≡ code.old ++ codes.floor_code ty count local) }
{
    code.push(constant(ty, count as i32))?;
    code.push(Instr::Binary(ty, BinaryOp::RemSigned))?;
    code.push(Instr::LocalTee(local))?;
    code.push(constant(ty, count as i32))?;
    code.push(Instr::Binary(ty, BinaryOp::Add))?;
    code.push(Instr::LocalGet(local))?;
    code.push(Instr::LocalGet(local))?;
    code.push(constant(ty, 0))?;
    code.push(Instr::Compare(ty, CompareOp::LessSigned))?;
    code.push(Instr::Select)?;
    Ok(())
}

/// The number, or 0 where it is below 0.
fn push_least(code: &mut Code, ty: ValType, local: u32) -> Result<(), NoMemory>
    ensures { OnOk result (code.new ≡ code.old ++ codes.least_code ty local) }
{
    code.push(Instr::LocalTee(local))?;
    code.push(constant(ty, 0))?;
    code.push(Instr::LocalGet(local))?;
    code.push(constant(ty, 0))?;
    code.push(Instr::Compare(ty, CompareOp::GreaterSigned))?;
    code.push(Instr::Select)?;
    Ok(())
}

/// The number, or `top` where it is above that.
fn push_most(code: &mut Code, ty: ValType, top: u32, local: u32) -> Result<(), NoMemory>
    requires { top < 2 ^ 31 }
    ensures { OnOk result (code.new ≡ code.old ++ codes.most_code ty top local) }
{
    code.push(Instr::LocalTee(local))?;
    code.push(constant(ty, top as i32))?;
    code.push(Instr::LocalGet(local))?;
    code.push(constant(ty, top as i32))?;
    code.push(Instr::Compare(ty, CompareOp::LessSigned))?;
    code.push(Instr::Select)?;
    Ok(())
}

/// Whether it is a power of 2.
fn is_power(count: u32) -> bool
    ensures { result ≡ codes.is_power count }
{
    u64::from(count) == 1u64 << count.trailing_zeros()
}

/// The low bits.
fn push_mask(code: &mut Code, ty: ValType, count: u32) -> Result<(), NoMemory>
    requires { IsSize count }
    ensures { OnOk result (code.new ≡ code.old ++ codes.mask_code ty count) }
{
    code.push(constant(ty, (count - 1) as i32))?;
    code.push(Instr::Binary(ty, BinaryOp::And))?;
    Ok(())
}

fn push_remainder(code: &mut Code, count: u32) -> Result<(), NoMemory>
    requires { IsSize count }
    ensures { OnOk result (code.new ≡ code.old ++ codes.remainder_code count) }
{
    code.push(Instr::I32Const(count as i32))?;
    code.push(Instr::Binary(ValType::I32, BinaryOp::RemUnsigned))?;
    Ok(())
}

fn push_modulus(
    code: &mut Code,
    scratch: Scratch,
    bound: Option<u32>,
    ty: ValType,
    count: u32,
) -> Result<(), NoMemory>
    requires { IsSize count }
    ensures { OnOk result (code.new ≡ code.old ++ codes.modulus_code scratch bound ty count) }
{
    match bound {
        Some(_) => push_remainder(code, count),
        None => {
            push_floor(code, ty, count, local_of(scratch, ty))?;
            push_narrowing(code, ty)?;
            Ok(())
        }
    }
}

fn push_wrap(code: &mut Code, scratch: Scratch, from: Scalar, count: u32) -> Result<(), NoMemory>
    requires { IsSize count }
    ensures { OnOk result (code.new ≡ code.old ++ codes.wrap_code scratch from count) }
{
    let bound = bound_of(from);
    let ty = value_type(from);
    if are_below(bound, count) {
        return Ok(());
    }
    if is_power(count) {
        push_mask(code, ty, count)?;
        push_narrowing(code, ty)?;
        return Ok(());
    }
    push_modulus(code, scratch, bound, ty, count)
}

fn push_hold(
    code: &mut Code,
    scratch: Scratch,
    bound: Option<u32>,
    ty: ValType,
    top: u32,
) -> Result<(), NoMemory>
    requires { top < 2 ^ 31 }
    ensures { OnOk result (code.new ≡ code.old ++ codes.hold_code scratch bound ty top) }
{
    let local = local_of(scratch, ty);
    match bound {
        Some(_) => push_most(code, ty, top, local),
        None => {
            push_least(code, ty, local)?;
            push_most(code, ty, top, local)?;
            push_narrowing(code, ty)?;
            Ok(())
        }
    }
}

fn push_clamp(code: &mut Code, scratch: Scratch, from: Scalar, count: u32) -> Result<(), NoMemory>
    requires { IsSize count }
    ensures { OnOk result (code.new ≡ code.old ++ codes.clamp_code scratch from count) }
{
    let bound = bound_of(from);
    if are_below(bound, count) {
        return Ok(());
    }
    push_hold(code, scratch, bound, value_type(from), count - 1)
}

/// Appends the code of a conversion between scalars behind that of what is converted. It may use the locals for scratch.
pub fn push_conversion(
    code: &mut Code,
    scratch: Scratch,
    from: Scalar,
    to: Scalar,
) -> Result<(), NoMemory>
    requires from { IsKind from }
    requires to { IsKind to }
    ensures emitted { OnOk result (code.new ≡ code.old ++ codes.conversion_code scratch from to) }
{
    match to {
        Scalar::Int32 => push_narrowing(code, value_type(from)),
        Scalar::Int64 => push_widening(code, value_type(from)),
        Scalar::Bool => push_truth(code, from),
        Scalar::Wrap(count) => push_wrap(code, scratch, from, count),
        Scalar::Clamp(count) => push_clamp(code, scratch, from, count),
    }
}
