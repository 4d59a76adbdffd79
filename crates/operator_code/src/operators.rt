ghost use Rattle.std.specs.Prelude.{◌≡◌, ◌≢◌, ◌||◌, ◌++◌, ◌∷◌, [], ℤ, pos, true, false, FitsSigned, OnOk};
ghost use Rattle.cm_base.specs.Scripts.{IsOfKind};
ghost use Rattle.cm_core.specs.Operators.{unary, binary, width_of};
ghost use Rattle.cm_core.specs.Types.{binary_kind};
ghost use Rattle.cm_core.specs.Typing.{ComputesIn, IsWide, TakesKind, is_shift, is_division};
ghost use Rattle.operator_code.specs.Operands.{type_of, bits_of, number};
ghost use Rattle.operator_code.specs.Operators.{instr_of, result_of, operator_code, amount_code, shift_code, division_instr, division_code, unary_code};

use cm_base::{NoMemory, Scalar};
use cm_core::{BinaryOp, UnaryOp};
use wasm_tree::{BinaryOp as Arithmetic, Code, CompareOp, ConvertOp, Instr, ValType};

/// The type of a scalar of the kind: `int64` has 64 bits, and all others have 32.
pub fn value_type(kind: Scalar) -> ValType
    ensures { result ≡ type_of kind }
{
    match kind {
        Scalar::Int64 => ValType::I64,
        Scalar::Int32 | Scalar::Bool | Scalar::Wrap(_) | Scalar::Clamp(_) => ValType::I32,
    }
}

/// A constant of the type that fits 32 bits.
pub fn constant(ty: ValType, value: i32) -> Instr
    ensures { result ≡ number ty value }
{
    match ty {
        ValType::I32 => Instr::I32Const(value),
        ValType::I64 => Instr::I64Const(i64::from(value)),
    }
}

/// The instruction of an operator that computes in the type.
fn instruction(op: BinaryOp, ty: ValType) -> Instr
    ensures { result ≡ instr_of op ty }
{
    match op {
        BinaryOp::Add => Instr::Binary(ty, Arithmetic::Add),
        BinaryOp::Subtract => Instr::Binary(ty, Arithmetic::Sub),
        BinaryOp::Multiply => Instr::Binary(ty, Arithmetic::Mul),
        BinaryOp::Divide => Instr::Binary(ty, Arithmetic::DivSigned),
        BinaryOp::Remainder => Instr::Binary(ty, Arithmetic::RemSigned),
        BinaryOp::BitAnd => Instr::Binary(ty, Arithmetic::And),
        BinaryOp::BitOr => Instr::Binary(ty, Arithmetic::Or),
        BinaryOp::BitXor => Instr::Binary(ty, Arithmetic::Xor),
        BinaryOp::ShiftLeft => Instr::Binary(ty, Arithmetic::ShiftLeft),
        BinaryOp::ShiftRight => Instr::Binary(ty, Arithmetic::ShiftRightSigned),
        BinaryOp::ShiftRightZero => Instr::Binary(ty, Arithmetic::ShiftRightUnsigned),
        BinaryOp::Equal => Instr::Compare(ty, CompareOp::Equal),
        BinaryOp::NotEqual => Instr::Compare(ty, CompareOp::NotEqual),
        BinaryOp::Less => Instr::Compare(ty, CompareOp::LessSigned),
        BinaryOp::LessOrEqual => Instr::Compare(ty, CompareOp::LessEqualSigned),
        BinaryOp::Greater => Instr::Compare(ty, CompareOp::GreaterSigned),
        BinaryOp::GreaterOrEqual => Instr::Compare(ty, CompareOp::GreaterEqualSigned),
    }
}

/// Appends the code of an operator other than a shift or a division, which computes in `kind`, behind that of its two
/// operands.
pub fn push_operator(code: &mut Code, op: BinaryOp, kind: Scalar) -> Result<(), NoMemory>
    requires kind { ComputesIn op kind }
    requires no_shift { is_shift op ≡ false }
    requires no_division { is_division op ≡ false }
    ensures emitted { OnOk result (code.new ≡ code.old ++ operator_code op kind) }
{
    code.push(instruction(op, value_type(kind)))?;
    Ok(())
}

/// Appends the code of a shift that computes in `kind`, behind that of a number and of an amount, which may have the other
/// width.
pub fn push_shift(
    code: &mut Code,
    op: BinaryOp,
    kind: Scalar,
    amount: Scalar,
) -> Result<(), NoMemory>
    requires shift { is_shift op ≡ true }
    requires kind { IsWide kind }
    requires amount { IsWide amount }
    ensures emitted { OnOk result (code.new ≡ code.old ++ shift_code op kind amount) }
{
    let ty = value_type(kind);
    match (ty, value_type(amount)) {
        (ValType::I32, ValType::I64) => code.push(Instr::Convert(ConvertOp::WrapI64))?,
        (ValType::I64, ValType::I32) => code.push(Instr::Convert(ConvertOp::ExtendI32Signed))?,
        (ValType::I32, ValType::I32) | (ValType::I64, ValType::I64) => {}
    }
    code.push(instruction(op, ty))?;
    Ok(())
}

/// Appends the code of a division or a remainder that computes in `kind`, behind that of a number and of this constant,
/// which isn't 0.
pub fn push_division(
    code: &mut Code,
    op: BinaryOp,
    kind: Scalar,
    divisor: i64,
) -> Result<(), NoMemory>
    requires division { is_division op ≡ true }
    requires kind { IsWide kind }
    requires divisor { IsOfKind kind divisor }
    requires not_zero { divisor ≢ pos 0 }
    ensures emitted { OnOk result (code.new ≡ code.old ++ division_code op kind divisor) }
{
    let ty = value_type(kind);
    if divisor == -1 && op == BinaryOp::Divide {
        code.push(Instr::Binary(ty, Arithmetic::Mul))?;
    } else {
        code.push(instruction(op, ty))?;
    }
    Ok(())
}

/// Appends the code of an operator with one operand, which computes in `kind`, behind that of its operand.
pub fn push_unary(code: &mut Code, op: UnaryOp, kind: Scalar) -> Result<(), NoMemory>
    requires kind { TakesKind op kind }
    ensures emitted { OnOk result (code.new ≡ code.old ++ unary_code op kind) }
{
    let ty = value_type(kind);
    match op {
        UnaryOp::Negate => {
            code.push(constant(ty, -1))?;
            code.push(Instr::Binary(ty, Arithmetic::Mul))?;
        }
        UnaryOp::Not => code.push(Instr::Test(ty))?,
        UnaryOp::Invert => {
            code.push(constant(ty, -1))?;
            code.push(Instr::Binary(ty, Arithmetic::Xor))?;
        }
    }
    Ok(())
}
