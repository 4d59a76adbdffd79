ghost use Rattle.std.specs.Prelude.{◌≡◌, Some, option_map};
ghost use Rattle.std.specs.Option.{IfSome};
ghost use Rattle.cm_base.specs.HostEnds.{IsLawfulScalar};
ghost use Rattle.cm_meaning.specs.Conversions as rules;
ghost use Rattle.cm_meaning.specs.Types.{Single, bool};
ghost use Rattle.cm_types.specs.Meant.{meant_type};

use crate::conversion::{is_bool, is_number};
use cm_base::Scalar;
use cm_tree::{Binary, Unary};
use cm_types::CmType;

fn is_int64_kind(kind: Scalar) -> bool
    ensures { result ≡ rules.is_int64 (Single kind) }
{
    match kind {
        Scalar::Int64 => true,
        Scalar::Int32 | Scalar::Bool | Scalar::Wrap(_) | Scalar::Clamp(_) => false,
    }
}

/// Whether this is `int64`.
#[tactic(auto, using(cm_types::specs::Meant::meant_types))]
pub fn is_int64(ty: &CmType) -> bool
    ensures { result ≡ rules.is_int64 (meant_type ty.now) }
{
    match ty {
        CmType::Single(kind) => is_int64_kind(*kind),
        CmType::Array(_, _) | CmType::Record(_, _) => false,
    }
}

fn arithmetic_kind(kind: Scalar) -> Option<Scalar>
    ensures value { option_map Single result ≡ rules.arithmetic (Single kind) }
    ensures lawful { IfSome result (λ kind. IsLawfulScalar kind) }
{
    match kind {
        Scalar::Bool => None,
        Scalar::Int64 => Some(Scalar::Int64),
        Scalar::Int32 | Scalar::Wrap(_) | Scalar::Clamp(_) => Some(Scalar::Int32),
    }
}

/// The type in which a number is computed with: `wrap` and `clamp` become `int32`.
#[tactic(auto, using(cm_types::specs::Meant::meant_types))]
pub fn arithmetic(ty: &CmType) -> Option<Scalar>
    ensures value { option_map Single result ≡ rules.arithmetic (meant_type ty.now) }
    ensures lawful { IfSome result (λ kind. IsLawfulScalar kind) }
{
    match ty {
        CmType::Single(kind) => arithmetic_kind(*kind),
        CmType::Array(_, _) | CmType::Record(_, _) => None,
    }
}

/// The type in which two numbers are computed with: if one is `int64`, both are.
pub fn joined(one: &CmType, other: &CmType) -> Option<Scalar>
    ensures value { option_map Single result ≡ rules.joined (meant_type one.now) (meant_type other.now) }
    ensures lawful { IfSome result (λ kind. IsLawfulScalar kind) }
{
    if !(is_number(one) && is_number(other)) {
        return None;
    }
    Some(if is_int64(one) || is_int64(other) {
        Scalar::Int64
    } else {
        Scalar::Int32
    })
}

/// Whether a value is taken as a condition: a number or a truth value.
pub fn is_condition(ty: &CmType) -> bool
    ensures { result ≡ rules.is_condition (meant_type ty.now) }
{
    is_number(ty) || is_bool(ty)
}

fn bitwise(one: &CmType, other: &CmType) -> Option<Scalar>
    ensures value { option_map Single result ≡ rules.bitwise (meant_type one.now) (meant_type other.now) }
    ensures lawful { IfSome result (λ kind. IsLawfulScalar kind) }
{
    if is_bool(one) && is_bool(other) {
        return Some(Scalar::Bool);
    }
    joined(one, other)
}

fn equated(one: &CmType, other: &CmType) -> Option<Scalar>
    ensures value { option_map Single result ≡ rules.equated (meant_type one.now) (meant_type other.now) }
    ensures lawful { IfSome result (λ kind. IsLawfulScalar kind) }
{
    let truths = is_bool(one) && is_bool(other);
    if truths || (is_number(one) && is_number(other)) {
        return Some(Scalar::Bool);
    }
    None
}

fn compared(one: &CmType, other: &CmType) -> Option<Scalar>
    ensures value { option_map Single result ≡ rules.if_both rules.is_number (meant_type one.now) (meant_type other.now) (Some bool) }
    ensures lawful { IfSome result (λ kind. IsLawfulScalar kind) }
{
    if is_number(one) && is_number(other) {
        Some(Scalar::Bool)
    } else {
        None
    }
}

fn decided(one: &CmType, other: &CmType) -> Option<Scalar>
    ensures value { option_map Single result ≡ rules.if_both rules.is_condition (meant_type one.now) (meant_type other.now) (Some bool) }
    ensures lawful { IfSome result (λ kind. IsLawfulScalar kind) }
{
    if is_condition(one) && is_condition(other) {
        Some(Scalar::Bool)
    } else {
        None
    }
}

fn shifted(one: &CmType, other: &CmType) -> Option<Scalar>
    ensures value { option_map Single result ≡ rules.shifted (meant_type one.now) (meant_type other.now) }
    ensures lawful { IfSome result (λ kind. IsLawfulScalar kind) }
{
    if is_number(one) && is_number(other) {
        arithmetic(one)
    } else {
        None
    }
}

/// The type of an operation on two values, or none where it does not take them.
pub fn operated(op: Binary, one: &CmType, other: &CmType) -> Option<Scalar>
    ensures value { option_map Single result ≡ rules.operated op (meant_type one.now) (meant_type other.now) }
    ensures lawful { IfSome result (λ kind. IsLawfulScalar kind) }
{
    match op {
        Binary::Or | Binary::And => decided(one, other),
        Binary::BitOr | Binary::BitXor | Binary::BitAnd => bitwise(one, other),
        Binary::Equal | Binary::NotEqual => equated(one, other),
        Binary::Less | Binary::LessEqual | Binary::Greater | Binary::GreaterEqual => compared(
            one, other,
        ),
        Binary::ShiftLeft | Binary::ShiftRight | Binary::ShiftRightZero => shifted(one, other),
        Binary::Add | Binary::Subtract | Binary::Multiply | Binary::Divide | Binary::Remainder =>
            joined(one, other),
    }
}

/// The type of an operation on one value, or none where it does not take it.
pub fn operated_alone(op: Unary, ty: &CmType) -> Option<Scalar>
    ensures value { option_map Single result ≡ rules.operated_alone op (meant_type ty.now) }
    ensures lawful { IfSome result (λ kind. IsLawfulScalar kind) }
{
    match op {
        Unary::Minus | Unary::Complement => arithmetic(ty),
        Unary::Not => {
            if is_condition(ty) {
                Some(Scalar::Bool)
            } else {
                None
            }
        }
    }
}
