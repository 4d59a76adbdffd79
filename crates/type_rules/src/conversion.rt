ghost use Rattle.std.specs.Prelude.{◌≡◌};
ghost use Rattle.cm_base.specs.HostEnds.{IsLawfulScalar};
ghost use Rattle.cm_meaning.specs.Conversions as rules;
ghost use Rattle.cm_meaning.specs.Types as types;
ghost use Rattle.cm_meaning.specs.Types.{Single};
ghost use Rattle.cm_types.specs.Lawful.{IsLawfulType};
ghost use Rattle.cm_types.specs.Meant.{meant_type};

use crate::same::is_same;
use cm_base::Scalar;
use cm_scalar::convert;
use cm_types::CmType;

fn is_number_kind(kind: Scalar) -> bool
    ensures { result ≡ rules.is_number (Single kind) }
{
    match kind {
        Scalar::Int32 | Scalar::Int64 | Scalar::Wrap(_) | Scalar::Clamp(_) => true,
        Scalar::Bool => false,
    }
}

/// Whether this is a number type.
#[tactic(auto, using(cm_types::specs::Meant::meant_types))]
pub fn is_number(ty: &CmType) -> bool
    ensures { result ≡ rules.is_number (meant_type ty.now) }
{
    match ty {
        CmType::Single(kind) => is_number_kind(*kind),
        CmType::Array(_, _) | CmType::Record(_, _) => false,
    }
}

fn is_bool_kind(kind: Scalar) -> bool
    ensures { result ≡ rules.is_bool (Single kind) }
{
    match kind {
        Scalar::Bool => true,
        Scalar::Int32 | Scalar::Int64 | Scalar::Wrap(_) | Scalar::Clamp(_) => false,
    }
}

/// Whether this is `bool`.
#[tactic(auto, using(cm_types::specs::Meant::meant_types))]
pub fn is_bool(ty: &CmType) -> bool
    ensures { result ≡ rules.is_bool (meant_type ty.now) }
{
    match ty {
        CmType::Single(kind) => is_bool_kind(*kind),
        CmType::Array(_, _) | CmType::Record(_, _) => false,
    }
}

// `int32` to `int64`, and `wrap` and `clamp` to both.
fn widens_kind(from: Scalar, to: Scalar) -> bool
    ensures { result ≡ rules.widens (Single from) (Single to) }
{
    match (from, to) {
        (Scalar::Int32 | Scalar::Wrap(_) | Scalar::Clamp(_), Scalar::Int64)
        | (Scalar::Wrap(_) | Scalar::Clamp(_), Scalar::Int32) => true,
        _ => false,
    }
}

#[tactic(auto, using(cm_types::specs::Meant::meant_types, crate::proofs::Widening::no_wideners))]
fn widens(from: &CmType, to: &CmType) -> bool
    ensures { result ≡ rules.widens (meant_type from.now) (meant_type to.now) }
{
    match from {
        CmType::Single(kind) => match to {
            CmType::Single(wider) => widens_kind(*kind, *wider),
            CmType::Array(_, _) | CmType::Record(_, _) => false,
        },
        CmType::Array(_, _) | CmType::Record(_, _) => false,
    }
}

/// Whether the conversion to the kind leaves the number as it is.
pub fn holds(kind: Scalar, number: i64) -> bool
    requires { IsLawfulScalar kind }
    ensures { result ≡ types.holds kind number }
{
    convert(number, kind) == number
}

#[tactic(auto, using(cm_types::specs::Meant::meant_types))]
fn holds_known(ty: &CmType, known: Option<i64>) -> bool
    requires { IsLawfulType (meant_type ty.now) }
    ensures { result ≡ rules.holds_known (meant_type ty.now) known }
{
    match ty {
        CmType::Single(kind) => match known {
            Some(number) => holds(*kind, number),
            None => false,
        },
        CmType::Array(_, _) | CmType::Record(_, _) => false,
    }
}

/// Whether a value of one type is converted to the other where that is needed: the types are the same, or the second is
/// wider, or a number becomes `bool`, or a constant number, which is then known, is one that the second type holds.
pub fn converts(from: &CmType, to: &CmType, known: Option<i64>) -> bool
    requires { IsLawfulType (meant_type to.now) }
    ensures { result ≡ rules.converts (meant_type from.now) (meant_type to.now) known }
{
    is_same(from, to)
        || widens(from, to)
        || (is_number(from) && (is_bool(to) || (is_number(to) && holds_known(to, known))))
}
