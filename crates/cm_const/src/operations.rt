ghost use Rattle.std.specs.Prelude.{◌≡◌, option_map};
ghost use Rattle.std.specs.Option.{IfSome};
ghost use Rattle.cm_base.specs.HostEnds.{IsLawfulScalar};
ghost use Rattle.cm_const.specs.Operands.{Suits};
ghost use Rattle.cm_meaning.specs.Conversions as rules;
ghost use Rattle.cm_meaning.specs.Types as types;
ghost use Rattle.cm_meaning.specs.Types.{Single};
ghost use Rattle.cm_number.specs.Conversion.{IsWidth, width_of};
ghost use Rattle.cm_types.specs.Lawful.{IsSound};
ghost use Rattle.cm_types.specs.Meant.{meant_type, meant_value, meant_valued};

use crate::numbers::{computed, computed_alone};
use cm_base::Scalar;
use cm_tree::{Binary, Unary};
use cm_types::{CmType, Valued};
use type_rules::{operated, operated_alone, scalar_value};

// The bits with which a kind is computed.
fn bits(kind: Scalar) -> u32
    ensures width { IsWidth result }
    ensures value { width_of result ≡ rules.width (Single kind) }
{
    match kind {
        Scalar::Int64 => 64,
        Scalar::Int32 | Scalar::Bool | Scalar::Wrap(_) | Scalar::Clamp(_) => 32,
    }
}

/// The constant of a kind that a number is converted to.
#[tactic(auto, using(crate::proofs::Sound::sound_kind, cm_types::specs::Meant::meant_types))]
pub fn converted(kind: Scalar, number: i64) -> Valued
    requires { IsLawfulScalar kind }
    ensures ty { meant_type result.ty ≡ Single kind }
    ensures value { meant_value result.value ≡ types.scalar_value kind number }
    ensures sound { IsSound (meant_valued result) }
{
    Valued {
        ty: CmType::Single(kind),
        value: scalar_value(kind, number),
    }
}

// What an operator gives for two numbers, in the type in which it computes.
#[tactic(auto, using(cm_types::specs::Meant::meant_types, crate::proofs::Sound::in_kind_is))]
fn in_kind(op: Binary, kind: Scalar, left: i64, right: i64) -> Option<Valued>
    requires lawful { IsLawfulScalar kind }
    requires suits { Suits op (rules.width (Single kind)) left right }
    ensures value { option_map meant_valued result ≡ rules.number_as (Single kind) (rules.computed op (rules.width (Single kind)) left right) }
    ensures sound { IfSome result (λ found. IsSound (meant_valued found)) }
{
    let number = computed(op, left, right, bits(kind))?;
    Some(converted(kind, number))
}

/// What an operator gives for two constants, in its type: nothing where it does not take them or divides by 0.
#[tactic(auto, using(crate::proofs::Sound::suits_told, crate::proofs::Sound::operate_is))]
pub fn operate(op: Binary, one: &Valued, other: &Valued) -> Option<Valued>
    requires one { IsSound (meant_valued one.now) }
    requires other { IsSound (meant_valued other.now) }
    ensures value { option_map meant_valued result ≡ rules.operate op (meant_valued one.now) (meant_valued other.now) }
    ensures sound { IfSome result (λ found. IsSound (meant_valued found)) }
{
    let kind = operated(op, &one.ty, &other.ty)?;
    let left = one.value.number()?;
    let right = other.value.number()?;
    in_kind(op, kind, left, right)
}

/// What an operator gives for one constant, in its type: nothing where it does not take it.
#[tactic(auto, using(cm_types::specs::Meant::meant_types))]
pub fn operate_alone(op: Unary, one: &Valued) -> Option<Valued>
    ensures value { option_map meant_valued result ≡ rules.operate_alone op (meant_valued one.now) }
    ensures sound { IfSome result (λ found. IsSound (meant_valued found)) }
{
    let kind = operated_alone(op, &one.ty)?;
    let number = computed_alone(op, one.value.number()?, bits(kind));
    Some(converted(kind, number))
}
