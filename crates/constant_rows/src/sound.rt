// Which types and values a patch can have: what the calls that rows try ask of their arguments.
ghost use Rattle.std.specs.Prelude.{◌≡◌, true};
ghost use Rattle.cm_base.specs.HostEnds.{IsLawfulScalar};
ghost use Rattle.cm_meaning.specs.Types as types;
ghost use Rattle.cm_meaning.specs.Types.{Single, Number, Truth};
ghost use Rattle.cm_meaning.specs.TypeRows as rows;
ghost use Rattle.cm_types.specs.Lawful.{IsLawfulType, AreLawfulTypes, IsSound};
ghost use Rattle.cm_types.specs.Meant.{meant_type, meant_fields, meant_value, meant_values, meant_valued};
ghost use Rattle.constant_rows.specs.Lawful as lawful;

use cm_base::Scalar;
use cm_types::{CmType, FieldType, Value, Valued};
use type_rules::{holds, scalars};

fn is_count(count: u32) -> bool
    ensures { result ≡ lawful.is_count count }
{
    count >= 1 && count <= 2_147_483_647
}

fn is_lawful_kind(kind: Scalar) -> bool
    ensures { result ≡ lawful.is_lawful_kind kind }
{
    match kind {
        Scalar::Int32 | Scalar::Int64 | Scalar::Bool => true,
        Scalar::Wrap(count) | Scalar::Clamp(count) => is_count(count),
    }
}

// Whether all counts in a type are such as a patch can have.
#[cycle(lawful)]
#[tactic(auto, using(cm_types::specs::Meant::meant_types), unfolding(crate::specs::Lawful::is_lawful))]
fn all_lawful(ty: &CmType) -> bool
    ensures { result ≡ lawful.is_lawful (meant_type ty.now) }
{
    match ty {
        CmType::Single(kind) => is_lawful_kind(*kind),
        CmType::Array(count, element) => is_count(*count) && all_lawful(element.get()),
        CmType::Record(_, fields) => are_lawful(fields.as_slice()),
    }
}

#[cycle(lawful)]
#[tactic(auto, using(cm_types::specs::Meant::meant_types), unfolding(crate::specs::Lawful::are_lawful))]
fn are_lawful(all: &[FieldType]) -> bool
    ensures { result ≡ lawful.are_lawful (meant_fields all.now) }
{
    let mut fields = all;
    loop {
        let Some((field, rest)) = fields.split_first() else {
            return true;
        };
        if !all_lawful(&field.ty) {
            return false;
        }
        fields = rest;
    }
}

#[tactic(auto, unfolding(cm_meaning::specs::Types::is_of))]
fn is_number_of(kind: Scalar, number: i64) -> bool
    requires { IsLawfulScalar kind }
    ensures { result ≡ types.is_of (Single kind) (Number number) }
{
    match kind {
        Scalar::Bool => false,
        Scalar::Int32 | Scalar::Int64 | Scalar::Wrap(_) | Scalar::Clamp(_) => holds(kind, number),
    }
}

#[tactic(auto, unfolding(cm_meaning::specs::Types::is_of))]
fn is_truth_of(kind: Scalar, truth: bool) -> bool
    ensures { result ≡ types.is_of (Single kind) (Truth truth) }
{
    match kind {
        Scalar::Bool => true,
        Scalar::Int32 | Scalar::Int64 | Scalar::Wrap(_) | Scalar::Clamp(_) => false,
    }
}

#[tactic(auto, using(cm_types::specs::Meant::meant_scalars), unfolding(cm_meaning::specs::Types::is_of))]
fn is_scalar_of(kind: Scalar, value: &Value) -> bool
    requires { IsLawfulScalar kind }
    ensures { result ≡ types.is_of (Single kind) (meant_value value.now) }
{
    match value {
        Value::Number(number) => is_number_of(kind, *number),
        Value::Truth(truth) => is_truth_of(kind, *truth),
        Value::Many(_) => false,
    }
}

/// Whether a patch can have a type.
#[tactic(auto, using(crate::proofs::Lawful::lawful))]
pub fn is_lawful(ty: &CmType) -> bool
    ensures told { result ≡ lawful.is_lawful (meant_type ty.now) }
    ensures lawful { result ≡ true → IsLawfulType (meant_type ty.now) }
{
    all_lawful(ty)
}

/// Whether a patch can have a type, and it has no more scalars than a type may have.
#[tactic(auto, using(crate::proofs::Lawful::small))]
pub fn is_sound_type(ty: &CmType) -> bool
    ensures told { result ≡ lawful.is_sound_type (meant_type ty.now) }
    ensures lawful { result ≡ true → IsLawfulType (meant_type ty.now) }
    ensures small { result ≡ true → rows.is_small (meant_type ty.now) ≡ true }
{
    is_lawful(ty) && scalars(ty) <= 1_048_576
}

// Whether a value is one of a type.
#[cycle(of)]
#[tactic(auto, using(cm_types::specs::Meant::meant_types, cm_types::specs::Meant::meant_scalars), unfolding(cm_meaning::specs::Types::is_of))]
fn is_of(ty: &CmType, value: &Value) -> bool
    requires { IsLawfulType (meant_type ty.now) }
    ensures { result ≡ types.is_of (meant_type ty.now) (meant_value value.now) }
{
    match ty {
        CmType::Single(kind) => is_scalar_of(*kind, value),
        CmType::Array(count, element) => match value {
            Value::Many(all) => are_elements(*count, element.get(), all.as_slice()),
            Value::Number(_) | Value::Truth(_) => false,
        },
        CmType::Record(_, fields) => match value {
            Value::Many(all) => are_fields(fields.as_slice(), all.as_slice()),
            Value::Number(_) | Value::Truth(_) => false,
        },
    }
}

#[cycle(of)]
#[tactic(auto, using(cm_types::specs::Meant::meant_types, cm_types::specs::Meant::meant_scalars, crate::proofs::Parts::counted_elements))]
fn are_elements(count: u32, ty: &CmType, all: &[Value]) -> bool
    requires { IsLawfulType (meant_type ty.now) }
    ensures { result ≡ types.are_elements count (meant_type ty.now) (meant_values all.now) }
{
    let mut left = count;
    let mut values = all;
    loop {
        let Some((value, rest)) = values.split_first() else {
            return left == 0;
        };
        if left == 0 {
            return false;
        }
        if !is_of(ty, value) {
            return false;
        }
        left -= 1;
        values = rest;
    }
}

#[cycle(of)]
#[tactic(auto, using(cm_types::specs::Meant::meant_types, cm_types::specs::Meant::meant_scalars, crate::proofs::Parts::fields_at_end), unfolding(cm_meaning::specs::Types::are_fields))]
fn are_fields(fields: &[FieldType], all: &[Value]) -> bool
    requires { AreLawfulTypes (meant_fields fields.now) }
    ensures { result ≡ types.are_fields (meant_fields fields.now) (meant_values all.now) }
{
    let mut types = fields;
    let mut values = all;
    loop {
        let Some((field, others)) = types.split_first() else {
            return values.is_empty();
        };
        let Some((value, rest)) = values.split_first() else {
            return false;
        };
        if !is_of(&field.ty, value) {
            return false;
        }
        types = others;
        values = rest;
    }
}

/// Whether a constant is a value of its type, and this one that a patch can have.
#[tactic(auto, using(crate::proofs::Lawful::sound))]
pub fn is_sound(one: &Valued) -> bool
    ensures told { result ≡ lawful.is_sound (meant_valued one.now) }
    ensures sound { result ≡ true → IsSound (meant_valued one.now) }
{
    is_lawful(&one.ty) && is_of(&one.ty, &one.value)
}
