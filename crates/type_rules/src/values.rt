ghost use Rattle.std.specs.Prelude.{◌≡◌, IfOk};
ghost use Rattle.cm_base.specs.HostEnds.{IsLawfulScalar};
ghost use Rattle.cm_meaning.specs.Types as types;
ghost use Rattle.cm_types.specs.Lawful.{IsLawfulType, AreLawfulTypes};
ghost use Rattle.cm_types.specs.Meant.{meant_type, meant_fields, meant_value, meant_values};

use cm_base::{Items, NoMemory, Scalar};
use cm_scalar::convert;
use cm_types::{CmType, FieldType, Value};
use std::alloc::Global;

/// The scalar of a kind that a number is converted to.
#[tactic(auto, using(cm_types::specs::Meant::meant_scalars), unfolding(cm_number::specs::Conversion::to_bool))]
pub fn scalar_value(kind: Scalar, number: i64) -> Value
    requires { IsLawfulScalar kind }
    ensures { meant_value result ≡ types.scalar_value kind number }
{
    match kind {
        Scalar::Bool => Value::Truth(number != 0),
        Scalar::Int32 | Scalar::Int64 | Scalar::Wrap(_) | Scalar::Clamp(_) => Value::Number(convert(
            number, kind,
        )),
    }
}

/// A value some times over.
#[tactic(auto, using(cm_types::specs::Meant::values_in_order, crate::proofs::Lists::counted_copies))]
pub fn copies(alloc: Global, count: u32, value: &Value) -> Result<Items<Value>, NoMemory>
    ensures { IfOk result (λ all. meant_values all ≡ types.copies count (meant_value value.now)) }
{
    let mut all = Vec::with_capacity(alloc, count as usize)?;
    let mut left = count;
    while left > 0 {
        all.push(value.copy(alloc)?)?;
        left -= 1;
    }
    Ok(Items::from_vec(all))
}

/// The zero of a type: zeros and `false` in all parts.
#[cycle(zero)]
#[tactic(auto, using(cm_types::specs::Meant::meant_types, cm_types::specs::Meant::meant_scalars), unfolding(cm_meaning::specs::Types::zero_of))]
pub fn zero(alloc: Global, ty: &CmType) -> Result<Value, NoMemory>
    requires { IsLawfulType (meant_type ty.now) }
    ensures { IfOk result (λ value. meant_value value ≡ types.zero_of (meant_type ty.now)) }
{
    match ty {
        CmType::Single(kind) => Ok(scalar_value(*kind, 0)),
        CmType::Array(count, element) => {
            let value = zero(alloc, element.get())?;
            Ok(Value::Many(copies(alloc, *count, &value)?))
        }
        CmType::Record(_, fields) => Ok(Value::Many(zeros_of(alloc, fields.as_slice())?)),
    }
}

#[cycle(zero)]
#[tactic(auto, using(cm_types::specs::Meant::meant_types, cm_types::specs::Meant::values_in_order), unfolding(cm_meaning::specs::Types::zeros_of))]
fn zeros_of(alloc: Global, all: &[FieldType]) -> Result<Items<Value>, NoMemory>
    requires { AreLawfulTypes (meant_fields all.now) }
    ensures { IfOk result (λ values. meant_values values ≡ types.zeros_of (meant_fields all.now)) }
{
    let mut values = Vec::with_capacity(alloc, all.len())?;
    let mut fields = all;
    while let Some((field, rest)) = fields.split_first() {
        values.push(zero(alloc, &field.ty)?)?;
        fields = rest;
    }
    Ok(Items::from_vec(values))
}
