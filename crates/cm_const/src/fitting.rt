ghost use Rattle.std.specs.Prelude.{◌≡◌, option_map, IfOk};
ghost use Rattle.cm_base.specs.HostEnds.{IsLawfulScalar};
ghost use Rattle.cm_meaning.specs.Conversions as rules;
ghost use Rattle.cm_meaning.specs.Types.{Single};
ghost use Rattle.cm_types.specs.Lawful.{IsLawfulType};
ghost use Rattle.cm_types.specs.Meant.{meant_type, meant_value, meant_valued};

use cm_base::{NoMemory, Scalar};
use cm_types::{CmType, Value, Valued};
use std::alloc::Global;
use type_rules::{converts, is_number, is_same, scalar_value};

/// The number of a constant, where its type is a number type.
pub fn known(one: &Valued) -> Option<i64>
    ensures { result ≡ rules.known (meant_valued one.now) }
{
    if is_number(&one.ty) {
        one.value.number()
    } else {
        None
    }
}

/// A number or a truth value as one of another such type.
pub fn cast(kind: Scalar, value: &Value) -> Option<Value>
    requires { IsLawfulScalar kind }
    ensures { option_map meant_value result ≡ rules.cast (Single kind) (meant_value value.now) }
{
    let number = value.number()?;
    Some(scalar_value(kind, number))
}

#[tactic(auto, using(cm_types::specs::Meant::meant_types))]
fn cast_to(ty: &CmType, value: &Value) -> Option<Value>
    requires { IsLawfulType (meant_type ty.now) }
    ensures { option_map meant_value result ≡ rules.cast (meant_type ty.now) (meant_value value.now) }
{
    match ty {
        CmType::Single(kind) => cast(*kind, value),
        CmType::Array(_, _) | CmType::Record(_, _) => None,
    }
}

/// A constant as a value of the type that is needed, where it converts to it.
pub fn fitted(alloc: Global, ty: &CmType, one: &Valued) -> Result<Option<Value>, NoMemory>
    requires { IsLawfulType (meant_type ty.now) }
    ensures { IfOk result (λ found. option_map meant_value found ≡ rules.fitted (meant_type ty.now) (meant_valued one.now)) }
{
    if is_same(&one.ty, ty) {
        return Ok(Some(one.value.copy(alloc)?));
    }
    if !converts(&one.ty, ty, known(one)) {
        return Ok(None);
    }
    Ok(cast_to(ty, &one.value))
}
