ghost use Rattle.std.specs.Prelude.{◌≡◌, Some, option_and_then, IfOk};
ghost use Rattle.std.specs.Option.{IfSome};
ghost use Rattle.cm_base.specs.HostEnds.{IsCount};
ghost use Rattle.cm_meaning.specs.Constants as constants;
ghost use Rattle.cm_meaning.specs.Types.{number_of};
ghost use Rattle.cm_types.specs.Lawful.{IsLawfulType, IsSound};
ghost use Rattle.cm_types.specs.Meant.{meant_type, meant_value, meant_valued};
ghost use Rattle.const_values.specs.Sizes.{number_faults, GivesNumber, AreLawfulCounts, array_of};

use cm_base::{Boxed, Cause, Fail, Items, NoMemory, Place};
use cm_types::{CmType, Valued};
use std::alloc::Global;
use type_rules::is_number;

// A number as a count, which is 1 to 2^31 - 1.
fn count_number(number: i64) -> Option<u32>
    ensures value { result ≡ constants.count_number number }
    ensures lawful { IfSome result (λ count. IsCount count) }
{
    if 1 <= number && number < 0x8000_0000 {
        Some(number as u32)
    } else {
        None
    }
}

fn counted(one: &Valued) -> Option<u32>
    ensures value { result ≡ option_and_then constants.count_number (number_of (meant_value one.now.value)) }
    ensures lawful { IfSome result (λ count. IsCount count) }
{
    let number = one.value.number()?;
    count_number(number)
}

/// How many elements an array has, or values a `wrap` or `clamp`, by a constant at this place.
pub fn count_of(alloc: Global, at: Place, one: &Valued) -> Result<u32, Fail>
    requires { IsSound (meant_valued one.now) }
    ensures told { GivesNumber (number_faults at (meant_valued one.now)) (constants.count_in (Some (meant_valued one.now))) result }
    ensures lawful { IfOk result (λ count. IsCount count) }
{
    if !is_number(&one.ty) {
        return Err(Fail::refused(alloc, Cause::TypeMismatch, at));
    }
    match counted(one) {
        Some(count) => Ok(count),
        None => Err(Fail::refused(alloc, Cause::SizeRange, at)),
    }
}

/// Arrays of a type, the first count being that of the outermost one.
pub fn arrays(alloc: Global, element: CmType, counts: Items<u32>) -> Result<CmType, NoMemory>
    requires element { IsLawfulType (meant_type element) }
    requires counts { AreLawfulCounts counts }
    ensures ty { IfOk result (λ ty. meant_type ty ≡ array_of (meant_type element) counts) }
    ensures lawful { IfOk result (λ ty. IsLawfulType (meant_type ty)) }
{
    let mut ty = element;
    let mut left = counts;
    while let Some(count) = left.pop() {
        ty = CmType::Array(count, Boxed::new(alloc, ty)?);
    }
    Ok(ty)
}
