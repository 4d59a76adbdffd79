ghost use Rattle.std.specs.Prelude.{◌≡◌, option_map, IfOk};
ghost use Rattle.cm_meaning.specs.Constants.{element_of};
ghost use Rattle.cm_meaning.specs.TypeOf as types;
ghost use Rattle.cm_types.specs.Lawful.{IsSound};
ghost use Rattle.cm_types.specs.Meant.{meant_type, meant_value, meant_valued};
ghost use Rattle.const_values.specs.Answers.{Gives};
ghost use Rattle.const_values.specs.Elements as elements;

use cm_base::{Cause, Fail, Place};
use cm_number::floor_mod;
use cm_types::{CmType, Value, Valued};
use std::alloc::Global;
use type_rules::is_number;

#[tactic(auto, using(cm_types::specs::Meant::meant_types))]
fn element_type(ty: &CmType) -> Option<&CmType>
    ensures { option_map (λ t. meant_type t.now) result ≡ types.element_type (meant_type ty.now) }
{
    match ty {
        CmType::Array(_, element) => Some(element.get()),
        CmType::Single(_) | CmType::Record(_, _) => None,
    }
}

// How many elements an array has.
#[tactic(auto, using(cm_types::specs::Meant::meant_types))]
fn array_count(ty: &CmType) -> u32
    ensures { result ≡ elements.array_count (meant_type ty.now) }
{
    match ty {
        CmType::Array(count, _) => *count,
        CmType::Single(_) | CmType::Record(_, _) => 0,
    }
}

#[tactic(auto, using(cm_types::specs::Meant::meant_scalars))]
fn part_at(value: &Value, position: u32) -> Option<&Value>
    ensures { option_map (λ v. meant_value v.now) result ≡ elements.part_at (meant_value value.now) position }
{
    match value {
        Value::Many(all) => all.get(position as usize),
        Value::Number(_) | Value::Truth(_) => None,
    }
}

// The element at a number, where there is one.
fn at_number(one: &Valued, number: i64) -> Option<&Value>
    ensures { option_map (λ v. meant_value v.now) result ≡ elements.at_number (meant_valued one.now) number }
{
    let count = array_count(&one.ty);
    if count == 0 {
        return None;
    }
    let position = floor_mod(number, count);
    if i64::from(position) != number {
        return None;
    }
    part_at(&one.value, position)
}

fn indexed<'a>(one: &'a Valued, index: &Valued) -> Option<&'a Value>
    ensures { option_map (λ v. meant_value v.now) result ≡ elements.indexed_value (meant_valued one.now) (meant_valued index.now) }
{
    match index.value.number() {
        Some(number) => at_number(one, number),
        None => None,
    }
}

/// The element of a constant array at a constant index. `at` is the place of the selection, and `place` that of the index.
pub fn element(
    alloc: Global,
    at: Place,
    place: Place,
    one: &Valued,
    index: &Valued,
) -> Result<Valued, Fail>
    requires one { IsSound (meant_valued one.now) }
    requires index { IsSound (meant_valued index.now) }
    ensures told { Gives (elements.index_faults at place (meant_valued one.now) (meant_valued index.now)) (element_of (meant_valued one.now) (meant_valued index.now)) (types.element_type (meant_type one.now.ty)) result }
    ensures sound { IfOk result (λ found. IsSound (meant_valued found)) }
{
    let Some(ty) = element_type(&one.ty) else {
        return Err(Fail::refused(alloc, Cause::NotIndexable, at));
    };
    if !is_number(&index.ty) {
        return Err(Fail::refused(alloc, Cause::TypeMismatch, place));
    }
    let Some(value) = indexed(one, index) else {
        return Err(Fail::refused(alloc, Cause::IndexRange, place));
    };
    Ok(Valued {
        ty: ty.copy(alloc)?,
        value: value.copy(alloc)?,
    })
}
