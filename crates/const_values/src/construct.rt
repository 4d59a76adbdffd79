ghost use Rattle.std.specs.Prelude.{◌≡◌, true, Some, length, map, IfOk};
ghost use Rattle.cm_base.specs.HostEnds.{IsLawfulScalar};
ghost use Rattle.cm_meaning.specs.Constants as constants;
ghost use Rattle.cm_meaning.specs.Conversions as rules;
ghost use Rattle.cm_meaning.specs.Types.{Single, Array};
ghost use Rattle.cm_meaning.specs.TypeRows as rows;
ghost use Rattle.cm_types.specs.Lawful.{IsLawfulType, AreLawfulTypes, IsSound};
ghost use Rattle.cm_types.specs.Meant.{meant_type, meant_fields, meant_valued};
ghost use Rattle.const_values.specs.Arguments.{GivesMade, GivesComposed};
ghost use Rattle.const_values.specs.Construct.{meant_given, meant_givens, values_of, AreSound, IsFirst, parts_of_array, fit_faults, element_faults, field_faults, cast_fault, part_faults, made_faults, GivesValue, GivesValues};

use cm_base::{Cause, Fail, Items, Place, Scalar};
use cm_const::{cast, fitted};
use cm_types::{CmType, FieldType, Value, Valued};
use std::alloc::Global;
use type_rules::{copies, scalars, zero};

/// A constant that a value is made of, with the place of its expression's first token.
#[derive(Debug, Drop)]
pub struct Given {
    pub place: Place,
    pub one: Valued,
}

// A constant as a value of the type that is needed.
fn fit(alloc: Global, ty: &CmType, given: &Given) -> Result<Value, Fail>
    requires lawful { IsLawfulType (meant_type ty.now) }
    requires sound { IsSound (meant_valued given.now.one) }
    ensures { GivesValue (fit_faults (meant_type ty.now) (meant_given given.now)) (rules.fitted (meant_type ty.now) (meant_valued given.now.one)) result }
{
    let found = fitted(alloc, ty, &given.one)?;
    match found {
        Some(value) => Ok(value),
        None => Err(Fail::refused(alloc, Cause::TypeMismatch, given.place)),
    }
}

// `T(x)` of a number or truth type.
fn scalar(alloc: Global, kind: Scalar, given: &Given) -> Result<Value, Fail>
    requires lawful { IsLawfulScalar kind }
    requires sound { IsSound (meant_valued given.now.one) }
    ensures { GivesValue (cast_fault (meant_given given.now)) (rules.cast (Single kind) (meant_given given.now).valued.value) result }
{
    match cast(kind, &given.one.value) {
        Some(value) => Ok(value),
        None => Err(Fail::refused(alloc, Cause::TypeMismatch, given.place)),
    }
}

// One value for each element.
fn elements(alloc: Global, ty: &CmType, given: &[Given]) -> Result<Items<Value>, Fail>
    requires lawful { IsLawfulType (meant_type ty.now) }
    requires sound { AreSound (meant_givens given.now) }
    ensures { GivesValues (element_faults (meant_type ty.now) (meant_givens given.now)) (constants.elements (meant_type ty.now) (values_of (meant_givens given.now))) result }
{
    let mut all = Vec::with_capacity(alloc, given.len())?;
    let mut left = given;
    while let Some((one, rest)) = left.split_first() {
        all.push(fit(alloc, ty, one)?)?;
        left = rest;
    }
    Ok(Items::from_vec(all))
}

// One value for each field.
fn structure(alloc: Global, fields: &[FieldType], given: &[Given]) -> Result<Items<Value>, Fail>
    requires lawful { AreLawfulTypes (meant_fields fields.now) }
    requires sound { AreSound (meant_givens given.now) }
    requires count { length given.now ≡ length fields.now }
    ensures { GivesValues (field_faults (meant_fields fields.now) (meant_givens given.now)) (constants.field_values (meant_fields fields.now) (values_of (meant_givens given.now))) result }
{
    let mut all = Vec::with_capacity(alloc, given.len())?;
    let mut left = given;
    let mut types = fields;
    loop {
        let Some((one, rest)) = left.split_first() else {
            return Ok(Items::from_vec(all));
        };
        let Some((field, others)) = types.split_first() else {
            return Ok(Items::from_vec(all));
        };
        all.push(fit(alloc, &field.ty, one)?)?;
        left = rest;
        types = others;
    }
}

// One value for each element, or one for all of them.
fn array(
    alloc: Global,
    count: u32,
    ty: &CmType,
    first: &Given,
    given: &[Given],
) -> Result<Items<Value>, Fail>
    requires lawful { IsLawfulType (meant_type ty.now) }
    requires sound { AreSound (meant_givens given.now) }
    requires first { IsFirst first.now given.now }
    ensures { GivesValues (element_faults (meant_type ty.now) (meant_givens given.now)) (parts_of_array count (meant_type ty.now) (values_of (meant_givens given.now))) result }
{
    if given.len() == 1 {
        let value = fit(alloc, ty, first)?;
        return Ok(copies(alloc, count, &value)?);
    }
    elements(alloc, ty, given)
}

// The value of a type that is made of as many constants as it may be made of.
fn constructed(alloc: Global, ty: &CmType, given: &[Given]) -> Result<Value, Fail>
    requires lawful { IsLawfulType (meant_type ty.now) }
    requires sound { AreSound (meant_givens given.now) }
    requires count { rows.takes_count (meant_type ty.now) (length given.now) ≡ true }
    ensures { GivesValue (part_faults (meant_type ty.now) (meant_givens given.now)) (constants.constructed (meant_type ty.now) (values_of (meant_givens given.now))) result }
{
    let Some((first, _)) = given.split_first() else {
        return Ok(zero(alloc, ty)?);
    };
    match ty {
        CmType::Single(kind) => scalar(alloc, *kind, first),
        CmType::Array(count, element) => Ok(Value::Many(array(
            alloc,
            *count,
            element.get(),
            first,
            given,
        )?)),
        CmType::Record(_, fields) => Ok(Value::Many(structure(alloc, fields.as_slice(), given)?)),
    }
}

#[tactic(auto, using(cm_types::specs::Meant::meant_types, crate::proofs::Fits::counted_fields))]
fn takes_count(ty: &CmType, count: usize) -> bool
    ensures { result ≡ rows.takes_count (meant_type ty.now) count }
{
    match ty {
        CmType::Single(_) => count <= 1,
        CmType::Array(size, _) => count <= 1 || count == *size as usize,
        CmType::Record(_, fields) => count == 0 || count == fields.len(),
    }
}

/// A value of a type that is made of constants: `T()` is its zero, a number or truth value is converted, an array takes one
/// value for all elements or one for each, and a struct one for each field. `at` is the place of the type. The type is one
/// that a patch can have, so its size is bounded.
pub fn made(alloc: Global, at: Place, ty: CmType, given: &[Given]) -> Result<Valued, Fail>
    requires lawful { IsLawfulType (meant_type ty) }
    requires small { rows.is_small (meant_type ty) ≡ true }
    requires sound { AreSound (meant_givens given.now) }
    ensures told { GivesMade at (meant_type ty) (meant_givens given.now) result }
    ensures sound { IfOk result (λ found. IsSound (meant_valued found)) }
{
    if !takes_count(&ty, given.len()) {
        return Err(Fail::refused(alloc, Cause::ConstructCount, at));
    }
    let value = constructed(alloc, &ty, given)?;
    Ok(Valued { ty, value })
}

/// Whether a type has no more scalars than one may have.
pub fn is_small(ty: &CmType) -> bool
    ensures { result ≡ rows.is_small (meant_type ty.now) }
{
    scalars(ty) <= 1_048_576
}

/// The same of a type that is written at the place, and may have too many scalars.
pub fn composed(alloc: Global, at: Place, ty: CmType, given: &[Given]) -> Result<Valued, Fail>
    requires lawful { IsLawfulType (meant_type ty) }
    requires sound { AreSound (meant_givens given.now) }
    ensures told { GivesComposed at (meant_type ty) (meant_givens given.now) result }
    ensures sound { IfOk result (λ found. IsSound (meant_valued found)) }
{
    if !is_small(&ty) {
        return Err(Fail::refused(alloc, Cause::TooManyElements, at));
    }
    made(alloc, at, ty, given)
}
