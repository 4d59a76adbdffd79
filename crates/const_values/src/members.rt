ghost use Rattle.std.specs.Prelude.{◌≡◌, bytes_eq, option_map, IfOk};
ghost use Rattle.cm_meaning.specs.Constants as constants;
ghost use Rattle.cm_meaning.specs.TypeOf.{member_type};
ghost use Rattle.cm_types.specs.Lawful.{IsSound};
ghost use Rattle.cm_types.specs.Meant.{meant_type, meant_fields, meant_values, meant_valued};
ghost use Rattle.const_values.specs.Answers.{Gives};
ghost use Rattle.const_values.specs.Members.{member_faults, lent_valued};

use cm_base::{Cause, Fail};
use cm_tree::Word;
use cm_types::{CmType, FieldType, Value, Valued};
use std::alloc::Global;

/// A part of a constant, where it stands.
#[derive(Clone, Copy)]
pub struct Lent<'a> {
    pub ty: &'a CmType,
    pub value: &'a Value,
}

fn is_named(field: &FieldType, name: &[u8]) -> bool
    ensures { result ≡ bytes_eq field.now.name name.now }
{
    field.name.as_bytes() == name
}

// The value of the first field with this name.
#[tactic(auto, using(cm_types::specs::Meant::meant_types, cm_types::specs::Meant::meant_scalars), unfolding(cm_meaning::specs::Constants::field_in))]
fn field_in<'a>(name: &[u8], all: &'a [FieldType], given: &'a [Value]) -> Option<Lent<'a>>
    ensures { option_map lent_valued result ≡ constants.field_in name.now (meant_fields all.now) (meant_values given.now) }
{
    let mut fields = all;
    let mut values = given;
    loop {
        let Some((field, others)) = fields.split_first() else {
            return None;
        };
        let Some((value, rest)) = values.split_first() else {
            return None;
        };
        if is_named(field, name) {
            return Some(Lent {
                ty: &field.ty,
                value,
            });
        }
        fields = others;
        values = rest;
    }
}

#[tactic(auto, using(cm_types::specs::Meant::meant_types, cm_types::specs::Meant::meant_scalars))]
fn field_of<'a>(name: &[u8], one: &'a Valued) -> Option<Lent<'a>>
    ensures { option_map lent_valued result ≡ constants.field_of name.now (meant_valued one.now) }
{
    match &one.ty {
        CmType::Record(_, fields) => match &one.value {
            Value::Many(all) => field_in(name, fields.as_slice(), all.as_slice()),
            Value::Number(_) | Value::Truth(_) => None,
        },
        CmType::Single(_) | CmType::Array(_, _) => None,
    }
}

/// The field of a constant struct, by its name where that is written.
pub fn field(alloc: Global, word: &Word, one: &Valued) -> Result<Valued, Fail>
    requires { IsSound (meant_valued one.now) }
    ensures told { Gives (member_faults word.now (meant_valued one.now)) (constants.field_of word.now.text (meant_valued one.now)) (member_type word.now.text (meant_type one.now.ty)) result }
    ensures sound { IfOk result (λ found. IsSound (meant_valued found)) }
{
    let Some(found) = field_of(word.text.as_bytes(), one) else {
        return Err(Fail::refused(alloc, Cause::NoMember, word.place));
    };
    Ok(Valued {
        ty: found.ty.copy(alloc)?,
        value: found.value.copy(alloc)?,
    })
}
