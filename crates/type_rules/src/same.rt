ghost use Rattle.std.specs.Prelude.{◌≡◌, bytes_eq};
ghost use Rattle.cm_meaning.specs.Types as types;
ghost use Rattle.cm_types.specs.Meant.{meant_type, meant_fields};

use cm_base::{Place, Scalar};
use cm_types::{CmType, FieldType};

fn is_kind(one: Scalar, other: Scalar) -> bool
    ensures { result ≡ types.is_kind one other }
{
    match (one, other) {
        (Scalar::Int32, Scalar::Int32)
        | (Scalar::Int64, Scalar::Int64)
        | (Scalar::Bool, Scalar::Bool) => true,
        (Scalar::Wrap(count), Scalar::Wrap(size)) | (Scalar::Clamp(count), Scalar::Clamp(size)) =>
            count == size,
        _ => false,
    }
}

fn is_place(one: Place, other: Place) -> bool
    ensures { result ≡ types.is_place one other }
{
    one.file == other.file && one.line == other.line && one.column == other.column
}

/// Whether two types are the same: two structs are where their declaration and the types of all fields are.
#[cycle(same)]
#[tactic(auto, using(cm_types::specs::Meant::meant_types), unfolding(cm_meaning::specs::Types::is_same))]
pub fn is_same(one: &CmType, other: &CmType) -> bool
    ensures { result ≡ types.is_same (meant_type one.now) (meant_type other.now) }
{
    match one {
        CmType::Single(kind) => match other {
            CmType::Single(with) => is_kind(*kind, *with),
            CmType::Array(_, _) | CmType::Record(_, _) => false,
        },
        CmType::Array(count, element) => match other {
            CmType::Array(size, with) => count == size && is_same(element.get(), with.get()),
            CmType::Single(_) | CmType::Record(_, _) => false,
        },
        CmType::Record(declared, fields) => match other {
            CmType::Record(place, with) => is_place(*declared, *place)
                && are_same(fields.as_slice(), with.as_slice()),
            CmType::Single(_) | CmType::Array(_, _) => false,
        },
    }
}

#[cycle(same)]
#[tactic(auto, using(cm_types::specs::Meant::meant_types, crate::proofs::Fields::same_at_end), unfolding(cm_meaning::specs::Types::are_same))]
fn are_same(one: &[FieldType], other: &[FieldType]) -> bool
    ensures { result ≡ types.are_same (meant_fields one.now) (meant_fields other.now) }
{
    let mut fields = one;
    let mut others = other;
    loop {
        let Some((field, rest)) = fields.split_first() else {
            return others.is_empty();
        };
        let Some((with, more)) = others.split_first() else {
            return false;
        };
        if !(is_same_name(field, with) && is_same(&field.ty, &with.ty)) {
            return false;
        }
        fields = rest;
        others = more;
    }
}

fn is_same_name(one: &FieldType, other: &FieldType) -> bool
    ensures { result ≡ bytes_eq one.now.name other.now.name }
{
    one.name.as_bytes() == other.name.as_bytes()
}
