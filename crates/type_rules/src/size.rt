ghost use Rattle.std.specs.Prelude.{◌≡◌, ◌-◌, ◌^◌, min};
ghost use Rattle.cm_meaning.specs.Types as types;
ghost use Rattle.cm_types.specs.Meant.{meant_type, meant_fields};

use cm_types::{CmType, FieldType};

/// How many scalars a value of the type has, or 2^64 - 1 where there are more.
#[cycle(scalars)]
#[tactic(auto, using(cm_types::specs::Meant::meant_types, crate::proofs::Held::held_product), unfolding(cm_meaning::specs::Types::scalars))]
pub fn scalars(ty: &CmType) -> u64
    ensures { result ≡ min (types.scalars (meant_type ty.now)) (2 ^ 64 - 1) }
{
    match ty {
        CmType::Single(_) => 1,
        CmType::Array(count, element) => u64::from(*count).saturating_mul(scalars(element.get())),
        CmType::Record(_, fields) => scalars_of(fields.as_slice()),
    }
}

#[cycle(scalars)]
#[tactic(auto, using(cm_types::specs::Meant::meant_types), unfolding(cm_meaning::specs::Types::scalars_of))]
fn scalars_of(all: &[FieldType]) -> u64
    ensures { result ≡ min (types.scalars_of (meant_fields all.now)) (2 ^ 64 - 1) }
{
    let mut count: u64 = 0;
    let mut fields = all;
    while let Some((field, rest)) = fields.split_first() {
        count = count.saturating_add(scalars(&field.ty));
        fields = rest;
    }
    count
}
