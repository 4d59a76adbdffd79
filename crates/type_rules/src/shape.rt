ghost use Rattle.std.specs.Prelude.{◌≡◌, ◌++◌, IfOk, OnOk};
ghost use Rattle.cm_meaning.specs.Types as types;
ghost use Rattle.cm_types.specs.Meant.{meant_type, meant_fields};

use cm_base::{Items, NoMemory, Scalar, Shape};
use cm_types::{CmType, FieldType};
use std::alloc::Global;

/// The kinds of the scalars of a type, from left to right.
pub fn flat(alloc: Global, ty: &CmType) -> Result<Shape, NoMemory>
    ensures { IfOk result (λ shape. shape ≡ types.flat (meant_type ty.now)) }
{
    let mut kinds = Vec::new(alloc);
    append_type(alloc, ty, &mut kinds)?;
    Ok(Items::from_vec(kinds))
}

#[cycle(flat)]
#[tactic(auto, using(cm_types::specs::Meant::meant_types), unfolding(cm_meaning::specs::Types::flat))]
fn append_type(alloc: Global, ty: &CmType, kinds: &mut Vec<Scalar>) -> Result<(), NoMemory>
    ensures { OnOk result (kinds.new.items ≡ kinds.old.items ++ types.flat (meant_type ty.now)) }
{
    match ty {
        CmType::Single(kind) => {
            kinds.push(*kind)?;
            Ok(())
        }
        CmType::Array(count, element) => {
            let mut block = Vec::new(alloc);
            append_type(alloc, element.get(), &mut block)?;
            append_times(*count, &block, kinds)
        }
        CmType::Record(_, fields) => append_fields(alloc, fields.as_slice(), kinds),
    }
}

#[cycle(flat)]
#[tactic(auto, using(cm_types::specs::Meant::meant_types, crate::proofs::Lists::joined), unfolding(cm_meaning::specs::Types::flat_of))]
fn append_fields(alloc: Global, all: &[FieldType], kinds: &mut Vec<Scalar>) -> Result<(), NoMemory>
    ensures { OnOk result (kinds.new.items ≡ kinds.old.items ++ types.flat_of (meant_fields all.now)) }
{
    let mut fields = all;
    while let Some((field, rest)) = fields.split_first() {
        append_type(alloc, &field.ty, kinds)?;
        fields = rest;
    }
    Ok(())
}

// A block some times over. An empty block is nothing however often it stands.
#[tactic(auto, using(crate::proofs::Lists::blocks))]
fn append_times(count: u32, block: &[Scalar], kinds: &mut Vec<Scalar>) -> Result<(), NoMemory>
    ensures { OnOk result (kinds.new.items ≡ kinds.old.items ++ types.times count block.now) }
{
    if block.is_empty() {
        return Ok(());
    }
    let mut left = count;
    while left > 0 {
        kinds.extend_from_slice(block)?;
        left -= 1;
    }
    Ok(())
}
