ghost use Rattle.std.specs.Prelude.{◌≡◌, ◌<◌, ◌≤◌, ◌^◌, ◌∷◌, [], length, nat_le, reverse, slice_get, IfOk, if◌then◌else◌};
ghost use Rattle.std.specs.List.{list_all};
ghost use Rattle.std.specs.Option.{option_copied};
ghost use Rattle.wasm_tree.specs.Meaning.{load_size as the_load_size, load_type as the_load_type, store_size as the_store_size, store_type as the_store_type};
ghost use Rattle.wasm_tree.specs.Typed.{result_types, convert_from, convert_to};
ghost use Rattle.wasm_tree.specs.declared.module.ValType.TheVariants.{I32, I64};
ghost use Rattle.wasm_valid.specs.Checking.{acted, if_given, labels_of, takes_along, Ends, Takes, Wrong};
ghost use Rattle.wasm_valid.specs.Frames.{changed, Tells};

use crate::operands::Operands;
use std::alloc::AllocError;
use wasm_tree::{ConvertOp, FuncType, GlobalVar, LabelTable, LoadOp, MemArg, StoreOp, ValType};

/// How many bytes a load reads.
fn load_size(op: LoadOp) -> u32
    ensures { result ≡ the_load_size op }
{
    match op {
        LoadOp::I32 => 4,
        LoadOp::I64 => 8,
        LoadOp::I32Signed8 => 1,
        LoadOp::I32Unsigned8 => 1,
        LoadOp::I32Signed16 => 2,
        LoadOp::I32Unsigned16 => 2,
        LoadOp::I64Signed8 => 1,
        LoadOp::I64Unsigned8 => 1,
        LoadOp::I64Signed16 => 2,
        LoadOp::I64Unsigned16 => 2,
        LoadOp::I64Signed32 => 4,
        LoadOp::I64Unsigned32 => 4,
    }
}

fn load_type(op: LoadOp) -> ValType
    ensures { result ≡ the_load_type op }
{
    match op {
        LoadOp::I32 => ValType::I32,
        LoadOp::I64 => ValType::I64,
        LoadOp::I32Signed8 => ValType::I32,
        LoadOp::I32Unsigned8 => ValType::I32,
        LoadOp::I32Signed16 => ValType::I32,
        LoadOp::I32Unsigned16 => ValType::I32,
        LoadOp::I64Signed8 => ValType::I64,
        LoadOp::I64Unsigned8 => ValType::I64,
        LoadOp::I64Signed16 => ValType::I64,
        LoadOp::I64Unsigned16 => ValType::I64,
        LoadOp::I64Signed32 => ValType::I64,
        LoadOp::I64Unsigned32 => ValType::I64,
    }
}

/// How many bytes a store writes.
fn store_size(op: StoreOp) -> u32
    ensures { result ≡ the_store_size op }
{
    match op {
        StoreOp::I32 => 4,
        StoreOp::I64 => 8,
        StoreOp::I32Low8 => 1,
        StoreOp::I32Low16 => 2,
        StoreOp::I64Low8 => 1,
        StoreOp::I64Low16 => 2,
        StoreOp::I64Low32 => 4,
    }
}

fn store_type(op: StoreOp) -> ValType
    ensures { result ≡ the_store_type op }
{
    match op {
        StoreOp::I32 => ValType::I32,
        StoreOp::I64 => ValType::I64,
        StoreOp::I32Low8 => ValType::I32,
        StoreOp::I32Low16 => ValType::I32,
        StoreOp::I64Low8 => ValType::I64,
        StoreOp::I64Low16 => ValType::I64,
        StoreOp::I64Low32 => ValType::I64,
    }
}

/// Whether a power of two isn't above so many bytes, at most eight.
#[tactic(auto, using(crate::proofs::AlignLemmas::aligned))]
fn is_aligned(align: u32, size: u32) -> bool
    requires { size ≤ 8 }
    ensures { result ≡ nat_le (2 ^ align) size }
{
    match align {
        0 => 1 <= size,
        1 => 2 <= size,
        2 => 4 <= size,
        3 => 8 <= size,
        _ => false,
    }
}

#[tactic(auto, using(crate::proofs::ActLemmas::takes_as, crate::proofs::ActLemmas::tested, crate::proofs::ActLemmas::untested))]
pub fn load(operands: &mut Operands, op: LoadOp, place: MemArg) -> Result<bool, AllocError>
    requires { 0 < length operands.old }
    ensures { IfOk result (λ told. Tells told (changed (acted (if nat_le (2 ^ place.align) (the_load_size op) then Takes (I32 ∷ []) (the_load_type op ∷ []) else Wrong)) operands.old) operands.new) }
{
    if !is_aligned(place.align, load_size(op)) {
        return Ok(false);
    }
    operands.takes(&[ValType::I32], Some(load_type(op)))
}

#[tactic(auto, using(crate::proofs::ActLemmas::takes_as, crate::proofs::ActLemmas::tested, crate::proofs::ActLemmas::untested))]
pub fn store(operands: &mut Operands, op: StoreOp, place: MemArg) -> Result<bool, AllocError>
    requires { 0 < length operands.old }
    ensures { IfOk result (λ told. Tells told (changed (acted (if nat_le (2 ^ place.align) (the_store_size op) then Takes (the_store_type op ∷ I32 ∷ []) [] else Wrong)) operands.old) operands.new) }
{
    if !is_aligned(place.align, store_size(op)) {
        return Ok(false);
    }
    operands.takes(&[store_type(op), ValType::I32], None)
}

/// Takes and gives what a conversion does.
#[tactic(auto, using(crate::proofs::ActLemmas::takes_as))]
pub fn convert(operands: &mut Operands, op: ConvertOp) -> Result<bool, AllocError>
    requires { 0 < length operands.old }
    ensures { IfOk result (λ told. Tells told (changed (acted (Takes (convert_from op ∷ []) (convert_to op ∷ []))) operands.old) operands.new) }
{
    match op {
        ConvertOp::WrapI64 => operands.takes(&[ValType::I64], Some(ValType::I32)),
        ConvertOp::ExtendI32Signed => operands.takes(&[ValType::I32], Some(ValType::I64)),
        ConvertOp::ExtendI32Unsigned => operands.takes(&[ValType::I32], Some(ValType::I64)),
    }
}

/// Takes an operand of the type, if there is one, after which no instruction is reached.
#[tactic(auto, using(crate::proofs::ActLemmas::ends_as))]
pub fn ends_with(operands: &mut Operands, ty: Option<ValType>) -> bool
    requires { 0 < length operands.old }
    ensures { Tells result (changed (acted (Ends (result_types ty))) operands.old) operands.new }
{
    match ty {
        None => operands.ends(&[]),
        Some(ty) => operands.ends(&[ty]),
    }
}

/// Takes an `i32` and an operand of the type, if there is one, after which no instruction is reached.
#[tactic(auto, using(crate::proofs::ActLemmas::ends_as))]
fn ends_chosen(operands: &mut Operands, ty: Option<ValType>) -> bool
    requires { 0 < length operands.old }
    ensures { Tells result (changed (acted (Ends (I32 ∷ result_types ty))) operands.old) operands.new }
{
    match ty {
        None => operands.ends(&[ValType::I32]),
        Some(ty) => operands.ends(&[ValType::I32, ty]),
    }
}

/// A branch that is always taken.
#[tactic(auto, using(crate::proofs::ActLemmas::lacking, crate::proofs::ActLemmas::given))]
pub fn branch(operands: &mut Operands, label: u32) -> bool
    requires { 0 < length operands.old }
    ensures { Tells result (changed (acted (if_given (slice_get (labels_of operands.old) label) (λ t. Ends (result_types t)))) operands.old) operands.new }
{
    match operands.label(label) {
        None => false,
        Some(ty) => ends_with(operands, ty),
    }
}

/// A branch that isn't always taken.
#[tactic(auto, using(crate::proofs::ActLemmas::lacking, crate::proofs::ActLemmas::given, crate::proofs::ActLemmas::takes_as))]
pub fn branch_if(operands: &mut Operands, label: u32) -> Result<bool, AllocError>
    requires { 0 < length operands.old }
    ensures { IfOk result (λ told. Tells told (changed (acted (if_given (slice_get (labels_of operands.old) label) (λ t. Takes (I32 ∷ result_types t) (result_types t)))) operands.old) operands.new) }
{
    match operands.label(label) {
        None => Ok(false),
        Some(None) => operands.takes(&[ValType::I32], None),
        Some(Some(ty)) => operands.takes(&[ValType::I32, ty], Some(ty)),
    }
}

/// A call of a function of this type, if it is there.
#[tactic(auto, using(crate::proofs::ActLemmas::lacking, crate::proofs::ActLemmas::given, crate::proofs::ActLemmas::takes_as))]
pub fn call(operands: &mut Operands, ty: Option<&FuncType>) -> Result<bool, AllocError>
    requires { 0 < length operands.old }
    ensures { IfOk result (λ told. Tells told (changed (acted (if_given (option_copied ty.entry) (λ type. Takes (reverse type.params) (reverse type.results)))) operands.old) operands.new) }
{
    match ty {
        None => Ok(false),
        Some(ty) => operands.calls(ty.params.as_slice(), ty.results.as_slice()),
    }
}

/// Reads a local of this type, if it is there.
#[tactic(auto, using(crate::proofs::ActLemmas::lacking, crate::proofs::ActLemmas::given, crate::proofs::ActLemmas::takes_as))]
pub fn get(operands: &mut Operands, ty: Option<ValType>) -> Result<bool, AllocError>
    requires { 0 < length operands.old }
    ensures { IfOk result (λ told. Tells told (changed (acted (if_given ty (λ t. Takes [] (t ∷ [])))) operands.old) operands.new) }
{
    match ty {
        None => Ok(false),
        Some(ty) => operands.takes(&[], Some(ty)),
    }
}

/// Writes a local of this type, if it is there.
#[tactic(auto, using(crate::proofs::ActLemmas::lacking, crate::proofs::ActLemmas::given, crate::proofs::ActLemmas::takes_as))]
pub fn set(operands: &mut Operands, ty: Option<ValType>) -> Result<bool, AllocError>
    requires { 0 < length operands.old }
    ensures { IfOk result (λ told. Tells told (changed (acted (if_given ty (λ t. Takes (t ∷ []) []))) operands.old) operands.new) }
{
    match ty {
        None => Ok(false),
        Some(ty) => operands.takes(&[ty], None),
    }
}

/// Writes a local of this type, if it is there, and keeps the operand.
#[tactic(auto, using(crate::proofs::ActLemmas::lacking, crate::proofs::ActLemmas::given, crate::proofs::ActLemmas::takes_as))]
pub fn tee(operands: &mut Operands, ty: Option<ValType>) -> Result<bool, AllocError>
    requires { 0 < length operands.old }
    ensures { IfOk result (λ told. Tells told (changed (acted (if_given ty (λ t. Takes (t ∷ []) (t ∷ [])))) operands.old) operands.new) }
{
    match ty {
        None => Ok(false),
        Some(ty) => operands.takes(&[ty], Some(ty)),
    }
}

/// Reads a global, if it is there.
#[tactic(auto, using(crate::proofs::ActLemmas::lacking, crate::proofs::ActLemmas::given, crate::proofs::ActLemmas::takes_as))]
pub fn get_global(operands: &mut Operands, global: Option<&GlobalVar>) -> Result<bool, AllocError>
    requires { 0 < length operands.old }
    ensures { IfOk result (λ told. Tells told (changed (acted (if_given (option_copied global.entry) (λ var. Takes [] (var.ty ∷ [])))) operands.old) operands.new) }
{
    match global {
        None => Ok(false),
        Some(global) => operands.takes(&[], Some(global.ty)),
    }
}

/// Writes a global, if it is there and may be written.
#[tactic(auto, using(crate::proofs::ActLemmas::lacking, crate::proofs::ActLemmas::given, crate::proofs::ActLemmas::takes_as, crate::proofs::ActLemmas::tested, crate::proofs::ActLemmas::untested))]
pub fn set_global(operands: &mut Operands, global: Option<&GlobalVar>) -> Result<bool, AllocError>
    requires { 0 < length operands.old }
    ensures { IfOk result (λ told. Tells told (changed (acted (if_given (option_copied global.entry) (λ var. if var.mutable then Takes (var.ty ∷ []) [] else Wrong))) operands.old) operands.new) }
{
    match global {
        None => Ok(false),
        Some(global) => {
            if !global.mutable {
                return Ok(false);
            }
            operands.takes(&[global.ty], None)
        }
    }
}

/// Whether each of these labels takes along what the other does.
fn take_along(operands: &Operands, labels: &[u32], ty: Option<ValType>) -> bool
    ensures { result ≡ list_all (takes_along (labels_of operands.now) ty) labels.now }
{
    labels.iter().all(|label| takes(operands, *label, ty))
}

/// Whether a branch to the label takes this along.
fn takes(operands: &Operands, label: u32, ty: Option<ValType>) -> bool
    ensures { result ≡ takes_along (labels_of operands.now) ty label }
{
    match (operands.label(label), ty) {
        (Some(None), None) => true,
        (Some(Some(ValType::I32)), Some(ValType::I32)) => true,
        (Some(Some(ValType::I64)), Some(ValType::I64)) => true,
        _ => false,
    }
}

/// A branch to one of several labels.
#[tactic(auto, using(crate::proofs::ActLemmas::lacking, crate::proofs::ActLemmas::given, crate::proofs::ActLemmas::tested, crate::proofs::ActLemmas::untested))]
pub fn branch_table(operands: &mut Operands, table: &LabelTable) -> bool
    requires { 0 < length operands.old }
    ensures { Tells result (changed (acted (if_given (slice_get (labels_of operands.old) table.now.other) (λ t. if list_all (takes_along (labels_of operands.old) t) table.now.labels then Ends (I32 ∷ result_types t) else Wrong))) operands.old) operands.new }
{
    match operands.label(table.other) {
        None => false,
        Some(ty) => {
            if !take_along(operands, table.labels.as_slice(), ty) {
                return false;
            }
            ends_chosen(operands, ty)
        }
    }
}
