ghost use Rattle.std.specs.Prelude.{◌≡◌, ◌≤◌, ◌<◌, ◌↔◌, ℕ, length, slice_get, IfOk, IfSome, IsTrue, None, Some};
ghost use Rattle.wasm_tree.specs.Control.{IsClosed};
ghost use Rattle.wasm_tree.specs.Host.{HasImport};
ghost use Rattle.wasm_tree.specs.Spelled.{count_of_locals, most_locals};
ghost use Rattle.wasm_tree.specs.Valid.{AreFunctionsIndexed, AreBodiesTyped, AreBodiesWithinLimits, HaveFewResults, IsBody};
ghost use Rattle.wasm_tree.specs.Numbers.{type_at};
ghost use Rattle.wasm_valid.specs.Bodies.{context_of, result_one, IsTypedAt};
ghost use Rattle.wasm_valid.specs.RoomsOf.{IsNeedAt, AreNeedsOf};
ghost use Rattle.wasm_valid.specs.Checking.{Stays, at_begin};

use crate::body::{Need, Scope, checked};
use crate::locals::put_ends;
use crate::operands::Operands;
use std::alloc::{AllocError, Global};
use wasm_tree::{FuncBody, FuncType, Module, ValType};

/// What a function with these results gives, which are one at most.
fn gives_of(results: &[ValType]) -> Option<ValType>
    ensures { result ≡ result_one results.now }
{
    match results {
        [] => None,
        [ty, ..] => Some(*ty),
    }
}

/// What a function of this type with this body holds at most, if the body is typed.
#[tactic(auto, using(crate::proofs::BodyTypes::accepted_typed, crate::proofs::BodyTypes::typed_accepted))]
pub fn need_of(
    operands: &mut Operands,
    ends: &mut Vec<u64>,
    module: &Module,
    ty: &FuncType,
    body: &FuncBody,
) -> Result<Option<Need>, AllocError>
    requires import { HasImport «module».now }
    requires indexed { AreFunctionsIndexed «module».now }
    requires few { length ty.now.results ≤ 1 }
    requires locals { count_of_locals body.now.locals ≤ most_locals }
    requires closed { IsClosed body.now.code }
    // The body is typed, and holds no more.
    ensures typed { IfOk result (λ need. IfSome need (λ need. IsBody «module».now ty.now body.now)) }
    ensures bounded { IfOk result (λ need. IfSome need (λ need. Stays (context_of «module».now ty.now body.now.locals) (result_one ty.now.results) need.cells need.marks (at_begin (result_one ty.now.results)) body.now.code)) }
    ensures untyped { IfOk result (λ need. need ≡ None → ¬ IsBody «module».now ty.now body.now) }
{
    put_ends(ends, body.locals.as_slice())?;
    let gives = gives_of(ty.results.as_slice());
    let scope = Scope {
        module,
        ty,
        gives,
        runs: body.locals.as_slice(),
        ends,
    };
    checked(operands, &scope, body.code.as_slice())
}

/// The type of the function whose body has this place among the bodies.
#[tactic(auto, using(crate::proofs::EachLemmas::number_there, crate::proofs::EachLemmas::type_of_number))]
pub fn body_type(module: &Module, at: usize) -> &FuncType
    requires there { at < length «module».now.functions }
    requires indexed { AreFunctionsIndexed «module».now }
    ensures { (t : ℕ) → slice_get «module».now.functions at ≡ Some t → result.now ≡ type_at «module».now t }
{
    let number = module.functions.as_slice()[at] as usize;
    &module.types.as_slice()[number]
}

/// What the function with this place among the module's own holds at most, if its body is typed.
#[tactic(auto, using(crate::proofs::EachLemmas::locals_at, crate::proofs::EachLemmas::closed_at, crate::proofs::EachLemmas::typed_here, crate::proofs::EachLemmas::untyped_here, crate::proofs::NeedLemmas::need_here))]
fn need_at(
    operands: &mut Operands,
    ends: &mut Vec<u64>,
    module: &Module,
    at: usize,
) -> Result<Option<Need>, AllocError>
    requires import { HasImport «module».now }
    requires indexed { AreFunctionsIndexed «module».now }
    requires types { HaveFewResults «module».now }
    requires limits { AreBodiesWithinLimits «module».now }
    requires counts { length «module».now.functions ≡ length «module».now.codes }
    requires there { at < length «module».now.codes }
    ensures typed { IfOk result (λ need. IfSome need (λ need. IsTypedAt «module».now at)) }
    ensures bounded { IfOk result (λ need. IfSome need (λ need. IsNeedAt «module».now need at)) }
    ensures untyped { IfOk result (λ need. need ≡ None → ¬ IsTypedAt «module».now at) }
{
    let ty = body_type(module, at);
    let body = &module.codes.as_slice()[at];
    match need_of(operands, ends, module, ty, body)? {
        Some(need) => Ok(Some(need)),
        None => Ok(None),
    }
}

/// What each function holds at most, if each has a body of its type.
#[tactic(auto, using(crate::proofs::EachLemmas::all_typed, crate::proofs::EachLemmas::typed_each, crate::proofs::EachLemmas::typed_more, crate::proofs::NeedLemmas::needs_more, crate::proofs::NeedLemmas::needs_none))]
pub fn needs_of(alloc: Global, module: &Module) -> Result<Option<Vec<Need>>, AllocError>
    requires import { HasImport «module».now }
    requires indexed { AreFunctionsIndexed «module».now }
    requires types { HaveFewResults «module».now }
    requires limits { AreBodiesWithinLimits «module».now }
    requires counts { length «module».now.functions ≡ length «module».now.codes }
    ensures typed { IfOk result (λ needs. IfSome needs (λ needs. AreBodiesTyped «module».now)) }
    ensures needs { IfOk result (λ needs. IfSome needs (λ needs. AreNeedsOf «module».now needs.items)) }
    ensures all { IfOk result (λ needs. IfSome needs (λ needs. length needs.items ≡ length «module».now.codes)) }
    ensures untyped { IfOk result (λ needs. needs ≡ None → ¬ AreBodiesTyped «module».now) }
{
    let mut operands = Operands::new(alloc);
    let mut ends = Vec::new(alloc);
    let mut needs = Vec::new(alloc);
    for at in 0..module.codes.len() {
        match need_at(&mut operands, &mut ends, module, at)? {
            Some(need) => needs.push(need)?,
            None => return Ok(None),
        }
    }
    Ok(Some(needs))
}
