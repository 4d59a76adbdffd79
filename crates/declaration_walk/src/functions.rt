//! Functions and handlers, whose parameters are a scope of their own.
ghost use Rattle.std.specs.Prelude.{[], ◌∷◌, ◌++◌, map, flat_map, OnOk};
ghost use Rattle.cm_meaning.specs.PatchSites.{function_sites, handler_sites, in_function, in_handler, result_sites, typed_sites};
ghost use Rattle.cm_meaning.specs.Scopes.{parameter, scoped};
ghost use Rattle.declaration_walk.specs.Declares.{handled_sites, own_sites};
ghost use Rattle.scope_walk.specs.Steps.{Reads};

use crate::names::declare_parameters;
use cm_tree::{Block, Function, TypeExpr, Typed, Word};
use scope_walk::{Declaration, Part, Steps, walk_block, walk_type};
use std::alloc::AllocError;

fn walk_result<'a>(steps: &mut Steps<'a>, ty: &'a Option<TypeExpr>) -> Result<(), AllocError>
    ensures { OnOk result (Reads steps.old steps.new (λ r. result_sites r ty.now)) }
{
    match ty {
        None => Ok(()),
        Some(ty) => walk_type(steps, ty),
    }
}

fn walk_typed<'a>(steps: &mut Steps<'a>, params: &'a [Typed]) -> Result<(), AllocError>
    ensures { OnOk result (Reads steps.old steps.new (λ r. flat_map (typed_sites r) params.now)) }
{
    for param in params {
        walk_type(steps, &param.ty)?;
    }
    Ok(())
}

// A function's types and its body, where its parameters are declared.
fn walk_in_function<'a>(steps: &mut Steps<'a>, function: &'a Function) -> Result<(), AllocError>
    ensures { OnOk result (Reads steps.old steps.new (λ r. own_sites r function.now)) }
{
    steps.meet(Part::Defines(function))?;
    walk_result(steps, &function.result)?;
    steps.meet_params(function.params.as_slice())?;
    walk_typed(steps, function.params.as_slice())?;
    walk_block(steps, &function.body)
}

fn walk_function_scope<'a>(steps: &mut Steps<'a>, function: &'a Function) -> Result<(), AllocError>
    ensures { OnOk result (Reads steps.old steps.new (λ r. in_function (scoped r (map (parameter r.home) function.now.params)) function.now)) }
{
    steps.enter()?;
    declare_parameters(steps, function.params.as_slice())?;
    walk_in_function(steps, function)?;
    steps.leave()
}

/// The steps of a function.
pub fn walk_function<'a>(steps: &mut Steps<'a>, function: &'a Function) -> Result<(), AllocError>
    ensures { OnOk result (Reads steps.old steps.new (λ r. function_sites r function.now)) }
{
    steps.enter_text(&function.name, Declaration::Function(function))?;
    walk_function_scope(steps, function)?;
    steps.leave_text()
}

// A handler's type and its body, where its parameter is declared.
fn walk_in_handler<'a>(
    steps: &mut Steps<'a>,
    param: &'a Typed,
    body: &'a Block,
) -> Result<(), AllocError>
    ensures { OnOk result (Reads steps.old steps.new (λ r. handled_sites r param.now body.now)) }
{
    steps.meet_param(param)?;
    walk_type(steps, &param.ty)?;
    walk_block(steps, body)
}

fn walk_handler_scope<'a>(
    steps: &mut Steps<'a>,
    param: &'a Typed,
    body: &'a Block,
) -> Result<(), AllocError>
    ensures { OnOk result (Reads steps.old steps.new (λ r. in_handler (scoped r (parameter r.home param.now ∷ [])) param.now body.now)) }
{
    steps.enter()?;
    steps.declare(&param.name, Declaration::Parameter(&param.ty))?;
    walk_in_handler(steps, param, body)?;
    steps.leave()
}

/// The steps of a handler of this event input.
pub fn walk_handler<'a>(
    steps: &mut Steps<'a>,
    input: &'a Word,
    param: &'a Typed,
    body: &'a Block,
) -> Result<(), AllocError>
    ensures { OnOk result (Reads steps.old steps.new (λ r. handler_sites r input.now param.now body.now)) }
{
    steps.meet(Part::Handles(input))?;
    walk_handler_scope(steps, param, body)
}
