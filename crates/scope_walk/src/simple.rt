ghost use Rattle.std.specs.Prelude.{flat_map, map, OnOk};
ghost use Rattle.cm_meaning.specs.BodySites.{after_local, init_sites, local_sites, simple_sites, step_sites, target_sites, var_sites};
ghost use Rattle.cm_meaning.specs.Scopes.{declare_all, inferred_local, local_constant, typed_local};
ghost use Rattle.scope_walk.specs.Steps.{Reads, Walks};

use crate::exprs::{walk_call, walk_expr, walk_optional, walk_type};
use crate::steps::{Declaration, Part, Steps};
use cm_tree::{Init, Local, Simple, Step, Target, TypeExpr, Var};
use std::alloc::AllocError;

fn walk_step<'a>(steps: &mut Steps<'a>, step: &'a Step) -> Result<(), AllocError>
    ensures { OnOk result (Reads steps.old steps.new (λ r. step_sites r step.now)) }
{
    match step {
        Step::Field(_) => Ok(()),
        Step::Index(_, index) => walk_expr(steps, index),
    }
}

fn walk_steps<'a>(steps: &mut Steps<'a>, parts: &'a [Step]) -> Result<(), AllocError>
    ensures { OnOk result (Reads steps.old steps.new (λ r. flat_map (step_sites r) parts.now)) }
{
    for part in parts {
        walk_step(steps, part)?;
    }
    Ok(())
}

fn walk_target<'a>(steps: &mut Steps<'a>, target: &'a Target) -> Result<(), AllocError>
    ensures { OnOk result (Reads steps.old steps.new (λ r. target_sites r target.now)) }
{
    steps.meet(Part::Assigns(&target.name))?;
    walk_steps(steps, target.steps.as_slice())
}

/// The steps of a statement that may stand in the head of a `for`.
pub fn walk_simple<'a>(steps: &mut Steps<'a>, simple: &'a Simple) -> Result<(), AllocError>
    ensures { OnOk result (Reads steps.old steps.new (λ r. simple_sites r simple.now)) }
{
    match simple {
        Simple::Assign(target, _, value) => {
            walk_target(steps, target)?;
            walk_expr(steps, value)
        }
        Simple::After(target, _) => walk_target(steps, target),
        Simple::Before(_, _, target) => walk_target(steps, target),
        Simple::Call(path, args) => walk_call(steps, path, args.as_slice()),
    }
}

fn walk_constants<'a>(steps: &mut Steps<'a>, inits: &'a [Init]) -> Result<(), AllocError>
    ensures { OnOk result (Walks steps.old steps.new (λ r. init_sites local_constant r inits.now) (λ r. declare_all r (map (local_constant r.home) inits.now))) }
{
    for init in inits {
        let local = Declaration::LocalConstant(&init.value);
        steps.meet_local(0, &init.name, local)?;
        walk_expr(steps, &init.value)?;
        steps.declare(&init.name, local)?;
    }
    Ok(())
}

fn walk_inferred<'a>(steps: &mut Steps<'a>, inits: &'a [Init]) -> Result<(), AllocError>
    ensures { OnOk result (Walks steps.old steps.new (λ r. init_sites inferred_local r inits.now) (λ r. declare_all r (map (inferred_local r.home) inits.now))) }
{
    for init in inits {
        let local = Declaration::InferredLocal(&init.value);
        steps.meet_local(0, &init.name, local)?;
        walk_expr(steps, &init.value)?;
        steps.declare(&init.name, local)?;
    }
    Ok(())
}

fn walk_vars<'a>(steps: &mut Steps<'a>, ty: &'a TypeExpr, vars: &'a [Var]) -> Result<(), AllocError>
    ensures { OnOk result (Walks steps.old steps.new (λ r. var_sites r ty.now r vars.now) (λ r. declare_all r (map (typed_local r.home ty.now) vars.now))) }
{
    for index in 0..vars.len() {
        let var = &vars[index];
        let local = Declaration::TypedLocal(ty, var.value.as_ref());
        steps.meet_local(index, &var.name, local)?;
        walk_optional(steps, &var.value)?;
        steps.declare(&var.name, local)?;
    }
    Ok(())
}

/// The steps of a declaration in a block.
pub fn walk_local<'a>(steps: &mut Steps<'a>, local: &'a Local) -> Result<(), AllocError>
    ensures { OnOk result (Walks steps.old steps.new (λ r. local_sites r local.now) (λ r. after_local r local.now)) }
{
    match local {
        Local::Let(_, inits) => walk_constants(steps, inits.as_slice()),
        Local::Var(_, inits) => walk_inferred(steps, inits.as_slice()),
        Local::Typed(ty, vars) => {
            walk_type(steps, ty)?;
            walk_vars(steps, ty, vars.as_slice())
        }
    }
}
