//! What may stand in a namespace, a processor or a graph.
ghost use Rattle.std.specs.Prelude.{flat_map, OnOk};
ghost use Rattle.cm_tree.specs.declared.simple.Init.{Init as InitTree};
ghost use Rattle.cm_meaning.specs.PatchSites.{constant_sites, fields_sites, shared_sites, struct_sites};
ghost use Rattle.cm_meaning.specs.Declared.{Struct, Using};
ghost use Rattle.cm_meaning.specs.Scopes.{declared, inside_of};
ghost use Rattle.cm_meaning.specs.Sites.{expr_sites, type_sites};
ghost use Rattle.scope_walk.specs.Steps.{Reads};

use cm_base::Place;
use cm_tree::{Fields, Init, Shared, TypeExpr, Word};
use scope_walk::{Declaration, Part, Steps, walk_expr, walk_type};
use std::alloc::AllocError;

fn walk_fields<'a>(steps: &mut Steps<'a>, fields: &'a [Fields]) -> Result<(), AllocError>
    ensures { OnOk result (Reads steps.old steps.new (λ r. flat_map (fields_sites r) fields.now)) }
{
    for one in fields {
        walk_type(steps, &one.ty)?;
    }
    Ok(())
}

fn walk_struct<'a>(steps: &mut Steps<'a>, fields: &'a [Fields]) -> Result<(), AllocError>
    ensures { OnOk result (Reads steps.old steps.new (λ r. struct_sites r fields.now)) }
{
    steps.meet(Part::HasFields(fields))?;
    walk_fields(steps, fields)
}

fn walk_struct_text<'a>(
    steps: &mut Steps<'a>,
    place: Place,
    name: &'a Word,
    fields: &'a [Fields],
) -> Result<(), AllocError>
    ensures { OnOk result (Reads steps.old steps.new (λ r. struct_sites (inside_of r (declared r.home name.now (Struct place fields.now))) fields.now)) }
{
    steps.enter_text(name, Declaration::Struct(place, fields))?;
    walk_struct(steps, fields)?;
    steps.leave_text()
}

fn walk_using_text<'a>(
    steps: &mut Steps<'a>,
    name: &'a Word,
    ty: &'a TypeExpr,
) -> Result<(), AllocError>
    ensures { OnOk result (Reads steps.old steps.new (λ r. type_sites (inside_of r (declared r.home name.now (Using ty.now))) ty.now)) }
{
    steps.enter_text(name, Declaration::Using(ty))?;
    walk_type(steps, ty)?;
    steps.leave_text()
}

fn walk_constant<'a>(steps: &mut Steps<'a>, init: &'a Init) -> Result<(), AllocError>
    ensures { OnOk result (Reads steps.old steps.new (λ r. constant_sites r init.now)) }
{
    steps.enter_text(&init.name, Declaration::Constant(&init.value))?;
    walk_expr(steps, &init.value)?;
    steps.leave_text()
}

fn walk_constants<'a>(steps: &mut Steps<'a>, inits: &'a [Init]) -> Result<(), AllocError>
    ensures { OnOk result (Reads steps.old steps.new (λ r. flat_map (constant_sites r) inits.now)) }
{
    for init in inits {
        walk_constant(steps, init)?;
    }
    Ok(())
}

/// The steps of a declaration that may stand in a namespace, a processor or a graph.
pub fn walk_shared<'a>(steps: &mut Steps<'a>, shared: &'a Shared) -> Result<(), AllocError>
    ensures { OnOk result (Reads steps.old steps.new (λ r. shared_sites r shared.now)) }
{
    match shared {
        Shared::Struct(place, name, fields) => {
            walk_struct_text(steps, *place, name, fields.as_slice())
        }
        Shared::Using(_, name, ty) => walk_using_text(steps, name, ty),
        Shared::Let(_, inits) => walk_constants(steps, inits.as_slice()),
        Shared::Assert(assert) => walk_expr(steps, &assert.condition),
    }
}
