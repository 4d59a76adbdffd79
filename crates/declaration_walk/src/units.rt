//! Processors and graphs.
ghost use Rattle.std.specs.Prelude.{◌++◌, flat_map, OnOk};
ghost use Rattle.cm_meaning.specs.PatchSites.{param_sites, unit_sites};
ghost use Rattle.cm_meaning.specs.Scopes.{around_space, declared, in_space, member_names, param_names};
ghost use Rattle.declaration_walk.specs.Declares.{Declares, inner_sites};
ghost use Rattle.scope_walk.specs.Meant.{unit_as};
ghost use Rattle.scope_walk.specs.Steps.{Passes, Reads};

use crate::members::{walk_keys, walk_members};
use crate::names::{declare_members, declare_params};
use cm_tree::{Param, UnitDecl};
use scope_walk::{Steps, UnitKind, walk_type};
use std::alloc::AllocError;

fn walk_param<'a>(steps: &mut Steps<'a>, param: &'a Param) -> Result<(), AllocError>
    ensures { OnOk result (Reads steps.old steps.new (λ r. param_sites r param.now)) }
{
    match param {
        Param::Type(_, _) => Ok(()),
        Param::Value(ty, _) => walk_type(steps, ty),
    }
}

fn walk_params<'a>(steps: &mut Steps<'a>, params: &'a [Param]) -> Result<(), AllocError>
    ensures { OnOk result (Reads steps.old steps.new (λ r. flat_map (param_sites r) params.now)) }
{
    for param in params {
        walk_param(steps, param)?;
    }
    Ok(())
}

// The parameters and the names of the parts, which are one scope.
fn declare_names<'a>(steps: &mut Steps<'a>, unit: &'a UnitDecl) -> Result<(), AllocError>
    ensures { OnOk result (Declares steps.old steps.new (λ h. param_names h 0 unit.now.params ++ flat_map (member_names h) unit.now.members)) }
{
    declare_members(steps, unit.members.as_slice())?;
    declare_params(steps, unit.params.as_slice())
}

// A processor or a graph, where its names are declared.
fn walk_in_unit<'a>(steps: &mut Steps<'a>, unit: &'a UnitDecl) -> Result<(), AllocError>
    ensures { OnOk result (Reads steps.old steps.new (λ r. inner_sites r unit.now)) }
{
    steps.meet_unit()?;
    walk_params(steps, unit.params.as_slice())?;
    walk_keys(steps, unit.keys.as_slice())?;
    walk_members(steps, unit.members.as_slice())
}

/// The steps of a processor or a graph.
pub fn walk_unit<'a>(
    steps: &mut Steps<'a>,
    kind: UnitKind,
    unit: &'a UnitDecl,
) -> Result<(), AllocError>
    ensures { OnOk result (Passes steps.old steps.new (λ all space. unit_sites (around_space all space) (declared (in_space space) unit.now.name (unit_as kind unit.now)) unit.now)) }
{
    steps.enter_unit(kind, unit)?;
    declare_names(steps, unit)?;
    walk_in_unit(steps, unit)?;
    steps.leave_unit()
}
