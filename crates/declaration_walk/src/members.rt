//! The parts of processors and graphs.
ghost use Rattle.std.specs.Prelude.{◌++◌, flat_map, OnOk, Some};
ghost use Rattle.cm_meaning.specs.PatchSites.{end_sites, key_value_sites, keys_sites, member_sites, state_value_sites};
ghost use Rattle.cm_meaning.specs.Sites.{expr_sites, type_sites};
ghost use Rattle.declaration_walk.specs.Declares.{end_name_sites, init_sites};
ghost use Rattle.scope_walk.specs.Steps.{Reads};

use crate::functions::{walk_function, walk_handler};
use crate::nodes::{walk_links, walk_nodes};
use crate::shared::walk_shared;
use cm_tree::{End, EndName, Init, Key, KeyValue, Member, TypeExpr, Var};
use scope_walk::{Steps, walk_expr, walk_optional, walk_type};
use std::alloc::AllocError;

fn walk_written<'a>(steps: &mut Steps<'a>, value: &'a KeyValue) -> Result<(), AllocError>
    ensures { OnOk result (Reads steps.old steps.new (λ r. key_value_sites r (Some value.now))) }
{
    match value {
        KeyValue::Value(value) => walk_expr(steps, value),
        KeyValue::Text(_, _) => Ok(()),
    }
}

fn walk_key_value<'a>(steps: &mut Steps<'a>, value: &'a Option<KeyValue>) -> Result<(), AllocError>
    ensures { OnOk result (Reads steps.old steps.new (λ r. key_value_sites r value.now)) }
{
    match value {
        None => Ok(()),
        Some(value) => walk_written(steps, value),
    }
}

/// The steps of an annotation.
pub fn walk_keys<'a>(steps: &mut Steps<'a>, keys: &'a [Key]) -> Result<(), AllocError>
    ensures { OnOk result (Reads steps.old steps.new (λ r. keys_sites r keys.now)) }
{
    for key in keys {
        walk_key_value(steps, &key.value)?;
    }
    Ok(())
}

fn walk_end_name<'a>(steps: &mut Steps<'a>, name: &'a EndName) -> Result<(), AllocError>
    ensures { OnOk result (Reads steps.old steps.new (λ r. end_name_sites r name.now)) }
{
    walk_keys(steps, name.keys.as_slice())
}

fn walk_end_names<'a>(steps: &mut Steps<'a>, names: &'a [EndName]) -> Result<(), AllocError>
    ensures { OnOk result (Reads steps.old steps.new (λ r. flat_map (end_name_sites r) names.now)) }
{
    for name in names {
        walk_end_name(steps, name)?;
    }
    Ok(())
}

fn walk_end<'a>(steps: &mut Steps<'a>, end: &'a End) -> Result<(), AllocError>
    ensures { OnOk result (Reads steps.old steps.new (λ r. end_sites r end.now)) }
{
    walk_type(steps, &end.ty)?;
    walk_end_names(steps, end.names.as_slice())
}

fn walk_ends<'a>(steps: &mut Steps<'a>, ends: &'a [End]) -> Result<(), AllocError>
    ensures { OnOk result (Reads steps.old steps.new (λ r. flat_map (end_sites r) ends.now)) }
{
    for end in ends {
        walk_end(steps, end)?;
    }
    Ok(())
}

fn walk_inits<'a>(steps: &mut Steps<'a>, inits: &'a [Init]) -> Result<(), AllocError>
    ensures { OnOk result (Reads steps.old steps.new (λ r. flat_map (init_sites r) inits.now)) }
{
    for init in inits {
        walk_expr(steps, &init.value)?;
    }
    Ok(())
}

fn walk_vars<'a>(steps: &mut Steps<'a>, vars: &'a [Var]) -> Result<(), AllocError>
    ensures { OnOk result (Reads steps.old steps.new (λ r. flat_map (state_value_sites r) vars.now)) }
{
    for var in vars {
        walk_optional(steps, &var.value)?;
    }
    Ok(())
}

fn walk_state<'a>(
    steps: &mut Steps<'a>,
    ty: &'a TypeExpr,
    vars: &'a [Var],
) -> Result<(), AllocError>
    ensures { OnOk result (Reads steps.old steps.new (λ r. type_sites r ty.now ++ flat_map (state_value_sites r) vars.now)) }
{
    walk_type(steps, ty)?;
    walk_vars(steps, vars)
}

/// The steps of a part of a processor or a graph.
pub fn walk_member<'a>(steps: &mut Steps<'a>, member: &'a Member) -> Result<(), AllocError>
    ensures { OnOk result (Reads steps.old steps.new (λ r. member_sites r member.now)) }
{
    match member {
        Member::Ends(_, _, ends) => walk_ends(steps, ends.as_slice()),
        Member::Shared(shared) => walk_shared(steps, shared),
        Member::Function(function) => walk_function(steps, function),
        Member::Handler(_, input, param, body) => walk_handler(steps, input, param, body),
        Member::Var(_, inits) => walk_inits(steps, inits.as_slice()),
        Member::State(ty, vars) => walk_state(steps, ty, vars.as_slice()),
        Member::Latency(_, frames) => walk_expr(steps, frames),
        Member::Nodes(_, nodes) => walk_nodes(steps, nodes.as_slice()),
        Member::Connection(_, links) => walk_links(steps, links.as_slice()),
    }
}

/// The steps of the parts of a processor or a graph.
pub fn walk_members<'a>(steps: &mut Steps<'a>, members: &'a [Member]) -> Result<(), AllocError>
    ensures { OnOk result (Reads steps.old steps.new (λ r. flat_map (member_sites r) members.now)) }
{
    for member in members {
        walk_member(steps, member)?;
    }
    Ok(())
}
