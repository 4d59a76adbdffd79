//! What the parts of a processor, a graph or a function declare, from the last name to the first.
ghost use Rattle.std.specs.Prelude.{[], ◌∷◌, ◌++◌, map, flat_map, OnOk};
ghost use Rattle.cm_meaning.specs.Scopes.{constant, end_name, end_names, inferred_state, member_names, node_name, param_name, param_names, parameter, shared_names, typed_state};
ghost use Rattle.declaration_walk.specs.Declares.{Declares};

use cm_base::Flow;
use cm_tree::{End, EndName, Init, Member, Node, Param, Shared, TypeExpr, Typed, Var};
use scope_walk::{Declaration, Steps};
use std::alloc::AllocError;

/// The parameters of a function.
pub fn declare_parameters<'a>(steps: &mut Steps<'a>, params: &'a [Typed]) -> Result<(), AllocError>
    ensures { OnOk result (Declares steps.old steps.new (λ h. map (parameter h) params.now)) }
{
    for index in (0..params.len()).rev() {
        let param = &params[index];
        steps.declare(&param.name, Declaration::Parameter(&param.ty))?;
    }
    Ok(())
}

fn declare_constants<'a>(steps: &mut Steps<'a>, inits: &'a [Init]) -> Result<(), AllocError>
    ensures { OnOk result (Declares steps.old steps.new (λ h. map (constant h) inits.now)) }
{
    for index in (0..inits.len()).rev() {
        let init = &inits[index];
        steps.declare(&init.name, Declaration::Constant(&init.value))?;
    }
    Ok(())
}

fn declare_shared<'a>(steps: &mut Steps<'a>, shared: &'a Shared) -> Result<(), AllocError>
    ensures { OnOk result (Declares steps.old steps.new (λ h. shared_names h shared.now)) }
{
    match shared {
        Shared::Struct(place, name, fields) => {
            steps.declare(name, Declaration::Struct(*place, fields.as_slice()))
        }
        Shared::Using(_, name, ty) => steps.declare(name, Declaration::Using(ty)),
        Shared::Let(_, inits) => declare_constants(steps, inits.as_slice()),
        Shared::Assert(_) => Ok(()),
    }
}

fn declare_states<'a>(steps: &mut Steps<'a>, inits: &'a [Init]) -> Result<(), AllocError>
    ensures { OnOk result (Declares steps.old steps.new (λ h. map (inferred_state h) inits.now)) }
{
    for index in (0..inits.len()).rev() {
        let init = &inits[index];
        steps.declare(&init.name, Declaration::InferredState(&init.value))?;
    }
    Ok(())
}

fn declare_vars<'a>(
    steps: &mut Steps<'a>,
    ty: &'a TypeExpr,
    vars: &'a [Var],
) -> Result<(), AllocError>
    ensures { OnOk result (Declares steps.old steps.new (λ h. map (typed_state h ty.now) vars.now)) }
{
    for index in (0..vars.len()).rev() {
        let var = &vars[index];
        steps.declare(&var.name, Declaration::TypedState(ty, var.value.as_ref()))?;
    }
    Ok(())
}

fn declare_nodes<'a>(steps: &mut Steps<'a>, nodes: &'a [Node]) -> Result<(), AllocError>
    ensures { OnOk result (Declares steps.old steps.new (λ h. map (node_name h) nodes.now)) }
{
    for index in (0..nodes.len()).rev() {
        let node = &nodes[index];
        steps.declare(&node.name, Declaration::Node(node))?;
    }
    Ok(())
}

fn declare_end_name<'a>(
    steps: &mut Steps<'a>,
    flow: Flow,
    end: &'a End,
    name: &'a EndName,
) -> Result<(), AllocError>
    ensures { OnOk result (Declares steps.old steps.new (λ h. end_name h flow end.now name.now ∷ [])) }
{
    steps.declare(
        &name.name,
        Declaration::Endpoint(flow, end.kind, &end.ty, name.keys.as_slice()),
    )
}

fn declare_end_names<'a>(
    steps: &mut Steps<'a>,
    flow: Flow,
    end: &'a End,
    names: &'a [EndName],
) -> Result<(), AllocError>
    ensures { OnOk result (Declares steps.old steps.new (λ h. map (end_name h flow end.now) names.now)) }
{
    for index in (0..names.len()).rev() {
        declare_end_name(steps, flow, end, &names[index])?;
    }
    Ok(())
}

fn declare_end<'a>(steps: &mut Steps<'a>, flow: Flow, end: &'a End) -> Result<(), AllocError>
    ensures { OnOk result (Declares steps.old steps.new (λ h. end_names h flow end.now)) }
{
    declare_end_names(steps, flow, end, end.names.as_slice())
}

fn declare_ends<'a>(steps: &mut Steps<'a>, flow: Flow, ends: &'a [End]) -> Result<(), AllocError>
    ensures { OnOk result (Declares steps.old steps.new (λ h. flat_map (end_names h flow) ends.now)) }
{
    for index in (0..ends.len()).rev() {
        declare_end(steps, flow, &ends[index])?;
    }
    Ok(())
}

fn declare_member<'a>(steps: &mut Steps<'a>, member: &'a Member) -> Result<(), AllocError>
    ensures { OnOk result (Declares steps.old steps.new (λ h. member_names h member.now)) }
{
    match member {
        Member::Ends(_, flow, ends) => declare_ends(steps, *flow, ends.as_slice()),
        Member::Shared(shared) => declare_shared(steps, shared),
        Member::Function(function) => {
            steps.declare(&function.name, Declaration::Function(function))
        }
        Member::Handler(_, _, _, _) => Ok(()),
        Member::Var(_, inits) => declare_states(steps, inits.as_slice()),
        Member::State(ty, vars) => declare_vars(steps, ty, vars.as_slice()),
        Member::Latency(_, _) => Ok(()),
        Member::Nodes(_, nodes) => declare_nodes(steps, nodes.as_slice()),
        Member::Connection(_, _) => Ok(()),
    }
}

/// The names of the parts of a processor or a graph.
pub fn declare_members<'a>(steps: &mut Steps<'a>, members: &'a [Member]) -> Result<(), AllocError>
    ensures { OnOk result (Declares steps.old steps.new (λ h. flat_map (member_names h) members.now)) }
{
    for index in (0..members.len()).rev() {
        declare_member(steps, &members[index])?;
    }
    Ok(())
}

fn declare_param<'a>(
    steps: &mut Steps<'a>,
    position: usize,
    param: &'a Param,
) -> Result<(), AllocError>
    ensures { OnOk result (Declares steps.old steps.new (λ h. param_name h position param.now ∷ [])) }
{
    match param {
        Param::Type(_, name) => steps.declare(name, Declaration::TypeParameter(position)),
        Param::Value(ty, name) => steps.declare(name, Declaration::ValueParameter(position, ty)),
    }
}

/// The parameters of a processor or a graph, by their positions from 0.
pub fn declare_params<'a>(steps: &mut Steps<'a>, params: &'a [Param]) -> Result<(), AllocError>
    ensures { OnOk result (Declares steps.old steps.new (λ h. param_names h 0 params.now)) }
{
    for index in (0..params.len()).rev() {
        declare_param(steps, index, &params[index])?;
    }
    Ok(())
}
