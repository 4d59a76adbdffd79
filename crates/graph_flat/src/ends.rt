ghost use Rattle.std.specs.Prelude.{◌≡◌, ◌++◌, ◌<◌, ◌≤◌, length, slice_index_or, All, IfOk, OnOk, None, false, option_map, vec_len};
ghost use Rattle.std.specs.List.{flat_map};
ghost use Rattle.cm_base.specs.declared.place.EndId.{EndId as TheEndId};
ghost use Rattle.cm_base.specs.declared.place.NodeId.{NodeId as TheNodeId};
ghost use Rattle.cm_core.specs.Consistent.{IsConsistent};
ghost use Rattle.cm_core.specs.Tree.{node_at, is_among, leaf_with, leaf_nodes, starts, targets};
ghost use Rattle.graph_flat.specs.Ends.{with_flow, first_owner, leaf_id};

use cm_base::{EndId, Flow, LeafId, NodeId};
use cm_core::Program;
use std::alloc::{AllocError, Global};

/// Appends the endpoints of an instance that have the flow, in declaration order.
fn append_ends(
    found: &mut Vec<EndId>,
    program: &Program,
    node: NodeId,
    flow: Flow,
) -> Result<(), AllocError>
    requires program { IsConsistent program.now }
    requires node { node.0 < length program.now.nodes }
    ensures { OnOk result (found.new.items ≡ found.old.items ++ with_flow program.now flow (node_at program.now node).ends) }
{
    for end in program.node(node).ends.as_slice() {
        if program.end(*end).flow == flow {
            found.push(*end)?;
        }
    }
    Ok(())
}

/// The endpoints of the host that have one flow, and then those of the leaves that have the other.
fn ends_with(
    alloc: Global,
    program: &Program,
    leaves: &[NodeId],
    host: Flow,
    leaf: Flow,
) -> Result<Vec<EndId>, AllocError>
    requires program { IsConsistent program.now }
    requires leaves { All (λ n. n.0 < length program.now.nodes) leaves.now }
    ensures { IfOk result (λ es. es.items ≡ with_flow program.now host (node_at program.now program.now.main).ends ++ flat_map (λ (n : TheNodeId). with_flow program.now leaf (node_at program.now n).ends) leaves.now) }
{
    let mut found = Vec::new(alloc);
    append_ends(&mut found, program, program.main, host)?;
    for node in leaves {
        append_ends(&mut found, program, *node, leaf)?;
    }
    Ok(found)
}

/// The endpoints at which chains start: the inputs of the host, and then the outputs of the leaves.
pub fn starts_of(
    alloc: Global,
    program: &Program,
    leaves: &[NodeId],
) -> Result<Vec<EndId>, AllocError>
    requires program { IsConsistent program.now }
    requires leaves { leaves.now ≡ leaf_nodes program.now }
    ensures starts { IfOk result (λ es. es.items ≡ starts program.now) }
    ensures within { IfOk result (λ es. All (λ e. e.0 < length program.now.ends) es.items) }
{
    let found = ends_with(alloc, program, leaves, Flow::Input, Flow::Output)?;
    Ok(found)
}

/// The endpoints at which chains end: the outputs of the host, and then the inputs of the leaves.
pub fn targets_of(
    alloc: Global,
    program: &Program,
    leaves: &[NodeId],
) -> Result<Vec<EndId>, AllocError>
    requires program { IsConsistent program.now }
    requires leaves { leaves.now ≡ leaf_nodes program.now }
    ensures targets { IfOk result (λ es. es.items ≡ targets program.now) }
    ensures within { IfOk result (λ es. All (λ e. e.0 < length program.now.ends) es.items) }
{
    let found = ends_with(alloc, program, leaves, Flow::Output, Flow::Input)?;
    Ok(found)
}

/// For each endpoint below `count` whether it is one of these.
pub fn marked(alloc: Global, count: usize, ends: &[EndId]) -> Result<Vec<bool>, AllocError>
    requires { All (λ e. e.0 < count) ends.now }
    ensures len { IfOk result (λ v. vec_len v ≡ count) }
    ensures marked { IfOk result (λ v. (e : TheEndId) → slice_index_or v.items e.0 false ≡ is_among e ends.now) }
{
    let mut marks = vec![in alloc; false; count]?;
    for end in ends {
        marks[end.0 as usize] = true;
    }
    Ok(marks)
}

/// Says that a leaf has these endpoints, but for those of a leaf in front of it.
fn own(owners: &mut Vec<Option<LeafId>>, ends: &[EndId], leaf: LeafId)
    requires { All (λ e. e.0 < vec_len owners.old) ends.now }
    ensures len { vec_len owners.new ≡ vec_len owners.old }
    ensures owned { (e : TheEndId) → slice_index_or owners.new.items e.0 None ≡ first_owner (slice_index_or owners.old.items e.0 None) (is_among e ends.now) leaf }
{
    for end in ends {
        let owner = &mut owners[end.0 as usize];
        if owner.is_none() {
            *owner = Some(leaf);
        }
    }
}

/// For each endpoint the leaf that has it.
pub fn owners(
    alloc: Global,
    program: &Program,
    leaves: &[NodeId],
) -> Result<Vec<Option<LeafId>>, AllocError>
    requires program { IsConsistent program.now }
    requires leaves { leaves.now ≡ leaf_nodes program.now }
    requires few { length leaves.now ≤ 4096 }
    ensures len { IfOk result (λ v. vec_len v ≡ length program.now.ends) }
    ensures owners { IfOk result (λ v. (e : TheEndId) → slice_index_or v.items e.0 None ≡ option_map leaf_id (leaf_with program.now e)) }
{
    let mut owners = vec![in alloc; None; program.ends.len()]?;
    for at in 0..leaves.len() {
        let ends = program.node(leaves[at]).ends.as_slice();
        own(&mut owners, ends, LeafId(at as u32));
    }
    Ok(owners)
}
