ghost use Rattle.std.specs.Prelude.{◌≡◌, ◌<◌, ◌≤◌, ℕ, IsTrue, IfOk, length, slice_index, slice_index_or, count_by, filter, vec_len, true, []};
ghost use Rattle.std.specs.List.{flat_map};
ghost use Rattle.cm_base.specs.declared.place.NodeId.{NodeId as TheNodeId};
ghost use Rattle.cm_core.specs.Tree.{node_at, children};
ghost use Rattle.cm_core.specs.Consistent.{HasGroups, is_graph, is_own, is_declared};
ghost use Rattle.program_shape.specs.Shape.{AreOwners, AreCounts, AreLists};

use cm_base::NodeId;
use cm_core::{Body, Program};
use std::alloc::{AllocError, Global};

/// For each instance how many groups it is itself.
fn own_counts(alloc: Global, program: &Program, owners: &[NodeId]) -> Result<Vec<usize>, AllocError>
    requires { AreOwners program.now owners.now }
    ensures { IfOk result (AreCounts program.now) }
{
    let groups = program.groups.as_slice();
    let mut counts = vec![in alloc; 0; program.nodes.len()]?;
    for at in 0..groups.len() {
        if groups[at].own {
            counts[owners[at].0 as usize] += 1;
        }
    }
    Ok(counts)
}

/// A list for each instance, with nothing in it.
fn empty_lists(alloc: Global, count: usize) -> Result<Vec<Vec<NodeId>>, AllocError>
    ensures len { IfOk result (λ v. vec_len v ≡ count) }
    ensures empty { IfOk result (λ v. (q : ℕ) (d : _) → q < count → (slice_index_or v.items q d).items ≡ []) }
{
    let mut lists = Vec::with_capacity(alloc, count)?;
    for _ in 0..count {
        lists.push(Vec::new(alloc))?;
    }
    Ok(lists)
}

/// For each graph the instances of the groups that it declares, group by group.
fn declared_lists(
    alloc: Global,
    program: &Program,
    owners: &[NodeId],
) -> Result<Vec<Vec<NodeId>>, AllocError>
    requires { AreOwners program.now owners.now }
    ensures { IfOk result (AreLists program.now) }
{
    let groups = program.groups.as_slice();
    let mut lists = empty_lists(alloc, program.nodes.len())?;
    for at in 0..groups.len() {
        if !groups[at].own {
            lists[owners[at].0 as usize].extend_from_slice(groups[at].nodes.as_slice())?;
        }
    }
    Ok(lists)
}

/// Whether both are the same instances in the same order.
fn are_same(nodes: &[NodeId], others: &[NodeId]) -> bool
    ensures { IsTrue result → nodes.now ≡ others.now }
{
    if nodes.len() != others.len() {
        return false;
    }
    for at in 0..nodes.len() {
        if nodes[at] != others[at] {
            return false;
        }
    }
    true
}

/// Whether a leaf, or a graph that is one group itself, and declares its instances in order.
fn has_groups(body: &Body, own: usize, declared: &[NodeId]) -> bool
    ensures { IsTrue result → is_graph body.now ≡ true → (own ≡ 1) × (declared.now ≡ children body.now) }
{
    match body {
        Body::Leaf(_) => true,
        Body::Graph(nodes) => own == 1 && are_same(declared, nodes.as_slice()),
    }
}

/// Whether each graph has one group of its own, and those of the nodes that it declares, in order.
pub fn are_grouped(alloc: Global, program: &Program, owners: &[NodeId]) -> Result<bool, AllocError>
    requires { AreOwners program.now owners.now }
    ensures { IfOk result (λ b. IsTrue b → (n : TheNodeId) → n.0 < length program.now.nodes → is_graph (node_at program.now n).body ≡ true → HasGroups program.now n) }
{
    let nodes = program.nodes.as_slice();
    let counts = own_counts(alloc, program, owners)?;
    let lists = declared_lists(alloc, program, owners)?;
    for at in 0..nodes.len() {
        if !has_groups(&nodes[at].body, counts[at], &lists[at]) {
            return Ok(false);
        }
    }
    Ok(true)
}
