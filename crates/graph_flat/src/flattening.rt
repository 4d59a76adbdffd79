ghost use Rattle.std.specs.Prelude.{◌≡◌, ◌<◌, ◌≤◌, length, map, All, IfOk, IfErr, OnOk};
ghost use Rattle.cm_core.specs.Consistent.{IsConsistent};
ghost use Rattle.cm_core.specs.Tree.{leaf_nodes as all_leaves, leaf_of as the_leaf_of, unit_of as the_unit_of};
ghost use Rattle.cm_core.specs.Expanded.{connections as all_connections};
ghost use Rattle.cm_core.specs.Routes.{chains as all_chains, flat_of};
ghost use Rattle.graph_flat.specs.Chains.{HasSoundChains};
ghost use Rattle.graph_flat.specs.Sound.{IsSoundLink};
ghost use Rattle.cm_core.specs.Flats.{IsSmall, NamesLeaves};
ghost use Rattle.cm_core.specs.GraphFaults.{HasSoundGraphs};
ghost use Rattle.graph_flat.specs.Refusal.{IsRefusal};

use crate::chains::{direct_chains, routed_chains};
use crate::expanding::connections;
use crate::leaves::leaf_nodes;
use cm_base::{Fail, Name, NodeId};
use cm_core::{Body, Chain, Chains, Connection, Flat, Leaf, Leaves, Program};
use std::alloc::{AllocError, Global};

/// The number of a leaf's unit.
fn unit_of(body: &Body) -> u32
    ensures { result ≡ the_unit_of body.now }
{
    match body {
        Body::Leaf(unit) => *unit,
        Body::Graph(_) => 0,
    }
}

/// The leaf of a node.
fn leaf_of(alloc: Global, program: &Program, id: NodeId) -> Result<Leaf, AllocError>
    requires { id.0 < length program.now.nodes }
    ensures { IfOk result (λ leaf. leaf ≡ the_leaf_of program.now id) }
{
    let node = program.node(id);
    let unit = unit_of(&node.body);
    let latency = match program.units.get(unit as usize) {
        Some(found) => found.latency,
        None => 0,
    };
    Ok(Leaf {
        node: id,
        unit,
        path: Name::from_str(alloc, node.path.as_str())?,
        latency,
    })
}

/// The leaves of these nodes.
fn leaves_of(alloc: Global, program: &Program, nodes: &[NodeId]) -> Result<Vec<Leaf>, AllocError>
    requires { All (λ n. n.0 < length program.now.nodes) nodes.now }
    ensures { IfOk result (λ leaves. leaves.items ≡ map (the_leaf_of program.now) nodes.now) }
{
    let mut leaves = Vec::with_capacity(alloc, nodes.len())?;
    for node in nodes {
        leaves.push(leaf_of(alloc, program, *node)?)?;
    }
    Ok(leaves)
}

/// The chains of a program, from its leaves and its connections.
fn chains(
    alloc: Global,
    program: &Program,
    leaves: &[NodeId],
    connections: Vec<Connection>,
) -> Result<Vec<Chain>, Fail>
    requires program { IsConsistent program.now }
    requires leaves { leaves.now ≡ all_leaves program.now }
    requires few { length leaves.now ≤ 4096 }
    requires connections { connections.items ≡ all_connections program.now }
    requires sound { All (IsSoundLink program.now) program.now.links }
    ensures found { IfOk result (λ chains. chains.items ≡ all_chains program.now) }
    ensures sound { OnOk result (HasSoundChains program.now) }
    ensures refused { IfErr result (IsRefusal program.now) }
{
    match &program.node(program.main).body {
        Body::Leaf(_) => {
            let found = direct_chains(alloc, program, leaves)?;
            Ok(found)
        }
        Body::Graph(_) => {
            let found = routed_chains(alloc, program, leaves, connections)?;
            Ok(found)
        }
    }
}

/// The leaves and the chains of a program, in their orders, unless its graphs have a fault.
pub fn flatten(alloc: Global, program: &Program) -> Result<Flat, Fail>
    requires { IsConsistent program.now }
    ensures found { IfOk result (λ flat. flat ≡ flat_of program.now) }
    ensures sound { OnOk result (HasSoundGraphs program.now) }
    ensures leaves { IfOk result NamesLeaves }
    ensures small { IfOk result IsSmall }
    ensures refused { IfErr result (IsRefusal program.now) }
{
    let nodes = leaf_nodes(alloc, program)?;
    let connections = connections(alloc, program)?;
    let chains = chains(alloc, program, &nodes, connections)?;
    let leaves = leaves_of(alloc, program, &nodes)?;
    Ok(Flat {
        leaves: Leaves::from_vec(leaves),
        chains: Chains::from_vec(chains),
    })
}
