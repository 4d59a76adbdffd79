ghost use Rattle.std.specs.Prelude.{◌≡◌, ◌<◌, ◌≤◌, length, map, All, IfOk, IfErr, OnOk, true, false};
ghost use Rattle.cm_core.specs.Consistent.{IsConsistent, is_graph};
ghost use Rattle.cm_core.specs.Expanded.{connections as all_connections};
ghost use Rattle.cm_core.specs.Tree.{leaf_nodes, node_at, starts};
ghost use Rattle.cm_core.specs.Routes.{chain_of, direct as the_direct, routes};
ghost use Rattle.graph_flat.specs.Chains.{chain_by, HasSoundRoutes};
ghost use Rattle.graph_flat.specs.Refusal.{IsRefusal};
ghost use Rattle.graph_flat.specs.Sound.{IsSoundLink};

use crate::ends::{owners, starts_of};
use crate::finding::route_paths;
use crate::paths::Path;
use cm_base::limits::CHAINS;
use cm_base::{Cause, EndId, Fail, Flow, LeafId, NodeId, Shape};
use cm_core::{Chain, Connection, Point, Program};
use std::alloc::{AllocError, Global};

/// The chain of a path.
fn chain_of(
    alloc: Global,
    program: &Program,
    owners: &[Option<LeafId>],
    path: &Path,
) -> Result<Chain, AllocError>
    requires from { (path.now.from.0 < length program.now.ends) × (path.now.from.0 < length owners.now) }
    requires to { path.now.to.0 < length owners.now }
    ensures { IfOk result (λ chain. chain ≡ chain_by program.now owners.now path.now) }
{
    let end = program.end(path.from);
    Ok(Chain {
        from: Point {
            leaf: owners[path.from.0 as usize],
            end: path.from,
        },
        to: Point {
            leaf: owners[path.to.0 as usize],
            end: path.to,
        },
        kind: end.kind,
        shape: Shape::from_slice(alloc, end.shape.as_slice())?,
        delay: path.delay,
        place: path.first,
    })
}

/// The chains of these paths.
fn chains_of(
    alloc: Global,
    program: &Program,
    owners: &[Option<LeafId>],
    paths: &[Path],
) -> Result<Vec<Chain>, AllocError>
    requires owners { length owners.now ≡ length program.now.ends }
    requires paths { All (λ x. (x.from.0 < length program.now.ends) × (x.to.0 < length program.now.ends)) paths.now }
    ensures { IfOk result (λ chains. chains.items ≡ map (chain_by program.now owners.now) paths.now) }
{
    let mut chains = Vec::with_capacity(alloc, paths.len())?;
    for path in paths {
        chains.push(chain_of(alloc, program, owners, path)?)?;
    }
    Ok(chains)
}

/// The chains of a graph, from these leaves and connections.
pub fn routed_chains(
    alloc: Global,
    program: &Program,
    leaves: &[NodeId],
    connections: Vec<Connection>,
) -> Result<Vec<Chain>, Fail>
    requires program { IsConsistent program.now }
    requires leaves { leaves.now ≡ leaf_nodes program.now }
    requires few { length leaves.now ≤ 4096 }
    requires graph { is_graph (node_at program.now program.now.main).body ≡ true }
    requires connections { connections.items ≡ all_connections program.now }
    requires sound { All (IsSoundLink program.now) program.now.links }
    ensures found { IfOk result (λ chains. chains.items ≡ map (chain_of program.now) (routes program.now)) }
    ensures sound { OnOk result (HasSoundRoutes program.now) }
    ensures refused { IfErr result (IsRefusal program.now) }
{
    let paths = route_paths(alloc, program, leaves, connections)?;
    let owners = owners(alloc, program, leaves)?;
    let chains = chains_of(alloc, program, &owners, &paths)?;
    Ok(chains)
}

/// The chain between the host and an endpoint of a processor that is the main declaration.
fn direct(alloc: Global, program: &Program, id: EndId) -> Result<Chain, AllocError>
    requires { id.0 < length program.now.ends }
    ensures { IfOk result (λ chain. chain ≡ the_direct program.now id) }
{
    let end = program.end(id);
    let host = Point {
        leaf: None,
        end: id,
    };
    let leaf = Point {
        leaf: Some(LeafId(0)),
        end: id,
    };
    let (from, to) = if end.flow == Flow::Input {
        (host, leaf)
    } else {
        (leaf, host)
    };
    Ok(Chain {
        from,
        to,
        kind: end.kind,
        shape: Shape::from_slice(alloc, end.shape.as_slice())?,
        delay: 0,
        place: program.place,
    })
}

/// The chains of a processor that is the main declaration.
pub fn direct_chains(
    alloc: Global,
    program: &Program,
    leaves: &[NodeId],
) -> Result<Vec<Chain>, Fail>
    requires program { IsConsistent program.now }
    requires leaves { leaves.now ≡ leaf_nodes program.now }
    requires leaf { is_graph (node_at program.now program.now.main).body ≡ false }
    ensures found { IfOk result (λ chains. chains.items ≡ map (the_direct program.now) (starts program.now)) }
    ensures few { OnOk result (length (starts program.now) ≤ 65536) }
    ensures refused { IfErr result (IsRefusal program.now) }
{
    let starts = starts_of(alloc, program, leaves)?;
    if starts.len() > CHAINS as usize {
        return Err(Fail::refused(alloc, Cause::TooManyChains, program.place));
    }
    let mut chains = Vec::with_capacity(alloc, starts.len())?;
    for start in starts.as_slice() {
        chains.push(direct(alloc, program, *start)?)?;
    }
    Ok(chains)
}
