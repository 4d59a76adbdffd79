ghost use Rattle.std.specs.Prelude.{◌≡◌, ◌<◌, All, IfOk, length, map};
ghost use Rattle.cm_core.specs.Flats.{NamesLeaves};
ghost use Rattle.graph_order.specs.Before.{IsBefore, leads};
ghost use Rattle.graph_order.specs.Cycle.{IsCycle, IsPlaceBetween, IsRefusalBy, path_of};

use cm_base::{Cause, LeafId, Name, Names, Place, Refused};
use cm_core::{Chain, Flat};
use std::alloc::{AllocError, Global};

/// Whether the chain is undelayed and leads from one leaf to the other.
fn leads(chain: &Chain, from: u32, to: u32) -> bool
    ensures { result ≡ leads from to chain.now }
{
    chain.delay == 0 && chain.from.leaf == Some(LeafId(from)) && chain.to.leaf == Some(LeafId(to))
}

/// The place of the first undelayed chain from one leaf to the other.
fn place_between(flat: &Flat, from: u32, to: u32) -> Place
    requires { IsBefore flat.now from to }
    ensures { IsPlaceBetween flat.now from to result }
{
    let chains = flat.chains.as_slice();
    let mut at = 0;
    while !leads(&chains[at], from, to) {
        at += 1;
    }
    chains[at].place
}

/// The paths of leaves.
fn paths(alloc: Global, flat: &Flat, leaves: &[u32]) -> Result<Names, AllocError>
    requires { All (λ leaf. leaf < length flat.now.leaves) leaves.now }
    ensures { IfOk result (λ names. names ≡ map (path_of flat.now) leaves.now) }
{
    let all = flat.leaves.as_slice();
    let mut names = Vec::with_capacity(alloc, leaves.len())?;
    for leaf in leaves {
        names.push(Name::from_str(alloc, all[*leaf as usize].path.as_str())?)?;
    }
    Ok(Names::from_vec(names))
}

/// The refusal of a graph that has this cycle.
pub fn refusal(alloc: Global, flat: &Flat, cycle: &[u32]) -> Result<Refused, AllocError>
    requires cycle { IsCycle flat.now cycle.now }
    requires within { NamesLeaves flat.now }
    ensures { IfOk result (IsRefusalBy flat.now cycle.now) }
{
    Ok(Refused {
        cause: Cause::Cycle,
        place: place_between(flat, cycle[cycle.len() - 1], cycle[0]),
        cycle: paths(alloc, flat, cycle)?,
    })
}
