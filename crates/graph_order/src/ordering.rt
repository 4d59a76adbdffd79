ghost use Rattle.std.specs.Prelude.{◌≡◌, ◌<◌, ◌^◌, OnOk, IfOk, IfErr, length};
ghost use Rattle.cm_core.specs.Flats.{NamesLeaves};
ghost use Rattle.graph_order.specs.Before.{numbers as numbers_of};
ghost use Rattle.graph_order.specs.Order.{IsOrder};
ghost use Rattle.graph_order.specs.Cycle.{IsAcyclic, IsFault};

use crate::edges::edges;
use crate::refusal::refusal;
use cm_base::{Fail, LeafId, LeafIds};
use cm_core::Flat;
use graph_search::SearchFail;
use std::alloc::{AllocError, Global};

/// The leaves of these numbers.
fn leaf_ids(alloc: Global, numbers: &[u32]) -> Result<LeafIds, AllocError>
    ensures { IfOk result (λ ids. numbers_of ids ≡ numbers.now) }
{
    let mut ids = Vec::with_capacity(alloc, numbers.len())?;
    for number in numbers {
        ids.push(LeafId(*number))?;
    }
    Ok(LeafIds::from_vec(ids))
}

/// The order of the leaves: again and again the first leaf that isn't placed and whose predecessors are all placed. A
/// leaf is before another where an undelayed chain of any kind leads from it to the other. Where there is a cycle of
/// leaves, each before the next and the last before the first, there is no order: then the cause is `Cycle`, the place
/// is that of a chain of the cycle, and `cycle` has the paths of its leaves.
pub fn order(alloc: Global, flat: &Flat) -> Result<LeafIds, Fail>
    requires few { length flat.now.leaves < 2 ^ 32 }
    requires within { NamesLeaves flat.now }
    ensures found { IfOk result (λ order. IsOrder flat.now order) }
    ensures acyclic { OnOk result (IsAcyclic flat.now) }
    ensures refused { IfErr result (IsFault flat.now) }
{
    let edges = edges(alloc, flat)?;
    match graph_search::order(alloc, flat.leaves.len() as u32, &edges) {
        Ok(found) => Ok(leaf_ids(alloc, found.as_slice())?),
        Err(SearchFail::Cycle(cycle)) => Err(Fail::Refused(refusal(
            alloc,
            flat,
            cycle.as_slice(),
        )?)),
        Err(SearchFail::NoMemory) => Err(Fail::NoMemory),
    }
}
