ghost use Rattle.std.specs.Prelude.{IfOk};
ghost use Rattle.cm_core.specs.Flats.{IsSmall, NamesLeaves};
ghost use Rattle.graph_order.specs.Order.{IsOrder};
ghost use Rattle.latency_fill.specs.Fills.{Fits, IsAttained, IsFill, IsLeast, OthersHaveNone};

use crate::arrivals::{arrivals, host_arrival, sources_of};
use crate::chains::edges;
use crate::extras::extras;
use cm_base::{LeafIds, NoMemory};
use cm_core::{Counts, Filled, Flat};
use std::alloc::Global;

/// The arrival of each leaf, the latency of the patch and the extra delay of each chain, in frames. The arrival of a
/// leaf is the greatest sum of latencies over walks along undelayed chains of streams that end before it. All outputs
/// of the host share the greatest arrival of one of them, which is the latency of the patch. The extra delay of an
/// undelayed chain of streams is what is left between the arrival where it ends and the arrival and latency where it
/// begins; inputs of the host have 0 of both. All other chains have no extra delay.
pub fn fill(alloc: Global, flat: &Flat, order: &LeafIds) -> Result<Filled, NoMemory>
    requires small { IsSmall flat.now }
    requires within { NamesLeaves flat.now }
    requires order { IsOrder flat.now order.now }
    ensures walks { IfOk result (IsFill flat.now) }
    ensures sums { IfOk result (Fits flat.now) }
    ensures others { IfOk result (OthersHaveNone flat.now) }
    ensures attained { IfOk result (IsAttained flat.now) }
    ensures least { IfOk result (IsLeast flat.now) }
{
    let edges = edges(alloc, flat)?;
    let before = sources_of(alloc, flat.leaves.len() as u32, &edges)?;
    let arrive = arrivals(alloc, flat, order.as_slice(), &before)?;
    let latency = host_arrival(alloc, flat, &arrive)?;
    let extra = extras(alloc, flat, &arrive, latency)?;
    Ok(Filled {
        extra: Counts::from_vec(extra),
        arrive: Counts::from_vec(arrive),
        latency,
    })
}
