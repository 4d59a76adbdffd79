ghost use Rattle.std.specs.Prelude.{◌≡◌, ◌<◌, ◌^◌, length, map, All, IfOk, OnOk, IfErr};
ghost use Rattle.cm_core.specs.Consistent.{IsConsistent};
ghost use Rattle.cm_core.specs.Expanded.{connections as all_connections};
ghost use Rattle.graph_search.specs.Edges.{AreWithin};
ghost use Rattle.graph_search.specs.Orders.{IsFault};
ghost use Rattle.graph_search.specs.Paths.{ArePathCounts};
ghost use Rattle.graph_flat.specs.Edges.{HasRanking};
ghost use Rattle.graph_flat.specs.Paths.{IsBelow};
ghost use Rattle.graph_flat.specs.Wires.{IsReady, IsSame};
ghost use Rattle.graph_flat.specs.Refusal.{IsRefusal};

use crate::ends::marked;
use crate::looping::{edges, loop_refusal};
use crate::wires::{Wires, live_rows};
use cm_base::limits::CHAINS;
use cm_base::{EndId, Fail};
use cm_core::{Connection, Program};
use graph_search::{Counts, Edge, Indices, SearchFail, order, path_counts, ranks};
use std::alloc::{AllocError, Global};

/// The endpoints in an order in which each stands in front of those that its connections lead to, and for each how
/// many routes lead from it to the targets.
#[derive(Drop)]
struct Survey {
    order: Indices,
    counts: Counts,
}

/// The survey of the connections, or a loop of them.
fn survey_of(
    alloc: Global,
    count: u32,
    edges: &[Edge],
    is_target: &[bool],
) -> Result<Survey, SearchFail>
    requires within { AreWithin count edges.now }
    requires len { length is_target.now ≡ count }
    ensures order { IfOk result (λ s. All (λ e. e < count) s.order) }
    ensures counts { IfOk result (λ s. ArePathCounts edges.now is_target.now count 65537 s.counts) }
    ensures ranked { OnOk result (HasRanking edges.now count) }
    ensures cycle { IfErr result (IsFault edges.now) }
{
    let order = order(alloc, count, edges)?;
    ranks(alloc, count, edges)?;
    let counts = path_counts(alloc, count, edges, is_target, CHAINS as u64 + 1)?;
    Ok(Survey { order, counts })
}

/// Lets a search jump from each endpoint that has one way on, the last in the order first.
fn shorten_all(wires: &mut Wires, order: &[u32])
    requires ready { IsReady (length wires.old.rows.items) wires.old }
    requires few { length wires.old.rows.items < 2 ^ 32 }
    requires within { All (λ e. e < length wires.old.rows.items) order.now }
    ensures ready { IsReady (length wires.old.rows.items) wires.new }
    ensures same { IsSame wires.old wires.new }
{
    let count = order.len();
    for step in 0..count {
        wires.shorten(order[count - 1 - step] as usize);
    }
}

/// The connections of a program, ready for a search for routes to these targets, unless they have a loop.
pub fn prepare(
    alloc: Global,
    program: &Program,
    connections: Vec<Connection>,
    targets: Vec<EndId>,
) -> Result<Wires, Fail>
    requires program { IsConsistent program.now }
    requires connections { connections.items ≡ all_connections program.now }
    requires within { All (IsBelow (length program.now.ends)) connections.items }
    requires targets { All (λ e. e.0 < length program.now.ends) targets.items }
    ensures ready { IfOk result (IsReady (length program.now.ends)) }
    ensures connections { IfOk result (λ w. w.connections ≡ connections) }
    ensures targets { IfOk result (λ w. w.targets ≡ targets) }
    ensures refused { IfErr result (IsRefusal program.now) }
{
    let count = program.ends.len();
    let edges = edges(alloc, &connections)?;
    let is_target = marked(alloc, count, &targets)?;
    let found = match survey_of(alloc, count as u32, &edges, &is_target) {
        Ok(found) => found,
        Err(fail) => return Err(loop_refusal(alloc, program, &connections, &fail)),
    };
    let rows = live_rows(alloc, &connections, found.counts.as_slice())?;
    let jumps = vec![in alloc; None; count]?;
    let mut wires = Wires {
        connections,
        targets,
        is_target,
        counts: found.counts,
        rows,
        jumps,
    };
    shorten_all(&mut wires, found.order.as_slice());
    Ok(wires)
}
