ghost use Rattle.std.specs.Prelude.{◌≡◌, ◌<◌, ◌↔◌, IsTrue, IfOk, map, length};
ghost use Rattle.cm_core.specs.Expanded.{connections as all_connections};
ghost use Rattle.graph_search.specs.Edges.{IsBefore};
ghost use Rattle.graph_search.specs.Orders.{IsFault};
ghost use Rattle.graph_flat.specs.Edges.{edge_of as the_edge_of, leads, IsPlaceBetween};
ghost use Rattle.graph_flat.specs.Refusal.{IsRefusal};

use cm_base::{Cause, Fail, Place};
use cm_core::{Connection, Program};
use graph_search::{Edge, SearchFail, cycle_leads_back};
use std::alloc::{AllocError, Global};

/// A connection as an edge.
fn edge_of(connection: &Connection) -> Edge
    ensures { result ≡ the_edge_of connection.now }
{
    Edge {
        from: connection.from.0,
        to: connection.to.0,
    }
}

/// The connections as edges.
pub fn edges(alloc: Global, connections: &[Connection]) -> Result<Vec<Edge>, AllocError>
    ensures { IfOk result (λ es. es.items ≡ map the_edge_of connections.now) }
{
    let mut edges = Vec::with_capacity(alloc, connections.len())?;
    for connection in connections {
        edges.push(edge_of(connection))?;
    }
    Ok(edges)
}

/// Whether the connection leads from one endpoint to the other.
fn leads(connection: &Connection, from: u32, to: u32) -> bool
    ensures { result ≡ leads from to connection.now }
{
    connection.from.0 == from && connection.to.0 == to
}

/// The place of the first connection from one endpoint to the other.
fn place_between(connections: &[Connection], from: u32, to: u32) -> Place
    requires { IsBefore (map the_edge_of connections.now) from to }
    ensures { IsPlaceBetween connections.now from to result }
{
    let mut at = 0;
    while !leads(&connections[at], from, to) {
        at += 1;
    }
    connections[at].place
}

/// The refusal of a program whose connections have a loop.
pub fn loop_refusal(
    alloc: Global,
    program: &Program,
    connections: &[Connection],
    fail: &SearchFail,
) -> Fail
    requires connections { connections.now ≡ all_connections program.now }
    requires fault { IsFault (map the_edge_of connections.now) fail.now }
    ensures { IsRefusal program.now result }
{
    cycle_leads_back();
    match fail {
        SearchFail::Cycle(cycle) => {
            let ends = cycle.as_slice();
            let place = place_between(connections, ends[ends.len() - 1], ends[0]);
            Fail::refused(alloc, Cause::WireLoop, place)
        }
        SearchFail::NoMemory => Fail::NoMemory,
    }
}
