ghost use Rattle.std.specs.Prelude.{◌≡◌, ◌<◌, ◌^◌, [], length, All, IfOk};
ghost use Rattle.graph_flat.specs.Paths.{jumped as the_jumped, leap as the_leap, IsShort, IsBelow};
ghost use Rattle.graph_flat.specs.Wires.{AreRows, IsReady, IsSame};

use crate::paths::{Path, first_path, joined};
use cm_base::EndId;
use cm_core::Connection;
use graph_search::Counts;
use std::alloc::{AllocError, Global};

/// The connections of a graph, made ready for a search from endpoint to endpoint.
///
/// `counts` has for each endpoint how many routes lead from it to targets, held at a limit. `rows` has for each
/// endpoint, in order, the connections that leave it and from which a route leads on. Where there is one alone and
/// the endpoint is no target, `jumps` may have a path that each route takes from there, so that a search doesn't
/// walk through nested graphs again and again.
#[derive(Drop)]
pub struct Wires {
    pub connections: Vec<Connection>,
    pub targets: Vec<EndId>,
    pub is_target: Vec<bool>,
    pub counts: Counts,
    pub rows: Vec<Vec<Connection>>,
    pub jumps: Vec<Option<Path>>,
}

/// A list for each endpoint, with nothing in it.
fn empty_rows(alloc: Global, count: usize) -> Result<Vec<Vec<Connection>>, AllocError>
    ensures { IfOk result (AreRows [] [] count) }
{
    let mut rows = Vec::with_capacity(alloc, count)?;
    for _ in 0..count {
        rows.push(Vec::new(alloc))?;
    }
    Ok(rows)
}

/// For each endpoint the connections that leave it and from which something leads on.
pub fn live_rows(
    alloc: Global,
    connections: &[Connection],
    counts: &[u64],
) -> Result<Vec<Vec<Connection>>, AllocError>
    requires { All (IsBelow (length counts.now)) connections.now }
    ensures { IfOk result (AreRows connections.now counts.now (length counts.now)) }
{
    let mut rows = empty_rows(alloc, counts.len())?;
    for connection in connections {
        if counts[connection.to.0 as usize] != 0 {
            rows[connection.from.0 as usize].push(*connection)?;
        }
    }
    Ok(rows)
}

/// A path, and one that may go on where it ends.
fn jumped(path: &Path, jump: Option<Path>) -> Path
    requires delay { path.now.delay < 2 ^ 60 }
    requires short { IsShort jump }
    ensures path { result ≡ the_jumped jump path.now }
    ensures delay { result.delay < 2 ^ 61 }
{
    match jump {
        Some(more) => joined(path, &more),
        None => *path,
    }
}

/// A connection, and the jump from where it ends.
pub fn leap(connection: &Connection, jumps: &[Option<Path>]) -> Path
    requires within { connection.now.to.0 < length jumps.now }
    requires short { All IsShort jumps.now }
    ensures path { result ≡ the_leap jumps.now connection.now }
    ensures delay { result.delay < 2 ^ 61 }
{
    let first = first_path(connection);
    jumped(&first, jumps[connection.to.0 as usize])
}

impl Wires {
    /// Lets a search jump from an endpoint that has one way on.
    pub fn shorten(&mut self, end: usize)
        requires ready { IsReady (length self.old.rows.items) self.old }
        requires few { length self.old.rows.items < 2 ^ 32 }
        requires within { end < length self.old.rows.items }
        ensures ready { IsReady (length self.old.rows.items) self.new }
        ensures same { IsSame self.old self.new }
    {
        let row = &self.rows[end];
        if !self.is_target[end] && row.len() == 1 {
            let leap = leap(&row[0], &self.jumps);
            self.jumps[end] = Some(leap);
        }
    }
}
