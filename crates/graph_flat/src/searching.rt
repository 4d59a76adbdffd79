ghost use Rattle.std.specs.Prelude.{◌≡◌, ◌<◌, ◌^◌, ◌++◌, length, map, min, All, IfOk, OnOk, slice_index, sum_by};
ghost use Rattle.std.specs.List.{flat_map};
ghost use Rattle.cm_core.specs.Routes.{routes_from};
ghost use Rattle.graph_flat.specs.Paths.{leap as the_leap, next_path, path_of, IsShort};
ghost use Rattle.graph_flat.specs.Wires.{IsReady};

use crate::paths::{Path, joined};
use crate::wires::{Wires, leap};
use cm_base::EndId;
use cm_base::limits::CHAINS;
use cm_core::Connection;
use std::alloc::{AllocError, Global};

/// Puts a path for each of these connections on the stack, as far as there is one way on.
fn push_first(
    stack: &mut Vec<Path>,
    row: &[Connection],
    jumps: &[Option<Path>],
) -> Result<(), AllocError>
    requires within { All (λ c. c.to.0 < length jumps.now) row.now }
    requires short { All IsShort jumps.now }
    ensures { OnOk result (stack.new.items ≡ stack.old.items ++ map (the_leap jumps.now) row.now) }
{
    for connection in row {
        stack.push(leap(connection, jumps))?;
    }
    Ok(())
}

/// Puts a path that goes on with each of these connections on the stack, as far as there is one way on.
fn push_next(
    stack: &mut Vec<Path>,
    path: &Path,
    row: &[Connection],
    jumps: &[Option<Path>],
) -> Result<(), AllocError>
    requires within { All (λ c. c.to.0 < length jumps.now) row.now }
    requires short { All IsShort jumps.now }
    requires delay { path.now.delay < 2 ^ 60 }
    ensures { OnOk result (stack.new.items ≡ stack.old.items ++ map (next_path jumps.now path.now) row.now) }
{
    for connection in row {
        stack.push(joined(path, &leap(connection, jumps)))?;
    }
    Ok(())
}

/// The paths from these endpoints to the targets that they meet first, depth first by the order of connections.
pub fn search(alloc: Global, wires: &Wires, starts: &[EndId]) -> Result<Vec<Path>, AllocError>
    requires ready { IsReady (length wires.now.rows.items) wires.now }
    requires few { length wires.now.rows.items < 2 ^ 32 }
    requires within { All (λ e. e.0 < length wires.now.rows.items) starts.now }
    ensures { IfOk result (λ paths. paths.items ≡ map path_of (flat_map (routes_from wires.now.connections.items wires.now.targets.items (length wires.now.rows.items)) starts.now)) }
{
    let mut stack = Vec::new(alloc);
    for start in starts {
        push_first(&mut stack, &wires.rows[start.0 as usize], &wires.jumps)?;
    }
    let mut found = Vec::new(alloc);
    while let Some(path) = stack.pop() {
        let end = path.to.0 as usize;
        if wires.is_target[end] {
            found.push(path)?;
        } else {
            push_next(&mut stack, &path, &wires.rows[end], &wires.jumps)?;
        }
    }
    found.reverse();
    Ok(found)
}

/// The sum of the counts where these connections end, held at one more than a patch may have chains.
fn count_row(row: &[Connection], counts: &[u64]) -> u64
    requires within { All (λ c. c.to.0 < length counts.now) row.now }
    ensures { result ≡ min (sum_by (λ c. slice_index counts.now c.to.0) row.now) 65537 }
{
    let limit = CHAINS as u64 + 1;
    let mut total: u64 = 0;
    for connection in row {
        total = total
            .saturating_add(counts[connection.to.0 as usize])
            .min(limit);
    }
    total
}

/// How many routes lead from these endpoints to targets, held at one more than a patch may have chains. None is
/// walked.
pub fn route_count(wires: &Wires, starts: &[EndId]) -> u64
    requires ready { IsReady (length wires.now.rows.items) wires.now }
    requires within { All (λ e. e.0 < length wires.now.rows.items) starts.now }
    ensures { result ≡ min (length (flat_map (routes_from wires.now.connections.items wires.now.targets.items (length wires.now.rows.items)) starts.now)) 65537 }
{
    let limit = CHAINS as u64 + 1;
    let mut total: u64 = 0;
    for start in starts {
        let more = count_row(&wires.rows[start.0 as usize], wires.counts.as_slice());
        total = (total + more).min(limit);
    }
    total
}
