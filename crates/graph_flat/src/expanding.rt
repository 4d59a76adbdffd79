ghost use Rattle.std.specs.Prelude.{◌≡◌, ◌++◌, ◌≤◌, length, map, All, Contains, IfOk, IfErr, OnOk, true, false};
ghost use Rattle.cm_core.specs.Consistent.{IsConsistent, IsLink, IsSide};
ghost use Rattle.cm_core.specs.Expanded.{ends_of, delay_of, pairs, connection_of, expanded, connections};
ghost use Rattle.cm_core.specs.GraphFaults.{IsDelay};
ghost use Rattle.graph_flat.specs.Refusal.{IsRefusal};
ghost use Rattle.graph_flat.specs.Sound.{IsSoundLink};

use crate::links::fault_of;
use crate::sides::{end_id, group_at, is_spread, picked};
use cm_base::limits::CONNECTIONS;
use cm_base::{Cause, EndId, Fail};
use cm_core::{Connection, Link, Program, Side};
use std::alloc::{AllocError, Global};

/// The delay of a connection.
fn delay_of(delay: Option<i64>) -> u32
    requires { IsDelay delay }
    ensures { result ≡ delay_of delay }
{
    match delay {
        None => 0,
        Some(frames) => frames as u32,
    }
}

/// The endpoints that a point stands for.
fn ends_of(alloc: Global, program: &Program, side: &Side) -> Result<Vec<EndId>, AllocError>
    requires program { IsConsistent program.now }
    requires side { IsSide program.now side.now }
    ensures { IfOk result (λ es. es.items ≡ ends_of program.now side.now) }
{
    let mut ends = Vec::new(alloc);
    if let Some(nodes) = picked(group_at(program, side), side.index) {
        for node in nodes {
            ends.push(end_id(program, side.end, *node))?;
        }
    }
    Ok(ends)
}

/// The connection of a source to a destination.
fn connection_of(link: &Link, from: EndId, to: EndId) -> Connection
    requires { IsDelay link.now.delay }
    ensures { result ≡ connection_of link.now (from, to) }
{
    Connection {
        from,
        to,
        delay: delay_of(link.delay),
        place: link.place,
    }
}

/// Appends the connections of one array to another, pairwise.
fn connect_pairwise(
    found: &mut Vec<Connection>,
    link: &Link,
    from: &[EndId],
    to: &[EndId],
) -> Result<(), AllocError>
    requires { IsDelay link.now.delay }
    ensures { OnOk result (found.new.items ≡ found.old.items ++ map (connection_of link.now) (pairs true from.now to.now)) }
{
    let count = from.len().min(to.len());
    for at in 0..count {
        found.push(connection_of(link, from[at], to[at]))?;
    }
    Ok(())
}

/// Appends the connections of one endpoint to each.
fn connect_one(
    found: &mut Vec<Connection>,
    link: &Link,
    from: EndId,
    to: &[EndId],
) -> Result<(), AllocError>
    requires { IsDelay link.now.delay }
    ensures { OnOk result (found.new.items ≡ found.old.items ++ map (connection_of link.now) (map (λ y. (from, y)) to.now)) }
{
    for destination in to {
        found.push(connection_of(link, from, *destination))?;
    }
    Ok(())
}

/// Appends the connections of each endpoint to each, of which there is one on one side.
fn connect_each(
    found: &mut Vec<Connection>,
    link: &Link,
    from: &[EndId],
    to: &[EndId],
) -> Result<(), AllocError>
    requires { IsDelay link.now.delay }
    ensures { OnOk result (found.new.items ≡ found.old.items ++ map (connection_of link.now) (pairs false from.now to.now)) }
{
    for source in from {
        connect_one(found, link, *source, to)?;
    }
    Ok(())
}

/// Appends the connections that a written one stands for.
fn expand(
    alloc: Global,
    found: &mut Vec<Connection>,
    program: &Program,
    link: &Link,
) -> Result<(), AllocError>
    requires program { IsConsistent program.now }
    requires link { IsLink program.now link.now }
    requires delay { IsDelay link.now.delay }
    ensures { OnOk result (found.new.items ≡ found.old.items ++ expanded program.now link.now) }
{
    let from = ends_of(alloc, program, &link.from)?;
    let to = ends_of(alloc, program, &link.to)?;
    let spread_from = is_spread(program, &link.from);
    let spread_to = is_spread(program, &link.to);
    if spread_from && spread_to {
        connect_pairwise(found, link, &from, &to)?;
        Ok(())
    } else {
        connect_each(found, link, &from, &to)?;
        Ok(())
    }
}

/// Appends the connections that a written one stands for, or refuses it.
fn add_link(
    alloc: Global,
    found: &mut Vec<Connection>,
    program: &Program,
    link: &Link,
) -> Result<(), Fail>
    requires program { IsConsistent program.now }
    requires link { Contains program.now.links link.now }
    ensures found { OnOk result (found.new.items ≡ found.old.items ++ expanded program.now link.now) }
    ensures sound { OnOk result (IsSoundLink program.now link.now) }
    ensures refused { IfErr result (IsRefusal program.now) }
{
    match fault_of(program, link) {
        Some(fault) => Err(Fail::refused(alloc, fault.cause, fault.place)),
        None => {
            expand(alloc, found, program, link)?;
            Ok(())
        }
    }
}

/// The connections of a program, in the order in which they are written, and then by index.
pub fn connections(alloc: Global, program: &Program) -> Result<Vec<Connection>, Fail>
    requires { IsConsistent program.now }
    ensures found { IfOk result (λ cs. cs.items ≡ connections program.now) }
    ensures sound { OnOk result (All (IsSoundLink program.now) program.now.links) }
    ensures few { OnOk result (length (connections program.now) ≤ 262144) }
    ensures refused { IfErr result (IsRefusal program.now) }
{
    let mut found = Vec::new(alloc);
    for link in program.links.as_slice() {
        add_link(alloc, &mut found, program, link)?;
        if found.len() > CONNECTIONS as usize {
            return Err(Fail::refused(alloc, Cause::TooManyConnections, program.place));
        }
    }
    Ok(found)
}
