ghost use Rattle.std.specs.Prelude.{◌≡◌, ◌<◌, ◌≤◌, ◌↔◌, IsTrue, IfOk, OnOk, All, length};
ghost use Rattle.cm_core.specs.Consistent.{IsConsistent, IsNode, IsGroup};
ghost use Rattle.program_shape.specs.Shape.{IsMeasured, HasParts, IsJoined};

use crate::ends::have_own_ends;
use crate::grouped::are_grouped;
use crate::groups::{are_groups, is_graph};
use crate::host::{are_host_ends, are_lawful};
use crate::links::are_links;
use crate::misfit::Misfit;
use crate::nodes::are_nodes;
use crate::owners::owners;
use crate::parents::parents;
use crate::tree::{check_tree, edges};
use cm_base::NoMemory;
use cm_base::limits::{LATENCY, LINKS, NODES};
use cm_core::{Program, Unit};
use std::alloc::{AllocError, Global};

/// Whether no latency is past its limit.
fn are_few_frames(units: &[Unit]) -> bool
    ensures { IsTrue result ↔ All (λ u. u.latency ≤ 65536) units.now }
{
    units.iter().all(|unit| unit.latency <= LATENCY)
}

/// Whether counts and latencies are within their limits, and the main instance is there.
fn is_measured(program: &Program) -> bool
    ensures { IsTrue result → IsMeasured program.now }
{
    program.nodes.len() <= NODES as usize
        && program.links.len() <= LINKS as usize
        && program.ends.len() < 1 << 32
        && (program.main.0 as usize) < program.nodes.len()
        && are_few_frames(program.units.as_slice())
}

/// Whether each instance, each group and the host are as they should be, looked at one by one.
fn has_parts(alloc: Global, program: &Program) -> Result<bool, AllocError>
    requires { IsMeasured program.now }
    ensures { IfOk result (λ b. IsTrue b → HasParts program.now) }
{
    let lawful = are_lawful(alloc, program.host.as_slice())?;
    Ok(
        lawful
            && are_nodes(program)
            && are_groups(program)
            && are_host_ends(program)
            && (is_graph(program, program.main) || program.links.is_empty()),
    )
}

/// Whether instances, endpoints, groups and connections fit together.
fn is_joined(alloc: Global, program: &Program) -> Result<bool, Misfit>
    requires measured { IsMeasured program.now }
    requires parts { HasParts program.now }
    ensures { IfOk result (λ b. IsTrue b → IsJoined program.now) }
{
    let edges = edges(alloc, program)?;
    check_tree(alloc, program, &edges)?;
    let parents = parents(alloc, program.nodes.len() as u32, &edges)?;
    let owners = owners(alloc, program, &parents)?;
    let grouped = are_grouped(alloc, program, &owners)?;
    let own = have_own_ends(alloc, program)?;
    Ok(grouped && own && are_links(program, &owners))
}

/// Whether the parts of a program fit together.
pub fn is_consistent(alloc: Global, program: &Program) -> Result<bool, NoMemory>
    ensures { IfOk result (λ b. IsTrue b → IsConsistent program.now) }
{
    if !is_measured(program) {
        return Ok(false);
    }
    if !has_parts(alloc, program)? {
        return Ok(false);
    }
    match is_joined(alloc, program) {
        Ok(joined) => Ok(joined),
        Err(Misfit::Apart) => Ok(false),
        Err(Misfit::NoMemory) => Err(NoMemory),
    }
}
