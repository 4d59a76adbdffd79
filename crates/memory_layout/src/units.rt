ghost use Rattle.std.specs.Prelude.{◌≡◌, ◌<◌, ◌+◌, ◌^◌, [], length, map, sum_by, IfOk};
ghost use Rattle.cm_core.specs.Code.{body_of, stmt_of};
ghost use Rattle.cm_core.specs.Measures as measures;
ghost use Rattle.cm_core.specs.Sizes as sizes;
ghost use Rattle.cm_core.specs.Types.{counts_after};
ghost use Rattle.cm_core.specs.declared.unit.Handler.{Handler as TheHandler};
ghost use Rattle.cm_core.specs.declared.unit.Var.{Var as TheVar};
ghost use Rattle.memory_layout.specs.Held.{held};
ghost use Rattle.memory_layout.specs.Scales.{counts_or, scale_of};

use crate::bodies::body_sizes;
use crate::scale::Scale;
use crate::stmts::{stmt_size, value_size};
use cm_base::Items;
use cm_core::{CoreStmt, End, Handler, StructType, Unit, Var};
use std::alloc::{AllocError, Global};

/// How large a unit is at one of its leaves: the leaf without its chains, and the body of each handler.
#[derive(Debug, Drop)]
pub struct UnitSizes {
    pub leaf: u64,
    pub handlers: Items<u64>,
}

/// How many scalars the endpoints count for.
pub fn ends_size(ends: &[End]) -> u64
    ensures { result ≡ held (sum_by (λ end. sizes.scalars end.shape) ends.now) }
{
    let mut count: u64 = 0;
    let mut rest = ends;
    while let Some((first, others)) = rest.split_first() {
        count = count.saturating_add((first.shape.len() as u64).max(1));
        rest = others;
    }
    count
}

// The initial value of a variable of the state.
fn first_size<'a>(scale: &Scale<'a>, variable: &'a Var) -> u64
    ensures { result ≡ held (measures.first_size (scale_of scale.now) variable.now.first) }
{
    match &variable.first {
        Some(value) => value_size(scale, value),
        None => 0,
    }
}

// The initial values of the state.
fn state_size<'a>(scale: &Scale<'a>, state: &'a [Var]) -> u64
    ensures { result ≡ held (sum_by (λ (v : TheVar). measures.first_size (scale_of scale.now) v.first) state.now) }
{
    let mut size: u64 = 0;
    let mut rest = state;
    while let Some((first, others)) = rest.split_first() {
        size = size.saturating_add(first_size(scale, first));
        rest = others;
    }
    size
}

// A body that may be missing.
fn body_size<'a>(scale: &Scale<'a>, body: &'a Option<CoreStmt>) -> u64
    ensures { result ≡ held (sizes.stmt_size (scale_of scale.now) (body_of body.now)) }
{
    match body {
        Some(body) => stmt_size(scale, body),
        None => 0,
    }
}

// 1, the endpoints, the initial values of the state, and the bodies of `init` and `main`.
fn leaf_size(scale: &Scale<'_>) -> u64
    ensures { result ≡ held (measures.unit_size (scale_of scale.now)) }
{
    ends_size(scale.unit.ends.as_slice())
        .saturating_add(1)
        .saturating_add(state_size(scale, scale.unit.state.as_slice()))
        .saturating_add(body_size(scale, &scale.unit.init))
        .saturating_add(body_size(scale, &scale.unit.main))
}

// The bodies of the handlers, in their order.
fn handler_sizes<'a>(
    alloc: Global,
    scale: &Scale<'a>,
    handlers: &'a [Handler],
) -> Result<Items<u64>, AllocError>
    ensures { IfOk result (λ found. found ≡ map (λ (h : TheHandler). held (sizes.stmt_size (scale_of scale.now) (stmt_of h.body))) handlers.now) }
{
    let mut found = Vec::with_capacity(alloc, handlers.len())?;
    let mut rest = handlers;
    while let Some((first, others)) = rest.split_first() {
        found.push(stmt_size(scale, &first.body))?;
        rest = others;
    }
    Ok(Items::from_vec(found))
}

/// How large a unit is at a leaf where a write of each endpoint counts `chains` for its chains, and one of another endpoint
/// `beyond`. `known` has how many scalars each struct has. Fails where memory runs out.
pub fn unit_sizes(
    alloc: Global,
    structs: &[StructType],
    known: &[u64],
    unit: &Unit,
    chains: &[u64],
    beyond: u64,
) -> Result<UnitSizes, AllocError>
    requires few { length unit.now.functions < 2 ^ 31 }
    requires counted { known.now ≡ map held (counts_after [] structs.now) }
    ensures leaf { IfOk result (λ found. found.leaf ≡ held (measures.unit_size (measures.measured structs.now unit.now (counts_or chains.now beyond)))) }
    ensures handlers { IfOk result (λ found. found.handlers ≡ map (λ (h : TheHandler). held (sizes.stmt_size (measures.measured structs.now unit.now (counts_or chains.now beyond)) (stmt_of h.body))) unit.now.handlers) }
{
    let bodies = body_sizes(alloc, structs, known, unit, chains, beyond)?;
    let scale = Scale {
        structs,
        known,
        unit,
        first: 0,
        bodies: &bodies,
        chains,
        beyond,
    };
    let handlers = handler_sizes(alloc, &scale, unit.handlers.as_slice())?;
    Ok(UnitSizes {
        leaf: leaf_size(&scale),
        handlers,
    })
}
