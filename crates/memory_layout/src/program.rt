ghost use Rattle.std.specs.Prelude.{◌≡◌, ◌+◌, ◌*◌, ◌<◌, ◌^◌, All, IfOk, length};
ghost use Rattle.cm_core.specs.declared.flat.Chain.{Chain as TheChain};
ghost use Rattle.cm_core.specs.declared.unit.Unit.{Unit as TheUnit};
ghost use Rattle.cm_core.specs.Measures as measures;
ghost use Rattle.memory_layout.specs.Graphs.{linked_by};
ghost use Rattle.memory_layout.specs.Held.{held};
ghost use Rattle.memory_layout.specs.Ordered.{IsOrdered};

use crate::graph::Graph;
use crate::measured::Measure;
use cm_base::LeafId;
use cm_core::{Filled, Flat, Program};
use std::alloc::{AllocError, Global};

// The cost by the expanded size and the split points.
fn cost(size: u64, splits: u64) -> u64
    ensures { result ≡ held (64 * size * (1 + splits)) }
{
    size.saturating_mul(64)
        .saturating_mul(splits.saturating_add(1))
}

/// The sizes of a program, by docs/LANGUAGE.md, "Sizes". Its chains have their extra delays, and the leaves stand in an order in
/// which events go forward. Fails where memory runs out.
pub fn measure(
    alloc: Global,
    program: &Program,
    flat: &Flat,
    filled: &Filled,
    order: &[LeafId],
) -> Result<Measure, AllocError>
    requires few { All (λ (unit : TheUnit). length unit.functions < 2 ^ 31) program.now.units }
    requires starts { All (λ (chain : TheChain). chain.from.end.0 < length program.now.ends) flat.now.chains }
    requires order { IsOrdered flat.now order.now }
    ensures size { IfOk result (λ found. found.size ≡ held (measures.expanded_size (linked_by program.now flat.now filled.now order.now))) }
    ensures splits { IfOk result (λ found. found.splits ≡ held (measures.split_points (linked_by program.now flat.now filled.now order.now))) }
    ensures bytes { IfOk result (λ found. found.bytes ≡ held (measures.memory_bytes (linked_by program.now flat.now filled.now order.now))) }
    ensures cost { IfOk result (λ found. found.cost ≡ held (measures.cost (linked_by program.now flat.now filled.now order.now))) }
{
    let graph = Graph {
        program,
        flat,
        filled,
        order,
    };
    let size = graph.expanded_size(alloc)?;
    let splits = graph.split_points();
    Ok(Measure {
        size,
        splits,
        bytes: graph.memory_bytes(size),
        cost: cost(size, splits),
    })
}
