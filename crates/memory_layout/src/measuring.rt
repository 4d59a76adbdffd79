ghost use Rattle.std.specs.Prelude.{◌≡◌, ◌+◌, ◌*◌, ◌<◌, ◌^◌, All, IfOk, length, if◌then◌else◌, slice_index_or};
ghost use Rattle.cm_base.specs.Parts.{is_input as is_input_flow};
ghost use Rattle.cm_core.specs.declared.flat.Chain.{Chain as TheChain};
ghost use Rattle.cm_core.specs.declared.unit.Unit.{Unit as TheUnit};
ghost use Rattle.cm_core.specs.Code.{body_of};
ghost use Rattle.cm_core.specs.Linked as linked;
ghost use Rattle.cm_core.specs.Measures as measures;
ghost use Rattle.cm_core.specs.Sizes as sizes;
ghost use Rattle.memory_layout.specs.Events.{AreStarts};
ghost use Rattle.memory_layout.specs.Graphs.{linked_of, AreHandled};
ghost use Rattle.memory_layout.specs.Held.{held};
ghost use Rattle.memory_layout.specs.Ordered.{IsOrdered};

use crate::bytes::{shape_scalars, state_bytes};
use crate::events::{Event, events_by_start};
use crate::graph::Graph;
use crate::rings::rings_bytes;
use crate::splits::main_splits;
use crate::structs::struct_counts;
use crate::totals::{chains_scalars, sum_of, total};
use crate::units::ends_size;
use cm_base::{EndId, Flow, HostEnd, Items};
use cm_core::Leaf;
use std::alloc::{AllocError, Global};

fn is_input(flow: Flow) -> bool
    ensures { result ≡ is_input_flow flow }
{
    match flow {
        Flow::Input => true,
        Flow::Output => false,
    }
}

// An endpoint by its number among others.
fn end_among(ends: &[EndId], number: usize) -> EndId
    ensures { result ≡ slice_index_or ends.now number linked.no_end_id }
{
    match ends.get(number) {
        Some(end) => *end,
        None => EndId(0),
    }
}

// The bytes of memory by the number of leaves, chains and endpoints of the host, the scalars of the endpoints of leaves, the
// bytes of their states, the expanded size, and the bytes of the rings.
fn bytes_together(parts: u64, ends: u64, states: u64, size: u64, rings: u64) -> u64
    ensures { result ≡ held (4096 + 64 * parts + 16 * ends + states + 16 * size + rings) }
{
    parts
        .saturating_mul(64)
        .saturating_add(4096)
        .saturating_add(ends.saturating_mul(16))
        .saturating_add(states)
        .saturating_add(size.saturating_mul(16))
        .saturating_add(rings)
}

impl<'a> Graph<'a> {
    // How many scalars the endpoints of a leaf count for.
    fn leaf_ends_size(&self, leaf: &Leaf) -> u64
        ensures { result ≡ held (measures.ends_size (linked.unit_numbered (linked_of self.now) (Some leaf.now))) }
    {
        match self.unit_of(leaf) {
            Some(unit) => ends_size(unit.ends.as_slice()),
            None => 0,
        }
    }

    // The bytes of the state of a leaf.
    fn leaf_state_bytes(&self, leaf: &Leaf) -> u64
        ensures { result ≡ held (measures.state_bytes (linked.unit_numbered (linked_of self.now) (Some leaf.now))) }
    {
        match self.unit_of(leaf) {
            Some(unit) => state_bytes(unit),
            None => 0,
        }
    }

    // The split points of a leaf.
    fn leaf_splits(&self, leaf: &Leaf) -> u64
        ensures { result ≡ held (measures.main_splits (body_of (linked.unit_numbered (linked_of self.now) (Some leaf.now)).main)) }
    {
        match self.unit_of(leaf) {
            Some(unit) => main_splits(&unit.main),
            None => 0,
        }
    }

    /// The most split points of a leaf.
    pub fn split_points(&self) -> u64
        ensures { result ≡ held (measures.split_points (linked_of self.now)) }
    {
        let mut most: u64 = 0;
        let mut rest = self.flat.leaves.as_slice();
        while let Some((first, others)) = rest.split_first() {
            most = most.max(self.leaf_splits(first));
            rest = others;
        }
        most
    }

    // For each endpoint of the program the event chains that start there.
    fn starts(&self, alloc: Global) -> Result<Vec<Vec<Event>>, AllocError>
        requires { All (λ (chain : TheChain). chain.from.end.0 < length self.now.program.now.ends) self.now.flat.now.chains }
        ensures { IfOk result (λ starts. AreStarts self.now.flat.now.chains starts.items) }
    {
        let chains = self.flat.chains.as_slice();
        let starts = events_by_start(alloc, chains, self.program.ends.len())?;
        Ok(starts)
    }

    // What an event that comes in at an endpoint of the host counts for its chains.
    fn sent_size(&self, end: EndId, starts: &[Vec<Event>], handlers: &[Items<u64>]) -> u64
        requires starts { AreStarts self.now.flat.now.chains starts.now }
        requires handlers { AreHandled (linked_of self.now) handlers.now }
        ensures { result ≡ held (measures.written_size (linked_of self.now) (record { leaf = None; end = end })) }
    {
        self.point_size(None, end, starts, handlers)
    }

    // An endpoint of the host.
    fn host_end_size(
        &self,
        end: &HostEnd,
        id: EndId,
        starts: &[Vec<Event>],
        handlers: &[Items<u64>],
    ) -> u64
        requires starts { AreStarts self.now.flat.now.chains starts.now }
        requires handlers { AreHandled (linked_of self.now) handlers.now }
        ensures { result ≡ held (1 + sizes.scalars end.now.shape + (if is_input_flow end.now.flow then measures.written_size (linked_of self.now) (record { leaf = None; end = id }) else 0)) }
    {
        let own = shape_scalars(end.shape.as_slice()).saturating_add(1);
        if is_input(end.flow) {
            own.saturating_add(self.sent_size(id, starts, handlers))
        } else {
            own
        }
    }

    // The endpoints of the host, each with what an event that comes in there counts.
    fn host_size(&self, starts: &[Vec<Event>], handlers: &[Items<u64>]) -> u64
        requires starts { AreStarts self.now.flat.now.chains starts.now }
        requires handlers { AreHandled (linked_of self.now) handlers.now }
        ensures { result ≡ held (measures.host_size (linked_of self.now) 0 self.now.program.now.host) }
    {
        let ids = self.host_ends();
        let all = self.program.host.as_slice();
        let mut size: u64 = 0;
        let mut rest = all;
        while let Some((first, others)) = rest.split_first() {
            let id = end_among(ids, all.len() - rest.len());
            size = size.saturating_add(self.host_end_size(first, id, starts, handlers));
            rest = others;
        }
        size
    }

    /// The expanded size. Fails where memory runs out.
    pub fn expanded_size(&self, alloc: Global) -> Result<u64, AllocError>
        requires few { All (λ (unit : TheUnit). length unit.functions < 2 ^ 31) self.now.program.now.units }
        requires starts { All (λ (chain : TheChain). chain.from.end.0 < length self.now.program.now.ends) self.now.flat.now.chains }
        requires order { IsOrdered self.now.flat.now self.now.order.now }
        ensures { IfOk result (λ size. size ≡ held (measures.expanded_size (linked_of self.now))) }
    {
        let known = struct_counts(alloc, self.program.structs.as_slice())?;
        let starts = self.starts(alloc)?;
        let sized = self.leaf_sizes(alloc, &known, &starts)?;
        let host = self.host_size(&starts, &sized.handlers);
        Ok(
            sum_of(&sized.leaves)
                .saturating_add(chains_scalars(self.flat.chains.as_slice()))
                .saturating_add(host)
                .max(1),
        )
    }

    // How many leaves, chains and endpoints of the host there are.
    fn parts(&self) -> u64
        ensures { result ≡ held (length self.now.flat.now.leaves + length self.now.flat.now.chains + length self.now.program.now.host) }
    {
        (self.flat.leaves.len() as u64)
            .saturating_add(self.flat.chains.len() as u64)
            .saturating_add(self.program.host.len() as u64)
    }

    /// The bytes of memory that the program may use, where its expanded size is known.
    pub fn memory_bytes(&self, size: u64) -> u64
        requires { size ≡ held (measures.expanded_size (linked_of self.now)) }
        ensures { result ≡ held (measures.memory_bytes (linked_of self.now)) }
    {
        let leaves = self.flat.leaves.as_slice();
        let ends = total(leaves, |leaf| self.leaf_ends_size(leaf));
        let states = total(leaves, |leaf| self.leaf_state_bytes(leaf));
        let chains = self.flat.chains.as_slice();
        let rings = rings_bytes(chains, self.filled.extra.as_slice());
        bytes_together(self.parts(), ends, states, size, rings)
    }
}
