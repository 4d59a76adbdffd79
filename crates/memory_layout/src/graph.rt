ghost use Rattle.std.specs.Prelude.{◌≡◌, ◌==◌, [], position, slice_index_or, sum_by, unwrap_or};
ghost use Rattle.cm_base.specs.declared.place.EndId.{EndId as TheEndId};
ghost use Rattle.std.specs.Option.{option_copied};
ghost use Rattle.cm_core.specs.Linked as linked;
ghost use Rattle.cm_core.specs.Tree as tree;
ghost use Rattle.cm_core.specs.Measures as measures;
ghost use Rattle.cm_core.specs.declared.unit.Handler.{Handler as TheHandler};
ghost use Rattle.memory_layout.specs.Events.{event_size as the_event_size};
ghost use Rattle.memory_layout.specs.Graphs.{linked_of, handled_in};
ghost use Rattle.memory_layout.specs.Held.{held};

use crate::events::Event;
use cm_base::{EndId, Items, LeafId, NodeId};
use cm_core::{Filled, Flat, Handler, Leaf, Program, Unit};

/// A program with its leaves and chains, their extra delays, and the order of its leaves.
#[derive(Clone, Copy)]
pub struct Graph<'a> {
    pub program: &'a Program,
    pub flat: &'a Flat,
    pub filled: &'a Filled,
    pub order: &'a [LeafId],
}

// The first place of an endpoint among others.
fn place_among(ends: &[EndId], end: EndId) -> Option<usize>
    ensures { result ≡ position (λ (e : TheEndId). e.0 == end.0) ends.now }
{
    ends.iter().position(|other| other.0 == end.0)
}

// The number of an endpoint among others.
fn number_among(ends: &[EndId], end: EndId) -> usize
    ensures { result ≡ linked.number_among ends.now end }
{
    match place_among(ends, end) {
        Some(number) => number,
        None => ends.len(),
    }
}

// The number of the handler of an input among handlers.
fn handler_among(handlers: &[Handler], number: usize) -> Option<usize>
    ensures { result ≡ position (λ (h : TheHandler). h.end == number) handlers.now }
{
    handlers
        .iter()
        .position(|handler| handler.end as usize == number)
}

// A size by its number.
fn size_at(sizes: &[u64], number: usize) -> u64
    ensures { result ≡ slice_index_or sizes.now number 0 }
{
    match sizes.get(number) {
        Some(size) => *size,
        None => 0,
    }
}

// The size of the body of a handler of a leaf, where those of each leaf are known.
fn body_at(sizes: &[Items<u64>], leaf: LeafId, handler: usize) -> u64
    ensures { result ≡ slice_index_or (slice_index_or sizes.now leaf.0 []) handler 0 }
{
    match sizes.get(leaf.0 as usize) {
        Some(known) => size_at(known.as_slice(), handler),
        None => 0,
    }
}

impl<'a> Graph<'a> {
    /// The unit of a leaf that is given itself.
    pub fn unit_of(&self, leaf: &Leaf) -> Option<&'a Unit>
        ensures { unwrap_or (option_copied result) linked.no_unit ≡ linked.unit_numbered (linked_of self.now) (Some leaf.now) }
    {
        self.program.units.get(leaf.unit as usize)
    }

    /// The unit of a leaf.
    pub fn unit(&self, leaf: LeafId) -> Option<&'a Unit>
        ensures { unwrap_or (option_copied result) linked.no_unit ≡ linked.unit_at (linked_of self.now) leaf.0 }
    {
        match self.flat.leaves.get(leaf.0 as usize) {
            Some(found) => self.program.units.get(found.unit as usize),
            None => None,
        }
    }

    /// The endpoints of an instance.
    fn node_ends(&self, node: NodeId) -> &'a [EndId]
        ensures { result.now ≡ (tree.node_at self.now.program.now node).ends }
    {
        match self.program.nodes.get(node.0 as usize) {
            Some(found) => found.ends.as_slice(),
            None => &[],
        }
    }

    /// The endpoints of a leaf.
    pub fn leaf_ends(&self, leaf: LeafId) -> &'a [EndId]
        ensures { result.now ≡ linked.leaf_ends (linked_of self.now) leaf.0 }
    {
        match self.flat.leaves.get(leaf.0 as usize) {
            Some(found) => self.node_ends(found.node),
            None => &[],
        }
    }

    /// The endpoints of the host.
    pub fn host_ends(&self) -> &'a [EndId]
        ensures { result.now ≡ linked.host_ends (linked_of self.now) }
    {
        self.node_ends(self.program.main)
    }

    // The number of the handler of a leaf's endpoint.
    fn handler(&self, leaf: LeafId, end: EndId) -> Option<usize>
        ensures { result ≡ position (λ (h : TheHandler). h.end == linked.number_among (linked.leaf_ends (linked_of self.now) leaf.0) end) (linked.unit_at (linked_of self.now) leaf.0).handlers }
    {
        let number = number_among(self.leaf_ends(leaf), end);
        match self.unit(leaf) {
            Some(unit) => handler_among(unit.handlers.as_slice(), number),
            None => None,
        }
    }

    // The body of the handler of a leaf's endpoint, where the sizes of the handlers of each leaf are known.
    fn handled(&self, leaf: LeafId, end: EndId, sizes: &[Items<u64>]) -> u64
        ensures { result ≡ handled_in (linked_of self.now) sizes.now leaf.0 (linked.number_among (linked.leaf_ends (linked_of self.now) leaf.0) end) }
    {
        match self.handler(leaf, end) {
            Some(handler) => body_at(sizes, leaf, handler),
            None => 0,
        }
    }

    // What an event counts at a leaf, or at the host.
    fn event_size(&self, leaf: Option<LeafId>, event: &Event, sizes: &[Items<u64>]) -> u64
        ensures { result ≡ held (the_event_size (linked_of self.now) (handled_in (linked_of self.now) sizes.now) leaf event.now) }
    {
        if event.from != leaf {
            return 0;
        }
        let body = match event.to.leaf {
            Some(leaf) => self.handled(leaf, event.to.end, sizes),
            None => 0,
        };
        event.scalars.saturating_add(body)
    }

    /// What events count together at a leaf, or at the host.
    pub fn events_size(&self, leaf: Option<LeafId>, events: &[Event], sizes: &[Items<u64>]) -> u64
        ensures { result ≡ held (sum_by (the_event_size (linked_of self.now) (handled_in (linked_of self.now) sizes.now) leaf) events.now) }
    {
        let mut size: u64 = 0;
        let mut rest = events;
        while let Some((first, others)) = rest.split_first() {
            size = size.saturating_add(self.event_size(leaf, first, sizes));
            rest = others;
        }
        size
    }
}
