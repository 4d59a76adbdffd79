ghost use Rattle.std.specs.Prelude.{◌≡◌, ◌<◌, ◌^◌, ℕ, List, All, IfOk, [], length, map, slice_index, true, vec_len};
ghost use Rattle.cm_base.specs.declared.place.EndId.{EndId as TheEndId};
ghost use Rattle.cm_core.specs.declared.flat.Chain.{Chain as TheChain};
ghost use Rattle.cm_core.specs.declared.unit.Unit.{Unit as TheUnit};
ghost use Rattle.cm_core.specs.declared.unit.Handler.{Handler as TheHandler};
ghost use Rattle.cm_core.specs.Code.{stmt_of};
ghost use Rattle.cm_core.specs.Forward.{has_leaf};
ghost use Rattle.cm_core.specs.Linked as linked;
ghost use Rattle.cm_core.specs.Measures as measures;
ghost use Rattle.cm_core.specs.Sizes as sizes;
ghost use Rattle.cm_core.specs.Types.{counts_after};
ghost use Rattle.memory_layout.specs.Events.{AreStarts, events_from};
ghost use Rattle.memory_layout.specs.Graphs.{linked_of, handled_in};
ghost use Rattle.memory_layout.specs.Held.{held};
ghost use Rattle.memory_layout.specs.Onward.{GoForward};

use crate::events::Event;
use crate::graph::Graph;
use crate::units::{UnitSizes, unit_sizes};
use cm_base::{EndId, Items, LeafId};
use std::alloc::{AllocError, Global};

/// The sizes of the leaves, and of the bodies of the handlers of each.
#[derive(Debug, Drop)]
pub struct LeafSizes {
    pub leaves: Vec<u64>,
    pub handlers: Vec<Items<u64>>,
}

// For each leaf no handlers.
fn no_handlers(alloc: Global, count: usize) -> Result<Vec<Items<u64>>, AllocError>
    ensures { IfOk result (λ found. vec_len found ≡ count) }
{
    let mut found = Vec::with_capacity(alloc, count)?;
    for _ in 0..count {
        found.push(Items::new(alloc))?;
    }
    Ok(found)
}

// The events that start at an endpoint.
fn events_at(starts: &[Vec<Event>], at: usize) -> &[Event]
    requires { at < length starts.now }
    ensures { (chains : List TheChain) → AreStarts chains starts.now → result.now ≡ events_from chains at }
{
    starts[at].as_slice()
}

impl<'a> Graph<'a> {
    /// What a write of an endpoint of a leaf, or an event that comes in at one of the host, counts for its chains.
    pub fn point_size(
        &self,
        leaf: Option<LeafId>,
        end: EndId,
        starts: &[Vec<Event>],
        handlers: &[Items<u64>],
    ) -> u64
        requires { AreStarts self.now.flat.now.chains starts.now }
        ensures { result ≡ held (measures.chains_size (linked_of self.now) (handled_in (linked_of self.now) handlers.now) (record { leaf = leaf; end = end })) }
    {
        let at = end.0 as usize;
        if at < starts.len() {
            self.events_size(leaf, events_at(starts, at), handlers)
        } else {
            0
        }
    }

    // What a write of each endpoint of a leaf counts for its chains.
    fn writes(
        &self,
        alloc: Global,
        leaf: LeafId,
        starts: &[Vec<Event>],
        handlers: &[Items<u64>],
    ) -> Result<Vec<u64>, AllocError>
        requires { AreStarts self.now.flat.now.chains starts.now }
        ensures { IfOk result (λ found. found.items ≡ map (λ (e : TheEndId). held (measures.chains_size (linked_of self.now) (handled_in (linked_of self.now) handlers.now) (record { leaf = Some leaf; end = e }))) (linked.leaf_ends (linked_of self.now) leaf.0)) }
    {
        let ends = self.leaf_ends(leaf);
        let mut found = Vec::with_capacity(alloc, ends.len())?;
        let mut rest = ends;
        while let Some((first, others)) = rest.split_first() {
            found.push(self.point_size(Some(leaf), *first, starts, handlers))?;
            rest = others;
        }
        Ok(found)
    }

    // How large the unit of a leaf is, where the handlers of later leaves are known.
    fn unit_sizes(
        &self,
        alloc: Global,
        known: &[u64],
        leaf: LeafId,
        starts: &[Vec<Event>],
        handlers: &[Items<u64>],
    ) -> Result<UnitSizes, AllocError>
        requires counted { known.now ≡ map held (counts_after [] self.now.program.now.structs) }
        requires few { All (λ (unit : TheUnit). length unit.functions < 2 ^ 31) self.now.program.now.units }
        requires starts { AreStarts self.now.flat.now.chains starts.now }
        ensures leaf { IfOk result (λ found. found.leaf ≡ held (measures.unit_size (measures.measured self.now.program.now.structs (linked.unit_at (linked_of self.now) leaf.0) (λ e. measures.chains_size (linked_of self.now) (handled_in (linked_of self.now) handlers.now) (linked.leaf_point (linked_of self.now) leaf.0 e))))) }
        ensures handlers { IfOk result (λ found. found.handlers ≡ map (λ (h : TheHandler). held (sizes.stmt_size (measures.measured self.now.program.now.structs (linked.unit_at (linked_of self.now) leaf.0) (λ e. measures.chains_size (linked_of self.now) (handled_in (linked_of self.now) handlers.now) (linked.leaf_point (linked_of self.now) leaf.0 e))) (stmt_of h.body))) (linked.unit_at (linked_of self.now) leaf.0).handlers) }
    {
        let writes = self.writes(alloc, leaf, starts, handlers)?;
        let beyond = self.point_size(Some(leaf), EndId(0), starts, handlers);
        match self.unit(leaf) {
            Some(unit) => {
                let structs = self.program.structs.as_slice();
                let found = unit_sizes(alloc, structs, known, unit, &writes, beyond)?;
                Ok(found)
            }
            None => Ok(UnitSizes {
                leaf: 1,
                handlers: Items::new(alloc),
            }),
        }
    }

    /// The sizes of the leaves, which are gone through from the last in their order to the first, so that the handlers that
    /// events of a leaf come to are known. Fails where memory runs out.
    pub fn leaf_sizes(
        &self,
        alloc: Global,
        known: &[u64],
        starts: &[Vec<Event>],
    ) -> Result<LeafSizes, AllocError>
        requires counted { known.now ≡ map held (counts_after [] self.now.program.now.structs) }
        requires few { All (λ (unit : TheUnit). length unit.functions < 2 ^ 31) self.now.program.now.units }
        requires starts { AreStarts self.now.flat.now.chains starts.now }
        requires order { GoForward self.now.flat.now.chains self.now.order.now }
        requires leaves { All (λ leaf. leaf.0 < length self.now.flat.now.leaves) self.now.order.now }
        requires count { length self.now.order.now ≡ length self.now.flat.now.leaves }
        ensures len { IfOk result (λ found. vec_len found.leaves ≡ length self.now.flat.now.leaves) }
        ensures leaves { IfOk result (λ found. (j : ℕ) → has_leaf self.now.order.now j ≡ true → slice_index found.leaves.items j ≡ held (measures.leaf_size (linked_of self.now) j)) }
        ensures handlers { IfOk result (λ found. (j : ℕ) → has_leaf self.now.order.now j ≡ true → (e : ℕ) → held (handled_in (linked_of self.now) found.handlers.items j e) ≡ held (measures.handled_size (linked_of self.now) (length self.now.flat.now.leaves) j e)) }
    {
        let count = self.flat.leaves.len();
        let mut leaves = vec![in alloc; 0; count]?;
        let mut handlers = no_handlers(alloc, count)?;
        let mut left = self.order.len();
        while left > 0 {
            left -= 1;
            let leaf = self.order[left];
            let found = self.unit_sizes(alloc, known, leaf, starts, &handlers)?;
            leaves[leaf.0 as usize] = found.leaf;
            handlers[leaf.0 as usize] = found.handlers;
        }
        Ok(LeafSizes { leaves, handlers })
    }
}
