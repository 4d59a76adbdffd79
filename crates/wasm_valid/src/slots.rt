ghost use Rattle.std.specs.Prelude.{◌≡◌, ◌↔◌, length, map, slice_get, Some, IfOk, IsTrue};
ghost use Rattle.cm_base.specs.HostEnds.{IsLawful};
ghost use Rattle.wasm_tree.specs.Section.{Slot, slots_of};
ghost use Rattle.wasm_tree.specs.Slots.{read_slot};
ghost use Rattle.wasm_valid.specs.Views.{HasScalars};

use crate::scalars::read_scalars;
use cm_base::{HostEnd, HostEnds, Items, Name, NoMemory, Scalars, Shape};
use std::alloc::{AllocError, Global};
use std::marker::Model;

/// The address of each endpoint's slot, in declaration order.
pub type Addresses = Items<u32>;

/// The endpoints of a module and the addresses of their slots. Contracts see it as the list of the slots.
#[derive(Drop)]
pub struct Slots {
    host: HostEnds,
    addresses: Addresses,
}

impl Model for Slots {
    ghost use Rattle.std.specs.Prelude.{List, length, ◌≡◌};
    ghost use Rattle.wasm_tree.specs.Section.{Slot, slots_of};
    ghost use Rattle.cm_base.specs.HostEnds.{IsLawful};

    ghost Value = { List Slot };

    ghost view = { λ s. slots_of s.host s.addresses };

    ghost invariant = { λ s. (length s.host ≡ length s.addresses) × IsLawful s.host };
}

fn copy_of_end(alloc: Global, end: &HostEnd) -> Result<HostEnd, AllocError>
    ensures { IfOk result (λ copy. copy ≡ end.now) }
{
    let name = Name::from_str(alloc, end.name.as_str())?;
    let shape = Shape::from_slice(alloc, end.shape.as_slice())?;
    Ok(HostEnd {
        flow: end.flow,
        kind: end.kind,
        name,
        shape,
        parameter: end.parameter,
    })
}

fn copy_of_ends(alloc: Global, ends: &[HostEnd]) -> Result<HostEnds, AllocError>
    ensures { IfOk result (λ copy. copy ≡ ends.now) }
{
    let mut copy = Items::new(alloc);
    for end in ends {
        copy.push(copy_of_end(alloc, end)?)?;
    }
    Ok(copy)
}

impl Slots {
    /// The endpoints with these addresses of their slots.
    pub(crate) fn new(host: HostEnds, addresses: Addresses) -> Slots
        requires paired { length host ≡ length addresses }
        requires lawful { IsLawful host }
        ensures { result ≡ slots_of host addresses }
    {
        Slots { host, addresses }
    }

    /// The endpoints, in declaration order.
    #[tactic(auto, using(crate::proofs::SlotLemmas::ends_are))]
    pub fn host(&self) -> &HostEnds
        ensures same { result.now ≡ map (λ slot. slot.end) self.now }
        ensures lawful { IsLawful result.now }
    {
        &self.host
    }

    /// The addresses of the slots, in declaration order.
    #[tactic(auto, using(crate::proofs::SlotLemmas::addresses_are))]
    pub fn addresses(&self) -> &Addresses
        ensures { result.now ≡ map (λ slot. slot.address) self.now }
    {
        &self.addresses
    }

    /// A copy.
    pub fn copy(&self, alloc: Global) -> Result<Slots, NoMemory>
        ensures { IfOk result (λ copy. copy ≡ self.now) }
    {
        let host = copy_of_ends(alloc, self.host.as_slice())?;
        let addresses = Addresses::from_slice(alloc, self.addresses.as_slice())?;
        Ok(Slots { host, addresses })
    }

    /// Whether there is an endpoint of this number, and it has so many scalars. It takes no memory.
    pub fn has_scalars(&self, end: u32, count: usize) -> bool
        ensures { IsTrue result ↔ HasScalars self.now end count }
    {
        let host = self.host.as_slice();
        if end as usize >= host.len() {
            return false;
        }
        host[end as usize].shape.len() == count
    }

    /// Reads the scalars of the endpoint of this number into `into`, as a host reads them from its slot in this memory: one
    /// after another, each converted to its kind. A byte past the end of the memory counts as 0. It takes no memory.
    pub fn read(&self, memory: &[u8], end: u32, into: &mut Scalars)
        requires { HasScalars self.now end (length into.old) }
        ensures { (slot : Slot) → slice_get self.now end ≡ Some slot → into.new ≡ read_slot slot 0 memory.now }
    {
        let at = end as usize;
        let shape = self.host.as_slice()[at].shape.as_slice();
        let address = self.addresses.as_slice()[at] as usize;
        let (_before, entry) = memory.split_at(address.min(memory.len()));
        read_scalars(shape, entry, into);
    }
}
