ghost use Rattle.std.specs.Prelude.{◌≡◌, IfOk};
ghost use Rattle.cm_base.specs.HostEnds.{IsLawful};
ghost use Rattle.wasm_tree.specs.Section.{ends_of, block_length};
ghost use Rattle.wasm_tree.specs.Valid.{Valid as IsValid};
ghost use Rattle.wasm_sound.specs.Reached.{AreBounds};
ghost use Rattle.wasm_valid.specs.Rules.{IsAccepted};
ghost use Rattle.wasm_valid.specs.Views.{interface_number};

use crate::accept::Accepted;
use crate::described::block;
use crate::slots::Slots;
use cm_base::{HostEnds, NoMemory};
use std::alloc::Global;
use std::marker::Model;
use wasm_tree::{Interface, Module};

/// A module that is valid, with what a host and a runner need of it. Contracts see it as the module, what its
/// section `cmajor` says, and two bounds that no run exceeds.
#[derive(Drop)]
pub struct Valid {
    module: Module,
    interface: Interface,
    latency: u32,
    slots: Slots,
    stack: u64,
    marks: u64,
}

impl Model for Valid {
    ghost use Rattle.wasm_tree.specs.Section.{CmajorSection};
    ghost use Rattle.wasm_valid.specs.Checked.{Checked, IsChecked};
    ghost use Rattle.wasm_valid.specs.Views.{checked_of};

    ghost Value = { Checked };

    ghost view = { λ v. checked_of v.«module» v.interface v.latency v.slots v.stack v.marks };

    ghost invariant = { λ v. IsChecked (checked_of v.«module» v.interface v.latency v.slots v.stack v.marks) };
}

impl Valid {
    /// A module of which this was found.
    #[tactic(auto, using(crate::proofs::AcceptLemmas::accepted_lawful, crate::proofs::AcceptLemmas::accepted_checked))]
    pub(crate) fn new(module: Module, accepted: Accepted) -> Valid
        requires { IsAccepted «module» accepted }
        ensures { result.of ≡ «module» }
    {
        let section = accepted.section;
        Valid {
            module,
            interface: section.interface,
            latency: section.latency,
            slots: Slots::new(section.host, section.addresses),
            stack: accepted.bounds.cells,
            marks: accepted.bounds.marks,
        }
    }

    /// The module.
    pub fn module(&self) -> &Module
        ensures same { result.now ≡ self.now.of }
        // The module is valid.
        ensures valid { IsValid self.now.of self.now.section }
    {
        &self.module
    }

    /// How many cells a run holds at most, if it keeps operands and locals in one array. It takes no memory.
    pub fn stack(&self) -> u64
        ensures same { result ≡ self.now.stack }
        // No call of an export comes to a place where it holds more, or where it is stuck.
        ensures bounds { AreBounds self.now.of self.now.stack self.now.marks }
    {
        let _module = &self.module;
        self.stack
    }

    /// How many labels are open and how many callers wait at most, in all. It takes no memory.
    pub fn marks(&self) -> u64
        ensures { result ≡ self.now.marks }
    {
        self.marks
    }

    /// The endpoints of the section `cmajor`, in declaration order. It takes no memory.
    pub fn host(&self) -> &HostEnds
        ensures same { result.now ≡ ends_of self.now.section }
        ensures lawful { IsLawful result.now }
    {
        self.slots.host()
    }

    /// The endpoints and the addresses of their slots. It takes no memory.
    pub fn table(&self) -> &Slots
        ensures { result.now ≡ self.now.section.slots }
    {
        &self.slots
    }

    /// A copy of the endpoints and the addresses of their slots.
    pub fn slots(&self, alloc: Global) -> Result<Slots, NoMemory>
        ensures { IfOk result (λ copy. copy ≡ self.now.section.slots) }
    {
        self.slots.copy(alloc)
    }

    /// How many frames a call takes at most: the block length of interface 2, and 1 for interface 1. It takes
    /// no memory.
    pub fn block(&self) -> u32
        ensures { result ≡ block_length self.now.section.interface }
    {
        block(self.interface)
    }

    /// The interface: 1 for a call of each frame, 2 for a call of each block of frames. It takes no memory.
    pub fn interface(&self) -> u32
        ensures { result ≡ interface_number self.now.section.interface }
    {
        match self.interface {
            Interface::Single => 1,
            Interface::Blocks(_) => 2,
        }
    }
}
