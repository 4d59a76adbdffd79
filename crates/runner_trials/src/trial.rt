ghost use Rattle.std.specs.Prelude.{◌≡◌, IfOk, length, slice_get};
ghost use Rattle.std.specs.Option.{IfSome};
ghost use Rattle.wasm_tree.specs.Section.{ends_of};
ghost use Rattle.wasm_runner.specs.Entries.{HasEntry};

use crate::offers::offers;
use cm_base::{HostEnd, Items, Kind, NoMemory, Scalars, Snapshot};
use slot_codec::has_shape;
use std::alloc::Global;
use wasm_runner::{Ended, Export, Host, Runner, fits};
use wasm_valid::{Slots, Valid};

/// An instance of a valid module, with the slots of its endpoints.
#[derive(Drop)]
pub struct Trial {
    runner: Runner,
    slots: Slots,
    ghost same: { slots ≡ runner.of.section.slots },
}

// Zeros for so many scalars.
fn zeros(alloc: Global, count: usize) -> Result<Scalars, NoMemory>
    ensures { IfOk result (λ all. length all ≡ count) }
{
    Ok(Scalars::from_vec(vec![in alloc; 0; count]?))
}

impl Trial {
    /// A new instance of the module.
    pub fn start(alloc: Global, valid: Valid) -> Result<Trial, NoMemory> {
        let slots = valid.slots(alloc)?;
        let runner = Runner::start(alloc, valid)?;
        Ok(Trial { runner, slots })
    }

    /// An instance that goes on from the snapshot, if this is one of the module.
    pub fn resume(
        alloc: Global,
        valid: Valid,
        snapshot: &Snapshot,
    ) -> Result<Option<Trial>, NoMemory> {
        if !fits(&valid, snapshot) {
            return Ok(None);
        }
        let slots = valid.slots(alloc)?;
        let runner = Runner::resume(alloc, valid, snapshot)?;
        Ok(Some(Trial { runner, slots }))
    }

    /// Whether each call so far returned.
    pub fn live(&self) -> bool {
        self.runner.live()
    }

    /// The memory of the instance.
    pub fn memory(&self) -> &[u8] {
        self.runner.memory()
    }

    /// Calls what the module exports, if it does and the calls so far returned.
    pub fn call<H: Host>(&mut self, export: Export, host: &mut H, steps: u64) -> Option<Ended> {
        let ends = self.slots.host().as_slice();
        if !self.runner.live() || !offers(&self.runner, ends, export) {
            return None;
        }
        Some(self.runner.call(export, host, steps))
    }

    // The endpoint of this number, if its slot has this entry.
    fn end_with(&self, end: u32, entry: u32) -> Option<&HostEnd>
        ensures there { IfSome result (λ _. HasEntry self.now.runner.of.section end entry) }
        ensures found { IfSome result (λ found. IfSome (slice_get self.now.runner.of.section.slots end) (λ slot. slot.end ≡ found.now)) }
    {
        let found = self.slots.host().as_slice().get(end as usize)?;
        let entries = match found.kind {
            Kind::Stream => self.runner.block(),
            Kind::Value | Kind::Event => 1,
        };
        if entry < entries { Some(found) } else { None }
    }

    /// The scalars of an entry of an endpoint's slot, if there is one.
    pub fn read(&self, alloc: Global, end: u32, entry: u32) -> Result<Option<Scalars>, NoMemory> {
        let Some(found) = self.end_with(end, entry) else {
            return Ok(None);
        };
        let mut values = zeros(alloc, found.shape.len())?;
        self.runner.read_slot(end, entry, &mut values);
        Ok(Some(values))
    }

    /// The scalars of the first entry, as a host reads them from the memory by the slots alone, if there is such an endpoint.
    pub fn first(&self, alloc: Global, end: u32) -> Result<Option<Scalars>, NoMemory> {
        let Some(found) = self.slots.host().as_slice().get(end as usize) else {
            return Ok(None);
        };
        let mut values = zeros(alloc, found.shape.len())?;
        self.slots.read(self.runner.memory(), end, &mut values);
        Ok(Some(values))
    }

    /// Writes the scalars to an entry of an endpoint's slot, if there is one and they are of its shape, and tells whether.
    pub fn write(&mut self, end: u32, entry: u32, values: &Scalars) -> bool {
        let Some(found) = self.end_with(end, entry) else {
            return false;
        };
        if !has_shape(found.shape.as_slice(), values.as_slice()) {
            return false;
        }
        self.runner.write_slot(end, entry, values);
        true
    }

    /// The mutable globals, if the calls so far returned.
    pub fn globals(&self, alloc: Global) -> Result<Option<Scalars>, NoMemory> {
        let count = self.runner.global_count();
        if count == u32::MAX || !self.runner.live() {
            return Ok(None);
        }
        let mut values = zeros(alloc, count as usize)?;
        self.runner.globals(&mut values);
        Ok(Some(values))
    }

    /// A snapshot without current values, if the calls so far returned.
    pub fn snapshot(&self, alloc: Global) -> Result<Option<Snapshot>, NoMemory> {
        let Some(globals) = self.globals(alloc)? else {
            return Ok(None);
        };
        Ok(Some(Snapshot {
            memory: Items::from_slice(alloc, self.runner.memory())?,
            globals,
            current: Items::new(alloc),
        }))
    }
}
