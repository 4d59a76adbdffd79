// The slots of endpoints in a module's memory.

ghost use Rattle.std.specs.Prelude.{◌≡◌, ◌<◌, length, slice_get};
ghost use Rattle.std.specs.Option.{IfSome};
ghost use Rattle.std.specs.List.{AllByRecursion};
ghost use Rattle.cm_base.specs.Scripts.{HasShape};
ghost use Rattle.wasm_tree.specs.Slots.{read_slot, write_slot};
ghost use Rattle.wasm_runner.specs.Entries.{IsShaped, LiesIn};

use crate::instance::are_bytes;
use cm_base::Scalars;
use slot_codec::{read_entry, write_entry};
use wasm_valid::Slots;

/// Reads an entry of the slot of an endpoint. It takes no memory.
pub fn read_at(table: &Slots, end: u32, entry: u32, memory: &[u8], into: &mut Scalars)
    requires there { end < length table.now }
    requires shaped { AllByRecursion IsShaped table.now }
    requires long { IfSome (slice_get table.now end) (λ slot. length into.old ≡ length slot.end.shape) }
    ensures { IfSome (slice_get table.now end) (λ slot. into.new ≡ read_slot slot entry memory.now) }
{
    let end = end as usize;
    let ends = table.host().as_slice();
    let addresses = table.addresses().as_slice();
    read_entry(&ends[end], addresses[end], entry, memory, into);
}

/// Writes an entry of the slot of an endpoint. It takes no memory of its own.
pub fn write_at(table: &Slots, end: u32, entry: u32, from: &Scalars, memory: &mut [u8])
    requires there { end < length table.now }
    requires shaped { AllByRecursion IsShaped table.now }
    requires values { IfSome (slice_get table.now end) (λ slot. HasShape slot.end.shape from.now) }
    requires within { IfSome (slice_get table.now end) (LiesIn (length memory.old) entry) }
    ensures written { IfSome (slice_get table.now end) (λ slot. memory.new ≡ write_slot slot entry from.now memory.old) }
    ensures bytes { AllByRecursion (λ byte. byte < 256) memory.new }
    ensures long { length memory.new ≡ length memory.old }
{
    let end = end as usize;
    let ends = table.host().as_slice();
    let addresses = table.addresses().as_slice();
    write_entry(&ends[end], addresses[end], entry, from, memory);
    are_bytes(memory);
}
