// Scalars written to memory.

ghost use Rattle.std.specs.Prelude.{◌≡◌, ◌≤◌, ◌<◌, ◌^◌, ◌+◌, ◌*◌, length, FitsSigned};
ghost use Rattle.std.specs.Int.{w32, w64, cast_unsigned, to_le_bytes};
ghost use Rattle.std.specs.List.{AllByRecursion};
ghost use Rattle.cm_base.specs.HostEnds.{IsLawfulScalar};
ghost use Rattle.cm_base.specs.Scripts.{IsOfKind, HasShape};
ghost use Rattle.wasm_tree.specs.Reduce.{write_bytes};
ghost use Rattle.wasm_tree.specs.Section.{scalar_size, shape_size};
ghost use Rattle.wasm_tree.specs.Slots.{scalar_bytes, scalars_bytes, write_slot};

use crate::size::{shape_bytes, size_of};
use cm_base::{HostEnd, Scalar, Scalars};

// Writes four bytes.
#[inline(always)]
fn write32(memory: &mut [u8], at: usize, value: i64)
    requires fits { FitsSigned w32 value }
    requires within { at + 4 ≤ length memory.old }
    ensures { memory.new ≡ write_bytes memory.old at (to_le_bytes w32 (cast_unsigned w32 value)) }
{
    let word = (value as i32).cast_unsigned();
    memory[at..at + 4].copy_from_slice(&word.to_le_bytes());
}

// Writes eight bytes.
#[inline(always)]
fn write64(memory: &mut [u8], at: usize, value: i64)
    requires { at + 8 ≤ length memory.old }
    ensures { memory.new ≡ write_bytes memory.old at (to_le_bytes w64 (cast_unsigned w64 value)) }
{
    memory[at..at + 8].copy_from_slice(&value.cast_unsigned().to_le_bytes());
}

// Writes a scalar.
fn write_scalar(kind: Scalar, value: i64, memory: &mut [u8], at: usize)
    requires lawful { IsLawfulScalar kind }
    requires of_kind { IsOfKind kind value }
    requires within { at + scalar_size kind ≤ length memory.old }
    ensures { memory.new ≡ write_bytes memory.old at (scalar_bytes kind value) }
{
    match kind {
        Scalar::Int64 => write64(memory, at, value),
        Scalar::Int32 => write32(memory, at, value),
        Scalar::Bool => write32(memory, at, value),
        Scalar::Wrap(_) => write32(memory, at, value),
        Scalar::Clamp(_) => write32(memory, at, value),
    }
}

/// Writes the scalars of a shape from an address on, where they lie within the memory. It takes no memory of its own.
pub fn write_scalars(shape: &[Scalar], values: &[i64], memory: &mut [u8], address: usize)
    requires lawful { AllByRecursion IsLawfulScalar shape.now }
    requires shaped { HasShape shape.now values.now }
    requires within { 0 < shape_size shape.now → address + shape_size shape.now ≤ length memory.old }
    ensures { memory.new ≡ write_bytes memory.old address (scalars_bytes shape.now values.now) }
{
    let mut at = address;
    for (i, kind) in shape.iter().enumerate() {
        write_scalar(*kind, values[i], memory, at);
        at += size_of(*kind);
    }
}

/// Writes an entry of the slot of an endpoint at this address, where it lies within the memory. It takes no memory of its
/// own.
pub fn write_entry(end: &HostEnd, address: u32, entry: u32, from: &Scalars, memory: &mut [u8])
    requires lawful { AllByRecursion IsLawfulScalar end.now.shape }
    requires few { length end.now.shape < 2 ^ 24 }
    requires shaped { HasShape end.now.shape from.now }
    requires within { 0 < shape_size end.now.shape → address + entry * shape_size end.now.shape + shape_size end.now.shape ≤ length memory.old }
    ensures { memory.new ≡ write_slot (record { end = end.now; address = address }) entry from.now memory.old }
{
    let shape = end.shape.as_slice();
    let at = address as usize + entry as usize * shape_bytes(shape);
    write_scalars(shape, from.as_slice(), memory, at);
}
