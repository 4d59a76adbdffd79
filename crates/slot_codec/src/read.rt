// Scalars read from memory.

ghost use Rattle.std.specs.Prelude.{◌≡◌, ◌≤◌, ◌<◌, ◌^◌, length};
ghost use Rattle.std.specs.Int.{w32, w64, from_le_bytes};
ghost use Rattle.std.specs.List.{AllByRecursion};
ghost use Rattle.cm_base.specs.HostEnds.{IsLawfulScalar};
ghost use Rattle.wasm_tree.specs.Section.{scalar_size};
ghost use Rattle.wasm_tree.specs.Slots.{word_of, scalar_of, scalars_of, read_slot};

use crate::size::{shape_bytes, size_of};
use cm_base::{HostEnd, Scalar, Scalars};
use cm_scalar::convert;

// The number of up to four bytes, those that are missing being 0.
#[inline(always)]
fn word32(bytes: &[u8]) -> u32
    requires { length bytes.now ≤ 4 }
    ensures { result ≡ from_le_bytes w32 bytes.now }
{
    let mut word = [0u8; 4];
    word[..bytes.len()].copy_from_slice(bytes);
    u32::from_le_bytes(word)
}

// The number of up to eight bytes, those that are missing being 0.
#[inline(always)]
fn word64(bytes: &[u8]) -> u64
    requires { length bytes.now ≤ 8 }
    ensures { result ≡ from_le_bytes w64 bytes.now }
{
    let mut word = [0u8; 8];
    word[..bytes.len()].copy_from_slice(bytes);
    u64::from_le_bytes(word)
}

// The signed number that stands for a scalar of the kind.
fn word(kind: Scalar, bytes: &[u8]) -> i64
    requires { length bytes.now ≤ scalar_size kind }
    ensures { result ≡ word_of kind bytes.now }
{
    match kind {
        Scalar::Int64 => word64(bytes).cast_signed(),
        Scalar::Int32 => i64::from(word32(bytes).cast_signed()),
        Scalar::Bool => i64::from(word32(bytes).cast_signed()),
        Scalar::Wrap(_) => i64::from(word32(bytes).cast_signed()),
        Scalar::Clamp(_) => i64::from(word32(bytes).cast_signed()),
    }
}

// The scalar of the kind.
fn scalar(kind: Scalar, bytes: &[u8]) -> i64
    requires lawful { IsLawfulScalar kind }
    requires few { length bytes.now ≤ scalar_size kind }
    ensures { result ≡ scalar_of kind bytes.now }
{
    convert(word(kind, bytes), kind)
}

/// Reads the scalars of a shape from the begin of these bytes. A byte past the end counts as 0, and a number outside of its
/// kind is converted to it. It takes no memory.
pub fn read_scalars(shape: &[Scalar], bytes: &[u8], into: &mut Scalars)
    requires lawful { AllByRecursion IsLawfulScalar shape.now }
    requires long { length into.old ≡ length shape.now }
    ensures { into.new ≡ scalars_of shape.now bytes.now }
{
    let mut rest = bytes;
    for (i, kind) in shape.iter().enumerate() {
        let (word, after) = rest.split_at(size_of(*kind).min(rest.len()));
        into.set(i, scalar(*kind, word));
        rest = after;
    }
}

/// Reads an entry of the slot of an endpoint at this address. A byte past the end counts as 0, and a number outside of its
/// kind is converted to it. It takes no memory.
pub fn read_entry(end: &HostEnd, address: u32, entry: u32, memory: &[u8], into: &mut Scalars)
    requires lawful { AllByRecursion IsLawfulScalar end.now.shape }
    requires few { length end.now.shape < 2 ^ 24 }
    requires long { length into.old ≡ length end.now.shape }
    ensures { into.new ≡ read_slot (record { end = end.now; address = address }) entry memory.now }
{
    let shape = end.shape.as_slice();
    let at = address as usize + entry as usize * shape_bytes(shape);
    let (_, bytes) = memory.split_at(at.min(memory.len()));
    read_scalars(shape, bytes, into);
}
