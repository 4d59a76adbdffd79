//! Scalars in the memory of a module: docs/MODULE.md, "Slots".

ghost use Rattle.std.specs.Prelude.{◌≡◌, length, slice_index};
ghost use Rattle.std.specs.Int.{w32, w64, from_le_bytes};
ghost use Rattle.std.specs.List.{AllByRecursion};
ghost use Rattle.cm_base.specs.HostEnds.{IsLawfulScalar};
ghost use Rattle.wasm_tree.specs.Section.{scalar_size};
ghost use Rattle.wasm_tree.specs.Slots.{word_of, scalar_of as the_scalar, scalars_of};

use cm_base::{Scalar, Scalars};
use cm_scalar::convert;

/// The bytes of a scalar.
pub fn scalar_bytes(kind: Scalar) -> usize
    ensures { result ≡ scalar_size kind }
{
    match kind {
        Scalar::Int64 => 8,
        _ => 4,
    }
}

/// The byte at this place, and 0 past the end.
fn byte_at(bytes: &[u8], at: usize) -> u8
    ensures { result ≡ slice_index bytes.now at }
{
    match bytes.get(at) {
        Some(byte) => *byte,
        None => 0,
    }
}

/// The number in the first four bytes, low byte first.
#[tactic(auto, using(crate::proofs::ScalarLemmas::four_bytes))]
fn word32(bytes: &[u8]) -> u32
    ensures { result ≡ from_le_bytes w32 bytes.now }
{
    u32::from_le_bytes([
        byte_at(bytes, 0),
        byte_at(bytes, 1),
        byte_at(bytes, 2),
        byte_at(bytes, 3),
    ])
}

/// The number in the first eight bytes, low byte first.
#[tactic(auto, using(crate::proofs::ScalarLemmas::eight_bytes))]
fn word64(bytes: &[u8]) -> u64
    ensures { result ≡ from_le_bytes w64 bytes.now }
{
    u64::from_le_bytes([
        byte_at(bytes, 0),
        byte_at(bytes, 1),
        byte_at(bytes, 2),
        byte_at(bytes, 3),
        byte_at(bytes, 4),
        byte_at(bytes, 5),
        byte_at(bytes, 6),
        byte_at(bytes, 7),
    ])
}

/// The signed number that stands in the bytes of a scalar.
fn number_of(kind: Scalar, bytes: &[u8]) -> i64
    ensures { result ≡ word_of kind bytes.now }
{
    match kind {
        Scalar::Int64 => word64(bytes).cast_signed(),
        _ => i64::from(word32(bytes).cast_signed()),
    }
}

/// The scalar that is read from its bytes.
fn scalar_of(kind: Scalar, bytes: &[u8]) -> i64
    requires { IsLawfulScalar kind }
    ensures { result ≡ the_scalar kind bytes.now }
{
    convert(number_of(kind, bytes), kind)
}

/// Reads scalars one after another. A byte past the end of the memory counts as 0.
pub fn read_scalars(shape: &[Scalar], memory: &[u8], into: &mut Scalars)
    requires lawful { AllByRecursion IsLawfulScalar shape.now }
    requires places { length into.old ≡ length shape.now }
    ensures { into.new ≡ scalars_of shape.now memory.now }
{
    let mut rest = memory;
    for at in 0..shape.len() {
        let kind = shape[at];
        let (front, behind) = rest.split_at(scalar_bytes(kind).min(rest.len()));
        into.set(at, scalar_of(kind, front));
        rest = behind;
    }
}
