ghost use Rattle.std.specs.Prelude.{◌≡◌, ◌+◌, length};
ghost use Rattle.wasm_writer.specs.Size.{capped};
ghost use Rattle.wasm_writer.specs.Spelling.{text_bytes};

use crate::number::size_of_unsigned;

/// Past every size that a section may have, as a size is written in 32 bits. Sizes are counted up to here and
/// no further, so that no sum is out of range.
pub const BOUND: u64 = 4_294_967_296;

/// The size of two parts, one after the other.
pub fn add(first: u64, second: u64) -> u64
    ensures { result ≡ capped (first + second) }
{
    first.saturating_add(second).min(BOUND)
}

/// The size of bytes behind their count.
#[tactic(auto, using(crate::proofs::Sizes::text_sized))]
pub fn size_of_text(text: &[u8]) -> u64
    ensures { result ≡ capped (length (text_bytes text.now)) }
{
    let size = text.len() as u64;
    add(size_of_unsigned(size), size)
}
