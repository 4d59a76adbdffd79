ghost use Rattle.std.specs.Prelude.{◌≡◌, ◌*◌};
ghost use Rattle.wasm_tree.specs.Valid.{memory_size};

use wasm_tree::Limits;

/// The bytes of a page of memory.
pub const PAGE: u64 = 65_536;

/// The pages that the memory has at the least, if there is one.
pub fn pages(memory: &[Limits]) -> u32
    ensures { result * 65536 ≡ memory_size memory.now }
{
    match memory {
        [] => 0,
        [limits, ..] => limits.min,
    }
}

/// The bytes that the memory has at the least, if there is one.
pub fn memory_bytes(memory: &[Limits]) -> u64
    ensures { result ≡ memory_size memory.now }
{
    pages(memory) as u64 * PAGE
}
