// Loads and stores: the low bytes of a number, low byte first (Core Specification 1.0, 4.4.4).

ghost use Rattle.std.specs.Prelude.{◌≡◌, ◌+◌, ◌≤◌, ◌%◌, ◌^◌, ◌++◌, take, drop, length};
ghost use Rattle.std.specs.Int.{w8, w16, w32, w64, to_le_bytes, from_le_bytes};
ghost use Rattle.wasm_tree.specs.Meaning.{loaded, load_size, load_type, stored, store_size};
ghost use Rattle.wasm_tree.specs.Reduce.{write_bytes};
ghost use Rattle.wasm_sound.specs.Kinds.{IsOf};

use wasm_tree::{LoadOp, StoreOp};

/// How many bytes are read.
#[inline(always)]
pub fn load_bytes(op: LoadOp) -> usize
    ensures { result ≡ load_size op }
{
    match op {
        LoadOp::I32 | LoadOp::I64Signed32 | LoadOp::I64Unsigned32 => 4,
        LoadOp::I64 => 8,
        LoadOp::I32Signed8 | LoadOp::I32Unsigned8 | LoadOp::I64Signed8 | LoadOp::I64Unsigned8 => 1,
        LoadOp::I32Signed16 | LoadOp::I32Unsigned16 | LoadOp::I64Signed16 | LoadOp::I64Unsigned16 =>
            2,
    }
}

/// How many bytes are written.
#[inline(always)]
pub fn store_bytes(op: StoreOp) -> usize
    ensures { result ≡ store_size op }
{
    match op {
        StoreOp::I32 | StoreOp::I64Low32 => 4,
        StoreOp::I64 => 8,
        StoreOp::I32Low8 | StoreOp::I64Low8 => 1,
        StoreOp::I32Low16 | StoreOp::I64Low16 => 2,
    }
}

/// The number that is loaded from an address.
#[inline(always)]
pub fn load(op: LoadOp, memory: &[u8], at: usize) -> u64
    requires { at + load_size op ≤ length memory.now }
    ensures value { result ≡ loaded op (take (load_size op) (drop at memory.now)) }
    ensures fits { IsOf (load_type op) result }
{
    match op {
        LoadOp::I32 => u64::from(read32(memory, at)),
        LoadOp::I64 => read64(memory, at),
        LoadOp::I32Signed8 => u64::from(i32::from(read8(memory, at).cast_signed()).cast_unsigned()),
        LoadOp::I32Unsigned8 => u64::from(read8(memory, at)),
        LoadOp::I32Signed16 => u64::from(i32::from(read16(
            memory, at,
        ).cast_signed()).cast_unsigned()),
        LoadOp::I32Unsigned16 => u64::from(read16(memory, at)),
        LoadOp::I64Signed8 => i64::from(read8(memory, at).cast_signed()).cast_unsigned(),
        LoadOp::I64Unsigned8 => u64::from(read8(memory, at)),
        LoadOp::I64Signed16 => i64::from(read16(memory, at).cast_signed()).cast_unsigned(),
        LoadOp::I64Unsigned16 => u64::from(read16(memory, at)),
        LoadOp::I64Signed32 => i64::from(read32(memory, at).cast_signed()).cast_unsigned(),
        LoadOp::I64Unsigned32 => u64::from(read32(memory, at)),
    }
}

/// Writes a number at an address.
#[inline(always)]
pub fn store(op: StoreOp, memory: &mut [u8], at: usize, x: u64)
    requires { at + store_size op ≤ length memory.old }
    ensures { memory.new ≡ write_bytes memory.old at (stored op x) }
{
    match op {
        StoreOp::I32 => write32(memory, at, (x % 0x100000000) as u32),
        StoreOp::I64 => write64(memory, at, x),
        StoreOp::I32Low8 => write8(memory, at, (x % 0x100) as u8),
        StoreOp::I32Low16 => write16(memory, at, (x % 0x10000) as u16),
        StoreOp::I64Low8 => write8(memory, at, (x % 0x100) as u8),
        StoreOp::I64Low16 => write16(memory, at, (x % 0x10000) as u16),
        StoreOp::I64Low32 => write32(memory, at, (x % 0x100000000) as u32),
    }
}

#[inline(always)]
fn read8(memory: &[u8], at: usize) -> u8
    requires { at + 1 ≤ length memory.now }
    ensures { result ≡ from_le_bytes w8 (take 1 (drop at memory.now)) }
{
    let mut word = [0u8; 1];
    word.copy_from_slice(&memory[at..at + 1]);
    u8::from_le_bytes(word)
}

#[inline(always)]
fn write8(memory: &mut [u8], at: usize, x: u8)
    requires { at + 1 ≤ length memory.old }
    ensures { memory.new ≡ write_bytes memory.old at (to_le_bytes w8 x) }
{
    memory[at..at + 1].copy_from_slice(&x.to_le_bytes());
}

#[inline(always)]
fn read16(memory: &[u8], at: usize) -> u16
    requires { at + 2 ≤ length memory.now }
    ensures { result ≡ from_le_bytes w16 (take 2 (drop at memory.now)) }
{
    let mut word = [0u8; 2];
    word.copy_from_slice(&memory[at..at + 2]);
    u16::from_le_bytes(word)
}

#[inline(always)]
fn write16(memory: &mut [u8], at: usize, x: u16)
    requires { at + 2 ≤ length memory.old }
    ensures { memory.new ≡ write_bytes memory.old at (to_le_bytes w16 x) }
{
    memory[at..at + 2].copy_from_slice(&x.to_le_bytes());
}

#[inline(always)]
fn read32(memory: &[u8], at: usize) -> u32
    requires { at + 4 ≤ length memory.now }
    ensures { result ≡ from_le_bytes w32 (take 4 (drop at memory.now)) }
{
    let mut word = [0u8; 4];
    word.copy_from_slice(&memory[at..at + 4]);
    u32::from_le_bytes(word)
}

#[inline(always)]
fn write32(memory: &mut [u8], at: usize, x: u32)
    requires { at + 4 ≤ length memory.old }
    ensures { memory.new ≡ write_bytes memory.old at (to_le_bytes w32 x) }
{
    memory[at..at + 4].copy_from_slice(&x.to_le_bytes());
}

#[inline(always)]
fn read64(memory: &[u8], at: usize) -> u64
    requires { at + 8 ≤ length memory.now }
    ensures { result ≡ from_le_bytes w64 (take 8 (drop at memory.now)) }
{
    let mut word = [0u8; 8];
    word.copy_from_slice(&memory[at..at + 8]);
    u64::from_le_bytes(word)
}

#[inline(always)]
fn write64(memory: &mut [u8], at: usize, x: u64)
    requires { at + 8 ≤ length memory.old }
    ensures { memory.new ≡ write_bytes memory.old at (to_le_bytes w64 x) }
{
    memory[at..at + 8].copy_from_slice(&x.to_le_bytes());
}
