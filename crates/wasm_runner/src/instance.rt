// The globals and the memory that an instance begins with.

ghost use Rattle.std.specs.Prelude.{◌≡◌, ◌+◌, ◌≤◌, ◌<◌, length, map, IfOk};
ghost use Rattle.std.specs.Int.{w32, cast_unsigned};
ghost use Rattle.std.specs.List.{AllByRecursion};
ghost use Rattle.wasm_tree.specs.Instance.{constant_of, first_globals, first_memory, with_segments};
ghost use Rattle.wasm_tree.specs.Reduce.{write_bytes};
ghost use Rattle.wasm_tree.specs.Section.{CmajorSection};
ghost use Rattle.wasm_tree.specs.Valid.{Valid, memory_size, IsConstantOf};
ghost use Rattle.wasm_tree.specs.declared.module.ValType.TheVariants.{I32, I64};
ghost use Rattle.wasm_sound.specs.Kinds.{IsOf, AreOf};

use crate::reduce::{bits32, bits64};
use std::alloc::{AllocError, Global};
use wasm_tree::{Instr, Module, Segment};

/// The bits of a constant, and 0 for other instructions.
pub fn constant(instr: &Instr) -> u64
    ensures value { result ≡ constant_of instr.now }
    ensures fits32 { IsConstantOf I32 instr.now → IsOf I32 result }
    ensures fits64 { IsConstantOf I64 instr.now → IsOf I64 result }
{
    match instr {
        Instr::I32Const(value) => bits32(*value),
        Instr::I64Const(value) => bits64(*value),
        _ => 0,
    }
}

/// The globals that an instance of a valid module begins with.
#[tactic(auto, using(crate::proofs::First::typed_more, crate::proofs::First::all_typed, crate::proofs::First::none_typed))]
pub fn globals_of(alloc: Global, loaded: &Module) -> Result<Vec<u64>, AllocError>
    requires { AllByRecursion (λ global. IsConstantOf global.ty global.value) loaded.now.globals }
    ensures first { IfOk result (λ globals. globals.items ≡ first_globals loaded.now) }
    ensures typed { IfOk result (λ globals. AreOf (map (λ global. global.ty) loaded.now.globals) globals.items) }
{
    let mut globals = Vec::new(alloc);
    for global in loaded.globals.as_slice() {
        globals.push(constant(&global.value))?;
    }
    Ok(globals)
}

/// How many bytes the memory has.
pub fn memory_bytes(loaded: &Module) -> usize
    ensures { result ≡ memory_size loaded.now.memory }
{
    match loaded.memory.as_slice().first() {
        None => 0,
        Some(limits) => limits.min as usize * 65536,
    }
}

// Writes a segment.
fn put_segment(memory: &mut [u8], segment: &Segment)
    requires { cast_unsigned w32 segment.now.offset + length segment.now.bytes ≤ length memory.old }
    ensures written { memory.new ≡ write_bytes memory.old (cast_unsigned w32 segment.now.offset) segment.now.bytes }
    ensures long { length memory.new ≡ length memory.old }
{
    let at = segment.offset.cast_unsigned() as usize;
    let bytes = segment.bytes.as_slice();
    memory[at..at + bytes.len()].copy_from_slice(bytes);
}

// Writes the segments one after another.
fn put_segments(memory: &mut [u8], segments: &[Segment])
    requires { AllByRecursion (λ segment. cast_unsigned w32 segment.offset + length segment.bytes ≤ length memory.old) segments.now }
    ensures written { memory.new ≡ with_segments segments.now memory.old }
    ensures long { length memory.new ≡ length memory.old }
{
    for segment in segments {
        put_segment(memory, segment);
    }
}

/// Bytes are below 256.
#[inline(always)]
pub fn are_bytes(bytes: &[u8])
    ensures { AllByRecursion (λ byte. byte < 256) bytes.now }
{}

/// The memory that an instance of a valid module begins with.
pub fn memory_of(alloc: Global, loaded: &Module) -> Result<Vec<u8>, AllocError>
    requires { (section : CmajorSection) × Valid loaded.now section }
    ensures first { IfOk result (λ memory. memory.items ≡ first_memory loaded.now) }
    ensures long { IfOk result (λ memory. length memory.items ≡ memory_size loaded.now.memory) }
    ensures bytes { IfOk result (λ memory. AllByRecursion (λ byte. byte < 256) memory.items) }
{
    let mut memory = vec![in alloc; 0u8; memory_bytes(loaded)]?;
    put_segments(&mut memory, loaded.segments.as_slice());
    are_bytes(&memory);
    Ok(memory)
}
