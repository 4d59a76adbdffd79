//! The rules on single parts of a module: each function tells whether its rule holds.

ghost use Rattle.std.specs.Prelude.{◌≡◌, ◌+◌, ◌*◌, ◌<◌, ◌≤◌, ◌↔◌, IsTrue, length};
ghost use Rattle.std.specs.List.{AllByRecursion};
ghost use Rattle.std.specs.Int.{w32, cast_unsigned};
ghost use Rattle.wasm_tree.specs.Reduce.{page_size};
ghost use Rattle.wasm_tree.specs.Valid.{IsMemory, IsConstantOf};

use crate::memory::PAGE;
use cm_base::limits::MEMORY_PAGES;
use wasm_tree::{FuncType, GlobalVar, Instr, Limits, Segment, ValType};

/// Whether no function type has more than one result.
pub fn have_few_results(types: &[FuncType]) -> bool
    ensures { IsTrue result ↔ AllByRecursion (λ type. length type.results ≤ 1) types.now }
{
    types.iter().all(|ty| ty.results.len() <= 1)
}

/// Whether each of these numbers is that of a type.
pub fn are_below(numbers: &[u32], count: usize) -> bool
    ensures { IsTrue result ↔ AllByRecursion (λ number. number < count) numbers.now }
{
    numbers.iter().all(|number| (*number as usize) < count)
}

/// Whether a memory has no more pages than one may have.
pub fn is_memory(limits: Limits) -> bool
    ensures { IsTrue result ↔ IsMemory limits }
{
    match limits.max {
        None => limits.min <= MEMORY_PAGES,
        Some(most) => limits.min <= MEMORY_PAGES && limits.min <= most && most <= MEMORY_PAGES,
    }
}

/// Whether the instruction is a constant of the type.
pub fn is_constant_of(ty: ValType, instr: &Instr) -> bool
    ensures { IsTrue result ↔ IsConstantOf ty instr.now }
{
    match (ty, instr) {
        (ValType::I32, Instr::I32Const(_)) => true,
        (ValType::I64, Instr::I64Const(_)) => true,
        _ => false,
    }
}

/// Whether each global begins with a constant of its type.
pub fn are_globals_typed(globals: &[GlobalVar]) -> bool
    ensures { IsTrue result ↔ AllByRecursion (λ global. IsConstantOf global.ty global.value) globals.now }
{
    globals
        .iter()
        .all(|global| is_constant_of(global.ty, &global.value))
}

/// Whether each segment is of the one memory.
pub fn are_segments_indexed(segments: &[Segment]) -> bool
    ensures { IsTrue result ↔ AllByRecursion (λ segment. segment.memory < 1) segments.now }
{
    segments.iter().all(|segment| segment.memory < 1)
}

/// Whether a segment lies in a memory of so many pages.
fn does_segment_fit(segment: &Segment, pages: u32) -> bool
    ensures { IsTrue result ↔ (cast_unsigned w32 segment.now.offset + length segment.now.bytes ≤ pages * page_size) }
{
    let size = pages as u64 * PAGE;
    let offset = segment.offset.cast_unsigned() as u64;
    offset <= size && segment.bytes.len() as u64 <= size - offset
}

/// Whether each segment lies in a memory of so many pages.
pub fn do_segments_fit(segments: &[Segment], pages: u32) -> bool
    ensures { IsTrue result ↔ AllByRecursion (λ segment. cast_unsigned w32 segment.offset + length segment.bytes ≤ pages * page_size) segments.now }
{
    segments
        .iter()
        .all(|segment| does_segment_fit(segment, pages))
}
