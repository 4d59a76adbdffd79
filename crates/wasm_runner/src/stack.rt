// What single instructions do on the cells. Operands grow downward, so the last one is at the lowest cell in use.

ghost use Rattle.std.specs.Prelude.{ℕ, ◌≡◌, ◌+◌, ◌-◌, ◌/◌, ◌<◌, ◌≤◌, ◌==◌, length, slice_index, slice_set, Some, None, if◌then◌else◌, take, drop};
ghost use Rattle.std.specs.Bool.{OnTrue, OnFalse};
ghost use Rattle.wasm_tree.specs.Meaning.{width, test_of, compare_of, unary_of, binary_of, convert_of, load_size, load_type, loaded, store_size, stored};
ghost use Rattle.wasm_tree.specs.Typed.{convert_from, convert_to};
ghost use Rattle.wasm_tree.specs.Reduce.{write_bytes};
ghost use Rattle.wasm_tree.specs.declared.module.ValType.TheVariants.{I32};
ghost use Rattle.wasm_sound.specs.Kinds.{IsOf};

use crate::memory::{load, load_bytes, store, store_bytes};
use crate::number::{binary, compare, convert, test, unary};
use wasm_tree::{BinaryOp, CompareOp, ConvertOp, LoadOp, MemArg, StoreOp, UnaryOp, ValType};

/// Pushes a value.
#[inline(always)]
pub fn push(cells: &mut [u64], sp: usize, x: u64)
    requires room { 0 < sp }
    requires within { sp ≤ length cells.old }
    ensures { cells.new ≡ slice_set cells.old (sp - 1) x }
{
    cells[sp - 1] = x;
}

/// Takes a condition and two values, and leaves one of these.
#[inline(always)]
pub fn select_at(cells: &mut [u64], sp: usize)
    requires { sp + 3 ≤ length cells.old }
    ensures { cells.new ≡ slice_set cells.old (sp + 2) (if slice_index cells.old sp == 0 then slice_index cells.old (sp + 1) else slice_index cells.old (sp + 2)) }
{
    let x = if cells[sp] == 0 {
        cells[sp + 1]
    } else {
        cells[sp + 2]
    };
    cells[sp + 2] = x;
}

/// Pushes what is in a local.
#[inline(always)]
pub fn get_local(cells: &mut [u64], sp: usize, base: usize, local: u32)
    requires room { 0 < sp }
    requires within { sp ≤ length cells.old }
    requires there { local < base }
    requires base { base ≤ length cells.old }
    ensures { cells.new ≡ slice_set cells.old (sp - 1) (slice_index cells.old (base - 1 - local)) }
{
    let x = cells[base - 1 - local as usize];
    cells[sp - 1] = x;
}

/// Puts the last operand into a local.
#[inline(always)]
pub fn set_local(cells: &mut [u64], sp: usize, base: usize, local: u32)
    requires within { sp < length cells.old }
    requires there { local < base }
    requires base { base ≤ length cells.old }
    ensures { cells.new ≡ slice_set cells.old (base - 1 - local) (slice_index cells.old sp) }
{
    let x = cells[sp];
    cells[base - 1 - local as usize] = x;
}

/// Loads from the address that is the last operand and an offset, and says whether that is within the memory.
#[inline(always)]
pub fn load_at(cells: &mut [u64], memory: &[u8], sp: usize, op: LoadOp, place: MemArg) -> bool
    requires within { sp < length cells.old }
    requires address { IsOf I32 (slice_index cells.old sp) }
    ensures traps { OnFalse result ((length memory.now < slice_index cells.old sp + place.offset + load_size op) × (cells.new ≡ cells.old)) }
    ensures fits { OnTrue result (IsOf (load_type op) (loaded op (take (load_size op) (drop (slice_index cells.old sp + place.offset) memory.now)))) }
    ensures loads { OnTrue result ((slice_index cells.old sp + place.offset + load_size op ≤ length memory.now) × (cells.new ≡ slice_set cells.old sp (loaded op (take (load_size op) (drop (slice_index cells.old sp + place.offset) memory.now))))) }
{
    let at = cells[sp] as usize + place.offset as usize;
    if memory.len() < at + load_bytes(op) {
        return false;
    }
    cells[sp] = load(op, memory, at);
    true
}

/// Stores the last operand at the address below it and an offset, and says whether that is within the memory.
#[inline(always)]
pub fn store_at(cells: &[u64], memory: &mut [u8], sp: usize, op: StoreOp, place: MemArg) -> bool
    requires within { sp + 1 < length cells.now }
    requires address { IsOf I32 (slice_index cells.now (sp + 1)) }
    ensures traps { OnFalse result ((length memory.old < slice_index cells.now (sp + 1) + place.offset + store_size op) × (memory.new ≡ memory.old)) }
    ensures stores { OnTrue result ((slice_index cells.now (sp + 1) + place.offset + store_size op ≤ length memory.old) × (memory.new ≡ write_bytes memory.old (slice_index cells.now (sp + 1) + place.offset) (stored op (slice_index cells.now sp)))) }
{
    let at = cells[sp + 1] as usize + place.offset as usize;
    if memory.len() < at + store_bytes(op) {
        return false;
    }
    store(op, memory, at, cells[sp]);
    true
}

/// Whether the last operand is 0.
#[inline(always)]
pub fn test_at(cells: &mut [u64], sp: usize)
    requires { sp < length cells.old }
    ensures value { cells.new ≡ slice_set cells.old sp (test_of (slice_index cells.old sp)) }
    ensures fits { IsOf I32 (test_of (slice_index cells.old sp)) }
{
    cells[sp] = test(cells[sp]);
}

/// Compares the last two operands.
#[inline(always)]
pub fn compare_at(cells: &mut [u64], sp: usize, ty: ValType, op: CompareOp)
    requires within { sp + 1 < length cells.old }
    requires first { IsOf ty (slice_index cells.old (sp + 1)) }
    requires second { IsOf ty (slice_index cells.old sp) }
    ensures value { cells.new ≡ slice_set cells.old (sp + 1) (compare_of (width ty) op (slice_index cells.old (sp + 1)) (slice_index cells.old sp)) }
    ensures fits { IsOf I32 (compare_of (width ty) op (slice_index cells.old (sp + 1)) (slice_index cells.old sp)) }
{
    let z = compare(ty, op, cells[sp + 1], cells[sp]);
    cells[sp + 1] = z;
}

/// An operator of the last operand.
#[inline(always)]
pub fn unary_at(cells: &mut [u64], sp: usize, ty: ValType, op: UnaryOp)
    requires within { sp < length cells.old }
    requires first { IsOf ty (slice_index cells.old sp) }
    ensures value { cells.new ≡ slice_set cells.old sp (unary_of (width ty) op (slice_index cells.old sp)) }
    ensures fits { IsOf ty (unary_of (width ty) op (slice_index cells.old sp)) }
{
    let z = unary(ty, op, cells[sp]);
    cells[sp] = z;
}

/// An operator of the last two operands, and whether it doesn't trap.
#[inline(always)]
pub fn binary_at(cells: &mut [u64], sp: usize, ty: ValType, op: BinaryOp) -> bool
    requires within { sp + 1 < length cells.old }
    requires first { IsOf ty (slice_index cells.old (sp + 1)) }
    requires second { IsOf ty (slice_index cells.old sp) }
    ensures traps { OnFalse result (binary_of (width ty) op (slice_index cells.old (sp + 1)) (slice_index cells.old sp) ≡ None) }
    ensures gives { OnTrue result ((z : ℕ) × (binary_of (width ty) op (slice_index cells.old (sp + 1)) (slice_index cells.old sp) ≡ Some z) × IsOf ty z × (cells.new ≡ slice_set cells.old (sp + 1) z)) }
{
    match binary(ty, op, cells[sp + 1], cells[sp]) {
        None => false,
        Some(z) => {
            cells[sp + 1] = z;
            true
        }
    }
}

/// The last operand in another type.
#[inline(always)]
pub fn convert_at(cells: &mut [u64], sp: usize, op: ConvertOp)
    requires within { sp < length cells.old }
    requires first { IsOf (convert_from op) (slice_index cells.old sp) }
    ensures value { cells.new ≡ slice_set cells.old sp (convert_of op (slice_index cells.old sp)) }
    ensures fits { IsOf (convert_to op) (convert_of op (slice_index cells.old sp)) }
{
    let z = convert(op, cells[sp]);
    cells[sp] = z;
}
