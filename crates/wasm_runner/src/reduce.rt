// One step of the loop.

ghost use Rattle.std.specs.Prelude.{ℕ, List, ◌≡◌, ◌≢◌, ◌+◌, ◌-◌, ◌<◌, ◌≤◌, length, slice_index, slice_get, slice_set, unwrap_or, Some};
ghost use Rattle.std.specs.Bool.{OnTrue, OnFalse};
ghost use Rattle.std.specs.Int.{w32, w64, cast_unsigned};
ghost use Rattle.wasm_tree.specs.declared.module.ValType.TheVariants.{I32, I64};
ghost use Rattle.wasm_sound.specs.Kinds.{IsOf};
ghost use Rattle.wasm_tree.specs.declared.module.FuncBody.{FuncBody};
ghost use Rattle.wasm_tree.specs.Reduce.{Config, arity_of as label_arity};
ghost use Rattle.wasm_runner.specs.declared.place.Block.{Block as Mark};
ghost use Rattle.wasm_runner.specs.declared.place.Caller.{Caller};
ghost use Rattle.wasm_runner.specs.declared.step.Step.TheVariants.{Go, Exit};
ghost use Rattle.wasm_sound.specs.Sound.{Scope};
ghost use Rattle.wasm_runner.specs.Jumps.{AreJumps};
ghost use Rattle.wasm_runner.specs.Standing.{Stacks, IsAt, IsSomewhere};
ghost use Rattle.wasm_runner.specs.Steps.{Took};

use crate::jump::Jump;
use crate::place::{Block, Place};
use crate::stack::{
    binary_at, compare_at, convert_at, get_local, load_at, push, select_at, set_local, store_at,
    test_at, unary_at,
};
use crate::step::Step;
use wasm_tree::{Instr, LabelTable, ValType};

// The label that a table gives for the last operand.
#[inline(always)]
fn chosen(table: &LabelTable, cells: &[u64], sp: usize) -> u32
    requires { sp < length cells.now }
    ensures { result ≡ unwrap_or (slice_get table.now.labels (slice_index cells.now sp)) table.now.other }
{
    let x = cells[sp];
    let labels = table.labels.as_slice();
    if x < labels.len() as u64 {
        labels[x as usize]
    } else {
        table.other
    }
}

// Whether the last operand is 0.
#[inline(always)]
fn is_zero(cells: &[u64], sp: usize) -> bool
    requires { sp < length cells.now }
    ensures yes { OnTrue result (slice_index cells.now sp ≡ 0) }
    ensures no { OnFalse result (slice_index cells.now sp ≢ 0) }
{
    cells[sp] == 0
}

// Where an `if` goes by the last operand: to the second place at 0.
#[inline(always)]
fn arm(cells: &[u64], sp: usize, first: usize, second: usize) -> usize
    requires { sp < length cells.now }
    ensures zero { slice_index cells.now sp ≡ 0 → result ≡ second }
    ensures other { slice_index cells.now sp ≢ 0 → result ≡ first }
{
    if cells[sp] == 0 { second } else { first }
}

// Pushes what is in a global.
#[inline(always)]
fn get_global(cells: &mut [u64], globals: &[u64], sp: usize, global: u32)
    requires room { 0 < sp }
    requires within { sp ≤ length cells.old }
    requires there { global < length globals.now }
    ensures { cells.new ≡ slice_set cells.old (sp - 1) (slice_index globals.now global) }
{
    cells[sp - 1] = globals[global as usize];
}

// Puts the last operand into a global.
#[inline(always)]
fn set_global(cells: &[u64], globals: &mut [u64], sp: usize, global: u32)
    requires within { sp < length cells.now }
    requires there { global < length globals.old }
    ensures { globals.new ≡ slice_set globals.old global (slice_index cells.now sp) }
{
    globals[global as usize] = cells[sp];
}

// The bits of a constant.
#[inline(always)]
pub fn bits32(value: i32) -> u64
    ensures value { result ≡ cast_unsigned w32 value }
    ensures fits { IsOf I32 result }
{
    u64::from(value.cast_unsigned())
}

// The bits of a constant.
#[inline(always)]
pub fn bits64(value: i64) -> u64
    ensures value { result ≡ cast_unsigned w64 value }
    ensures fits { IsOf I64 result }
{
    value.cast_unsigned()
}

// Where control goes from a place.
#[inline(always)]
fn jump_to(jumps: &[Jump], at: usize) -> Jump
    requires { at < length jumps.now }
    ensures { slice_get jumps.now at ≡ Some result }
{
    jumps[at]
}

// Opens a block.
#[inline(always)]
fn enter(blocks: &mut [Block], lp: usize, arity: usize, target: usize, height: usize)
    requires room { 0 < lp }
    requires within { lp ≤ length blocks.old }
    ensures { blocks.new ≡ slice_set blocks.old (lp - 1) (record { arity = arity; target = target; height = height }) }
{
    blocks[lp - 1] = Block {
        arity,
        target,
        height,
    };
}

// A branch to the label of a number, where the operands begin at `sp`.
#[inline(always)]
fn branch(cells: &mut [u64], blocks: &[Block], place: Place, sp: usize, label: u32) -> Step
    requires floor { place.lp ≤ place.floor }
    requires blocks { place.floor ≤ length blocks.now }
    requires takes { (mark : Mark) → slice_get blocks.now (place.lp + label) ≡ Some mark → place.lp + label < place.floor → mark.arity ≢ 0 → (0 < mark.height) × (mark.height ≤ length cells.old) × (sp < length cells.old) }
    ensures exits { place.floor ≤ place.lp + label → (result ≡ Exit sp) × (cells.new ≡ cells.old) }
    ensures bare { (mark : Mark) → slice_get blocks.now (place.lp + label) ≡ Some mark → place.lp + label < place.floor → mark.arity ≡ 0 → (result ≡ Go mark.target mark.height (place.lp + label + 1)) × (cells.new ≡ cells.old) }
    ensures takes { (mark : Mark) → slice_get blocks.now (place.lp + label) ≡ Some mark → place.lp + label < place.floor → mark.arity ≢ 0 → (result ≡ Go mark.target (mark.height - 1) (place.lp + label + 1)) × (cells.new ≡ slice_set cells.old (mark.height - 1) (slice_index cells.old sp)) }
{
    let label = label as usize;
    if label >= place.floor - place.lp {
        return Step::Exit(sp);
    }
    let block = blocks[place.lp + label];
    if block.arity == 0 {
        return Step::Go(block.target, block.height, place.lp + label + 1);
    }
    let x = cells[sp];
    cells[block.height - 1] = x;
    Step::Go(block.target, block.height - 1, place.lp + label + 1)
}

#[inline(always)]
fn arity_of(ty: &Option<ValType>) -> usize
    ensures { result ≡ label_arity ty.now }
{
    match ty {
        None => 0,
        Some(_) => 1,
    }
}

/// The reduction of the next instruction, or a constant.
#[inline(always)]
pub fn take_step(
    code: &[Instr],
    jumps: &[Jump],
    cells: &mut [u64],
    blocks: &mut [Block],
    globals: &mut [u64],
    memory: &mut [u8],
    place: Place,
) -> Step
    requires at { place.at < length code.now }
    requires sp { place.sp ≤ length cells.old }
    requires lp { place.lp ≤ length blocks.old }
    requires jumps { AreJumps code.now jumps.now }
    requires there { IsSomewhere code.now cells.old blocks.old globals.old memory.old place }
    ensures { (scope : Scope) (codes : List FuncBody) (callers : List Caller) (depth : ℕ) (c : Config) →
        IsAt scope codes code.now (record { cells = cells.old; blocks = blocks.old; callers = callers; globals = globals.old; memory = memory.old }) depth place c →
        Took scope codes code.now (record { cells = cells.new; blocks = blocks.new; callers = callers; globals = globals.new; memory = memory.new }) depth place c result }
{
    let at = place.at;
    let sp = place.sp;
    let lp = place.lp;
    match &code[at] {
        Instr::Unreachable => Step::Trap,
        Instr::Nop => Step::Go(at + 1, sp, lp),
        Instr::Block(result) => {
            let jump = jump_to(jumps, at);
            enter(blocks, lp, arity_of(result), jump.after, sp);
            Step::Go(at + 1, sp, lp - 1)
        }
        Instr::Loop(_) => {
            enter(blocks, lp, 0, at, sp);
            Step::Go(at + 1, sp, lp - 1)
        }
        Instr::If(result) => {
            let jump = jump_to(jumps, at);
            enter(blocks, lp, arity_of(result), jump.after, sp + 1);
            let to = arm(cells, sp, at + 1, jump.other);
            Step::Go(to, sp + 1, lp - 1)
        }
        Instr::Else => {
            let jump = jump_to(jumps, at);
            Step::Go(jump.after, sp, lp + 1)
        }
        Instr::End => {
            if lp == place.floor {
                return Step::Leave;
            }
            Step::Go(at + 1, sp, lp + 1)
        }
        Instr::Br(label) => branch(cells, blocks, place, sp, *label),
        Instr::BrIf(label) => {
            if is_zero(cells, sp) {
                return Step::Go(at + 1, sp + 1, lp);
            }
            branch(cells, blocks, place, sp + 1, *label)
        }
        Instr::BrTable(table) => {
            let label = chosen(table.get(), cells, sp);
            branch(cells, blocks, place, sp + 1, label)
        }
        Instr::Return => Step::Leave,
        Instr::Call(function) => Step::Call(*function),
        Instr::Drop => Step::Go(at + 1, sp + 1, lp),
        Instr::Select => {
            select_at(cells, sp);
            Step::Go(at + 1, sp + 2, lp)
        }
        Instr::LocalGet(local) => {
            get_local(cells, sp, place.base, *local);
            Step::Go(at + 1, sp - 1, lp)
        }
        Instr::LocalSet(local) => {
            set_local(cells, sp, place.base, *local);
            Step::Go(at + 1, sp + 1, lp)
        }
        Instr::LocalTee(local) => {
            set_local(cells, sp, place.base, *local);
            Step::Go(at + 1, sp, lp)
        }
        Instr::GlobalGet(global) => {
            get_global(cells, globals, sp, *global);
            Step::Go(at + 1, sp - 1, lp)
        }
        Instr::GlobalSet(global) => {
            set_global(cells, globals, sp, *global);
            Step::Go(at + 1, sp + 1, lp)
        }
        Instr::Load(op, arg) => {
            if load_at(cells, memory, sp, *op, *arg) {
                Step::Go(at + 1, sp, lp)
            } else {
                Step::Trap
            }
        }
        Instr::Store(op, arg) => {
            if store_at(cells, memory, sp, *op, *arg) {
                Step::Go(at + 1, sp + 2, lp)
            } else {
                Step::Trap
            }
        }
        Instr::MemorySize => {
            push(cells, sp, (memory.len() / 65536) as u64);
            Step::Go(at + 1, sp - 1, lp)
        }
        Instr::I32Const(value) => {
            let bits = bits32(*value);
            push(cells, sp, bits);
            Step::Free(at + 1, sp - 1)
        }
        Instr::I64Const(value) => {
            let bits = bits64(*value);
            push(cells, sp, bits);
            Step::Free(at + 1, sp - 1)
        }
        Instr::Test(_) => {
            test_at(cells, sp);
            Step::Go(at + 1, sp, lp)
        }
        Instr::Compare(ty, op) => {
            compare_at(cells, sp, *ty, *op);
            Step::Go(at + 1, sp + 1, lp)
        }
        Instr::Unary(ty, op) => {
            unary_at(cells, sp, *ty, *op);
            Step::Go(at + 1, sp, lp)
        }
        Instr::Binary(ty, op) => {
            if binary_at(cells, sp, *ty, *op) {
                Step::Go(at + 1, sp + 1, lp)
            } else {
                Step::Trap
            }
        }
        Instr::Convert(op) => {
            convert_at(cells, sp, *op);
            Step::Go(at + 1, sp, lp)
        }
    }
}
