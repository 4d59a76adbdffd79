// Calls of functions and their ends, on the cells and marks.

ghost use Rattle.std.specs.Prelude.{ℕ, List, ◌≡◌, ◌+◌, ◌-◌, ◌<◌, ◌≤◌, length, suc, take, drop, replicate, ◌++◌};
ghost use Rattle.wasm_tree.specs.declared.module.FuncBody.{FuncBody as TheBody};
ghost use Rattle.wasm_tree.specs.Reduce.{Config};
ghost use Rattle.wasm_sound.specs.Sound.{Scope};
ghost use Rattle.wasm_runner.specs.declared.place.Block.{Block as TheBlock};
ghost use Rattle.wasm_runner.specs.Activations.{IsProgram, IsCalling, IsLeaving, Enters, CallsSomewhere, LeavesSomewhere, stacks};

use crate::function::Function;
use crate::place::{Caller, Place};

/// The function that runs, by its number among the module's own, its place, and how many marks of callers are free.
#[derive(Clone, Copy, Debug)]
pub struct Activation {
    pub function: usize,
    pub place: Place,
    pub depth: usize,
}

// Sets cells to 0.
#[inline(always)]
pub fn clear(cells: &mut [u64], from: usize, count: usize)
    requires { from + count ≤ length cells.old }
    ensures zero { drop from cells.new ≡ replicate count 0 ++ drop (from + count) cells.old }
    ensures long { length cells.new ≡ length cells.old }
{
    cells[from..from + count].fill(0);
}

// Copies the result of a function, where it has one, to what is below its locals.
#[inline(always)]
fn give_over(cells: &mut [u64], sp: usize, base: usize, arity: usize)
    requires few { arity ≤ 1 }
    requires low { sp + arity ≤ base }
    requires within { base ≤ length cells.old }
    ensures results { drop (base - arity) cells.new ≡ take arity (drop sp cells.old) ++ drop base cells.old }
    ensures long { length cells.new ≡ length cells.old }
{
    if arity == 1 {
        cells[base - 1] = cells[sp];
    }
}

/// Calls one of the module's own functions: its parameters are the last operands where they are, and its further locals
/// are 0. The caller goes on at `back`.
pub fn enter_function(
    functions: &[Function],
    cells: &mut [u64],
    callers: &mut [Caller],
    from: Activation,
    number: usize,
    back: usize,
) -> Activation
    requires back { back ≡ from.place.at + 1 }
    requires there { CallsSomewhere functions.now cells.old callers.old from (suc number) }
    ensures { (scope : Scope) (codes : List TheBody) (blocks : List TheBlock) (globals memory : List ℕ) (c : Config) →
        IsProgram scope codes functions.now → IsCalling scope codes (stacks cells.old blocks callers.old globals memory) from (suc number) c →
        Enters scope codes (stacks cells.new blocks callers.new globals memory) result c }
{
    let called = &functions[number];
    let place = from.place;
    let depth = from.depth - 1;
    callers[depth] = Caller {
        function: from.function,
        back,
        base: place.base,
        floor: place.floor,
        arity: called.results,
    };
    let sp = place.sp - called.locals;
    clear(cells, sp, called.locals);
    Activation {
        function: number,
        place: Place {
            at: 0,
            sp,
            lp: place.lp,
            base: place.sp + called.params,
            floor: place.lp,
        },
        depth,
    }
}

/// Ends a function: its results, which begin at this cell, are copied to the operands of the caller, which goes on.
pub fn leave_function(
    cells: &mut [u64],
    callers: &[Caller],
    from: Activation,
    sp: usize,
) -> Activation
    requires there { LeavesSomewhere cells.old callers.now from sp }
    ensures { (scope : Scope) (codes : List TheBody) (blocks : List TheBlock) (globals memory : List ℕ) (c : Config) →
        IsLeaving scope codes (stacks cells.old blocks callers.now globals memory) from sp c →
        Enters scope codes (stacks cells.new blocks callers.now globals memory) result c }
{
    let caller = callers[from.depth];
    let base = from.place.base;
    give_over(cells, sp, base, caller.arity);
    Activation {
        function: caller.function,
        place: Place {
            at: caller.back,
            sp: base - caller.arity,
            lp: from.place.floor,
            base: caller.base,
            floor: caller.floor,
        },
        depth: from.depth + 1,
    }
}
