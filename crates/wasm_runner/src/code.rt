// Runs of the code of one function, until it calls or ends.

ghost use Rattle.std.specs.Prelude.{ℕ, List};
ghost use Rattle.wasm_tree.specs.declared.module.FuncBody.{FuncBody};
ghost use Rattle.wasm_tree.specs.Reduce.{Config};
ghost use Rattle.wasm_runner.specs.declared.place.Caller.{Caller};
ghost use Rattle.wasm_sound.specs.Sound.{Scope};
ghost use Rattle.wasm_runner.specs.Jumps.{AreJumps};
ghost use Rattle.wasm_runner.specs.Standing.{IsAt, IsSomewhere};
ghost use Rattle.wasm_runner.specs.Pauses.{Paused};

use crate::jump::Jump;
use crate::place::{Block, Place};
use crate::reduce::take_step;
use crate::step::Step;
use wasm_tree::Instr;

/// Why the code of a function pauses.
#[derive(Clone, Copy, Debug)]
pub enum Pause {
    /// All reductions are spent.
    Spent,
    /// A reduction trapped.
    Trapped,
    /// The next reduction calls the function of this number.
    Calls(u32, Place, u64),
    /// The next reduction ends the function, whose results begin at this cell.
    Leaves(usize, u64),
}

/// Runs the code of a function until it calls or ends, with at most so many reductions.
pub fn run_code(
    code: &[Instr],
    jumps: &[Jump],
    cells: &mut [u64],
    blocks: &mut [Block],
    globals: &mut [u64],
    memory: &mut [u8],
    from: Place,
    steps: u64,
) -> Pause
    requires jumps { AreJumps code.now jumps.now }
    requires there { IsSomewhere code.now cells.old blocks.old globals.old memory.old from }
    ensures { (scope : Scope) (codes : List FuncBody) (callers : List Caller) (depth : ℕ) (c : Config) →
        IsAt scope codes code.now (record { cells = cells.old; blocks = blocks.old; callers = callers; globals = globals.old; memory = memory.old }) depth from c →
        Paused scope codes code.now (record { cells = cells.new; blocks = blocks.new; callers = callers; globals = globals.new; memory = memory.new }) depth from c steps result }
{
    let mut left = steps;
    let mut at = from.at;
    let mut sp = from.sp;
    let mut lp = from.lp;
    'code: loop {
        if left == 0 {
            return Pause::Spent;
        }
        let place = Place {
            at,
            sp,
            lp,
            base: from.base,
            floor: from.floor,
        };
        match take_step(code, jumps, cells, blocks, globals, memory, place) {
            Step::Go(next, cell, mark) => {
                left -= 1;
                at = next;
                sp = cell;
                lp = mark;
            }
            Step::Free(next, cell) => {
                at = next;
                sp = cell;
            }
            Step::Trap => return Pause::Trapped,
            Step::Call(function) => return Pause::Calls(function, place, left),
            Step::Leave => return Pause::Leaves(sp, left),
            Step::Exit(cell) => {
                if left == 1 {
                    return Pause::Spent;
                }
                return Pause::Leaves(cell, left - 1);
            }
        }
    }
}
