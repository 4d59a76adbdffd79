// Where a call from outside begins.

ghost use Rattle.std.specs.Prelude.{ℕ, suc, List, ◌≡◌, ◌+◌, ◌-◌, ◌<◌, ◌≤◌, length, replicate, drop, ◌++◌};
ghost use Rattle.wasm_tree.specs.Instance.{funcs_of, begun_at};
ghost use Rattle.wasm_runner.specs.Activations.{IsActive, stacks};
ghost use Rattle.wasm_runner.specs.Prepared.{IsReady, IsCallOf, arguments_of, scope_of};
ghost use Rattle.wasm_runner.specs.declared.place.Block.{Block as TheBlock};
ghost use Rattle.wasm_runner.specs.declared.place.Caller.{Caller as TheCaller};

use crate::calls::{Activation, clear};
use crate::function::Function;
use crate::place::Place;
use wasm_tree::Module;

// Puts the argument of a call from outside into its first local.
#[inline(always)]
fn put_argument(cells: &mut [u64], argument: Option<u64>)
    requires { length (arguments_of argument) ≤ length cells.old }
    ensures held { drop (length cells.old - length (arguments_of argument)) cells.new ≡ arguments_of argument }
    ensures long { length cells.new ≡ length cells.old }
{
    if let Some(x) = argument {
        let last = cells.len() - 1;
        cells[last] = x;
    }
}

/// Begins a call of one of the module's own functions from outside, with no blocks open and no caller waiting: its locals
/// are the argument and then zeros.
pub fn begin(
    loaded: &Module,
    functions: &[Function],
    cells: &mut [u64],
    marks: usize,
    number: usize,
    argument: Option<u64>,
) -> Activation
    requires ready { IsReady loaded.now functions.now (length cells.old) marks }
    requires call { (globals : List ℕ) × (memory : List ℕ) × IsCallOf loaded.now (suc number) (arguments_of argument) globals memory }
    ensures long { length cells.new ≡ length cells.old }
    ensures active { (blocks : List TheBlock) (callers : List TheCaller) (globals memory : List ℕ) → length blocks ≡ marks → length callers ≡ marks →
        IsCallOf loaded.now (suc number) (arguments_of argument) globals memory →
        IsActive (scope_of loaded.now) loaded.now.codes (stacks cells.new blocks callers globals memory) result (begun_at (funcs_of loaded.now) (suc number) (arguments_of argument) globals memory) }
{
    let called = &functions[number];
    put_argument(cells, argument);
    let sp = cells.len() - called.params - called.locals;
    clear(cells, sp, called.locals);
    Activation {
        function: number,
        place: Place {
            at: 0,
            sp,
            lp: marks,
            base: cells.len(),
            floor: marks,
        },
        depth: marks,
    }
}
