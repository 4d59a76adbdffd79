// Calls of functions from outside, by their numbers.

ghost use Rattle.std.specs.Prelude.{ℕ, List, [], ◌∷◌, ◌≡◌, length};
ghost use Rattle.std.specs.Int.{w32, cast_signed};
ghost use Rattle.wasm_tree.specs.Instance.{funcs_of, begun_at};
ghost use Rattle.wasm_tree.specs.Reduce.{Func, exec};
ghost use Rattle.wasm_sound.specs.Reached.{IsInstanceOf};
ghost use Rattle.wasm_runner.specs.declared.host.Ended.TheVariants.{Done};
ghost use Rattle.wasm_runner.specs.Following.{Follows};
ghost use Rattle.wasm_runner.specs.Prepared.{IsReady, IsCallOf, arguments_of};

use crate::begin::begin;
use crate::function::Function;
use crate::host::{Ended, Host, HostAnswer};
use crate::place::{Block, Caller};
use crate::run::run;
use wasm_tree::Module;

// Calls the host from outside: one reduction, and one more for the end.
fn call_import<H: Host>(memory: &[u8], host: &mut H, number: u32, steps: u64) -> Ended
    ensures { (funcs : List Func) (globals : List ℕ) →
        Follows H.emits funcs steps (exec funcs steps (begun_at funcs 0 (number ∷ []) globals memory.now)) host.old result globals memory.now host.new }
{
    if steps == 0 {
        return Ended::StepsSpent;
    }
    match host.emit(number.cast_signed(), memory) {
        HostAnswer::Go => {
            if steps == 1 {
                Ended::StepsSpent
            } else {
                Ended::Done
            }
        }
        HostAnswer::Fresh => Ended::Done,
        HostAnswer::Stop => Ended::Stopped,
        HostAnswer::Trap => Ended::Trapped,
    }
}

// An argument as a cell.
fn cell_of(argument: Option<u32>) -> Option<u64>
    ensures { arguments_of result ≡ arguments_of argument }
{
    match argument {
        None => None,
        Some(x) => Some(x as u64),
    }
}

/// Calls a function from outside by its number, with at most `steps` reductions from its begin and from each answer `Fresh`.
/// Where it is done the globals and the memory are those that it leaves. It takes no memory.
pub fn call_function<H: Host>(
    loaded: &Module,
    functions: &[Function],
    cells: &mut [u64],
    blocks: &mut [Block],
    callers: &mut [Caller],
    globals: &mut [u64],
    memory: &mut [u8],
    host: &mut H,
    number: u32,
    argument: Option<u32>,
    steps: u64,
) -> Ended
    requires ready { IsReady loaded.now functions.now (length cells.old) (length blocks.old) }
    requires callers { length callers.old ≡ length blocks.old }
    requires call { IsCallOf loaded.now number (arguments_of argument) globals.old memory.old }
    ensures follows { Follows H.emits (funcs_of loaded.now) steps (exec (funcs_of loaded.now) steps (begun_at (funcs_of loaded.now) number (arguments_of argument) globals.old memory.old)) host.old result globals.new memory.new host.new }
    // It leaves the module as an instance.
    ensures leaves { result ≡ Done → IsInstanceOf loaded.now globals.new memory.new }
{
    if number == 0 {
        return call_import(memory, host, argument.unwrap_or(0), steps);
    }
    let marks = blocks.len();
    let own = number as usize - 1;
    let from = begin(loaded, functions, cells, marks, own, cell_of(argument));
    let bodies = loaded.codes.as_slice();
    run(
        bodies, functions, cells, blocks, callers, globals, memory, host, from, steps,
    )
}
