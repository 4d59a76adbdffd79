// The run of a call with its host.

ghost use Rattle.std.specs.Prelude.{ℕ, List, ◌≡◌, ◌+◌, ◌<◌, ◌≤◌, ◌^◌, length, slice_index};
ghost use Rattle.std.specs.Int.{w32, cast_signed};
ghost use Rattle.wasm_tree.specs.declared.module.FuncBody.{FuncBody as TheBody};
ghost use Rattle.wasm_tree.specs.declared.module.ValType.TheVariants.{I32};
ghost use Rattle.wasm_tree.specs.Reduce.{Config, exec};
ghost use Rattle.wasm_sound.specs.Kinds.{IsOf};
ghost use Rattle.wasm_sound.specs.Sound.{Scope, IsScope};
ghost use Rattle.wasm_runner.specs.declared.place.Block.{Block as TheBlock};
ghost use Rattle.wasm_runner.specs.declared.place.Caller.{Caller as TheCaller};
ghost use Rattle.wasm_runner.specs.Activations.{IsProgram, IsActive, IsCalling, stacks};
ghost use Rattle.wasm_runner.specs.Following.{Follows};
ghost use Rattle.wasm_runner.specs.Turns.{Turned, AsksSomewhere, RunsSomewhere};

use crate::calls::{Activation, enter_function, leave_function};
use crate::code::{Pause, run_code};
use crate::function::Function;
use crate::host::{Ended, Host, HostAnswer};
use crate::place::{Block, Caller, Place};
use wasm_tree::FuncBody;

/// Where the run of a call comes to after the code of one function.
#[derive(Clone, Copy, Debug)]
pub enum Turn {
    /// It ended.
    Ends(Ended),
    /// It goes on in this activation with so many reductions.
    Goes(Activation, u64),
}

// The number that the host is called with.
#[inline(always)]
fn number_at(cells: &[u64], sp: usize) -> i32
    requires within { sp < length cells.now }
    requires fits { IsOf I32 (slice_index cells.now sp) }
    ensures { result ≡ cast_signed w32 (slice_index cells.now sp) }
{
    (cells[sp] as u32).cast_signed()
}

// The activation after a call of the host, whose number is no operand any more.
#[inline(always)]
fn past(from: Activation, back: usize) -> Activation
    requires { from.place.sp + 1 < 2 ^ 64 }
    ensures { result ≡ record from { place = record from.place { at = back; sp = from.place.sp + 1 } } }
{
    Activation {
        place: Place {
            at: back,
            sp: from.place.sp + 1,
            ..from.place
        },
        ..from
    }
}

/// Calls the host: the last operand is the number. The run goes on at `back`.
pub fn ask<H: Host>(
    host: &mut H,
    cells: &[u64],
    memory: &[u8],
    from: Activation,
    back: usize,
    left: u64,
    steps: u64,
) -> Turn
    requires back { back ≡ from.place.at + 1 }
    requires some { 0 < left }
    requires fewer { left ≤ steps }
    requires there { AsksSomewhere cells.now memory.now from }
    ensures { (scope : Scope) (codes : List TheBody) (blocks : List TheBlock) (callers : List TheCaller) (globals : List ℕ) (c : Config) →
        IsScope scope → IsCalling scope codes (stacks cells.now blocks callers globals memory.now) from 0 c →
        Turned H.emits H.renewable scope codes steps (stacks cells.now blocks callers globals memory.now) host.old host.new c left result }
{
    let number = number_at(cells, from.place.sp);
    let next = past(from, back);
    match host.emit(number, memory) {
        HostAnswer::Go => Turn::Goes(next, left - 1),
        HostAnswer::Fresh => Turn::Goes(next, steps),
        HostAnswer::Stop => Turn::Ends(Ended::Stopped),
        HostAnswer::Trap => Turn::Ends(Ended::Trapped),
    }
}

// Runs the code of the function that runs, and then calls or ends a function, or calls the host.
fn take_turn<H: Host>(
    bodies: &[FuncBody],
    functions: &[Function],
    cells: &mut [u64],
    blocks: &mut [Block],
    callers: &mut [Caller],
    globals: &mut [u64],
    memory: &mut [u8],
    host: &mut H,
    from: Activation,
    left: u64,
    steps: u64,
) -> Turn
    requires fewer { left ≤ steps }
    requires there { RunsSomewhere bodies.now functions.now (stacks cells.old blocks.old callers.old globals.old memory.old) from }
    ensures { (scope : Scope) (c : Config) → IsProgram scope bodies.now functions.now → IsActive scope bodies.now (stacks cells.old blocks.old callers.old globals.old memory.old) from c →
        Turned H.emits H.renewable scope bodies.now steps (stacks cells.new blocks.new callers.new globals.new memory.new) host.old host.new c left result }
{
    let code = bodies[from.function].code.as_slice();
    let jumps = functions[from.function].jumps.as_slice();
    match run_code(
        code, jumps, cells, blocks, globals, memory, from.place, left,
    ) {
        Pause::Spent => Turn::Ends(Ended::StepsSpent),
        Pause::Trapped => Turn::Ends(Ended::Trapped),
        Pause::Calls(number, place, rest) => {
            let here = Activation { place, ..from };
            let back = place.at + 1;
            if number == 0 {
                return ask(host, cells, memory, here, back, rest, steps);
            }
            let next = enter_function(functions, cells, callers, here, number as usize - 1, back);
            Turn::Goes(next, rest - 1)
        }
        Pause::Leaves(sp, rest) => {
            if from.depth == callers.len() {
                return Turn::Ends(Ended::Done);
            }
            let next = leave_function(cells, callers, from, sp);
            Turn::Goes(next, rest - 1)
        }
    }
}

/// Runs a call from an activation to its end, with at most `steps` reductions from its begin and from each answer `Fresh`.
/// Where it is done the globals and the memory are those that it leaves. It takes no memory.
pub fn run<H: Host>(
    bodies: &[FuncBody],
    functions: &[Function],
    cells: &mut [u64],
    blocks: &mut [Block],
    callers: &mut [Caller],
    globals: &mut [u64],
    memory: &mut [u8],
    host: &mut H,
    from: Activation,
    steps: u64,
) -> Ended
    requires { RunsSomewhere bodies.now functions.now (stacks cells.old blocks.old callers.old globals.old memory.old) from }
    ensures { (scope : Scope) (c : Config) → IsProgram scope bodies.now functions.now → IsActive scope bodies.now (stacks cells.old blocks.old callers.old globals.old memory.old) from c →
        Follows H.emits scope.funcs steps (exec scope.funcs steps c) host.old result globals.new memory.new host.new }
{
    let mut now = from;
    let mut left = steps;
    'turns: loop {
        match take_turn(
            bodies, functions, cells, blocks, callers, globals, memory, host, now, left, steps,
        ) {
            Turn::Ends(ended) => return ended,
            Turn::Goes(next, rest) => {
                now = next;
                left = rest;
            }
        }
    }
}
