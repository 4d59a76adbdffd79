// Where control goes from each place of flat code, found once from its end to its begin.

ghost use Rattle.std.specs.Prelude.{◌≡◌, ◌+◌, ◌<◌, ◌≤◌, length, drop, IfOk};
ghost use Rattle.wasm_runner.specs.Jumps.{AreJumps};
ghost use Rattle.wasm_runner.specs.Ends.{cut_block, cut_if, after_of, jump_of, ends_step};

use std::alloc::{AllocError, Global};
use wasm_tree::Instr;

/// Where an `if` goes at 0, and what follows the end of a block.
#[derive(Clone, Copy, Debug)]
pub struct Jump {
    pub other: usize,
    pub after: usize,
}

/// An end that is ahead: what follows it, and whether it is the `else` after a first arm.
#[derive(Clone, Copy)]
pub struct Ending {
    pub after: usize,
    pub arm: bool,
}

// What follows the first end.
fn first_after(ends: &[Ending], from: usize, nowhere: usize) -> usize
    requires { from ≤ length ends.now }
    ensures { result ≡ after_of (drop from ends.now) nowhere }
{
    if from < ends.len() {
        ends[from].after
    } else {
        nowhere
    }
}

// The ends that are left where a block begins.
fn past_block(ends: &[Ending], from: usize) -> usize
    requires { from ≤ length ends.now }
    ensures left { drop result ends.now ≡ cut_block (drop from ends.now) }
    ensures up { from ≤ result }
    ensures within { result ≤ length ends.now }
{
    if from >= ends.len() {
        return from;
    }
    if ends[from].arm { ends.len() } else { from + 1 }
}

// The ends that are left where an `if` begins.
fn past_if(ends: &[Ending], from: usize) -> usize
    requires { from ≤ length ends.now }
    ensures left { drop result ends.now ≡ cut_if (drop from ends.now) }
    ensures up { from ≤ result }
    ensures within { result ≤ length ends.now }
{
    if from >= ends.len() {
        return from;
    }
    if ends[from].arm {
        past_block(ends, from + 1)
    } else {
        from + 1
    }
}

// The jump of an instruction.
fn jump_at(instr: &Instr, ends: &[Ending], from: usize, nowhere: usize) -> Jump
    requires { from ≤ length ends.now }
    ensures { result ≡ jump_of instr.now (drop from ends.now) nowhere }
{
    if let Instr::If(_) = instr {
        if from >= ends.len() {
            return Jump {
                other: nowhere,
                after: nowhere,
            };
        }
        let first = ends[from];
        if first.arm {
            return Jump {
                other: first.after,
                after: first_after(ends, from + 1, nowhere),
            };
        }
        return Jump {
            other: first.after.saturating_sub(1),
            after: first.after,
        };
    }
    Jump {
        other: nowhere,
        after: first_after(ends, from, nowhere),
    }
}

// The ends from an instruction on.
fn close(instr: &Instr, at: usize, ends: &mut [Ending], from: usize) -> usize
    requires room { at < from }
    requires within { from ≤ length ends.old }
    ensures left { drop result ends.new ≡ ends_step at instr.now (drop from ends.old) }
    ensures room { at ≤ result }
    ensures within { result ≤ length ends.new }
{
    match instr {
        Instr::End => {
            ends[from - 1] = Ending {
                after: at + 1,
                arm: false,
            };
            from - 1
        }
        Instr::Else => {
            ends[from - 1] = Ending {
                after: at + 1,
                arm: true,
            };
            from - 1
        }
        Instr::Block(_) => past_block(ends, from),
        Instr::Loop(_) => past_block(ends, from),
        Instr::If(_) => past_if(ends, from),
        _ => from,
    }
}

// Writes the jumps.
fn fill(code: &[Instr], jumps: &mut [Jump], ends: &mut [Ending])
    requires jumps { length jumps.old ≡ length code.now }
    requires ends { length ends.old ≡ length code.now }
    ensures { AreJumps code.now jumps.new }
{
    let len = code.len();
    let mut at = len;
    let mut from = len;
    while at > 0 {
        at -= 1;
        let instr = &code[at];
        jumps[at] = jump_at(instr, ends, from, len);
        from = close(instr, at, ends, from);
    }
}

/// The jumps of a function's code.
pub fn jumps_of(alloc: Global, code: &[Instr]) -> Result<Vec<Jump>, AllocError>
    ensures { IfOk result (λ jumps. AreJumps code.now jumps.items) }
{
    let mut jumps = vec![in alloc; Jump { other: 0, after: 0 }; code.len()]?;
    let mut ends = vec![in alloc; Ending {
        after: 0,
        arm: false
    }; code.len()]?;
    fill(code, &mut jumps, &mut ends);
    Ok(jumps)
}
