ghost use Rattle.std.specs.Prelude.{◌≡◌, ◌<◌, ◌≤◌, ◌↔◌, Some, None, false, [], ◌∷◌, length, IsTrue};
ghost use Rattle.std.specs.Bool.{OnTrue, OnFalse};
ghost use Rattle.wasm_tree.specs.Control.{after_instruction, at_begin, most_open, second_arm};

use crate::instr::Instr;
use std::marker::Model;

/// How many sequences may be open: the function's own, and as many blocks, loops and arms as may stand inside
/// one another.
const ROOM: usize = 4097;

/// The sequences of a function's code that are open: whether each, the innermost last, is the first arm of an
/// `if`. Contracts see them as a list, the innermost first (Core Specification 1.0, 2.4.5). It takes no memory.
#[derive(Drop)]
pub struct ControlStack {
    arms: [bool; ROOM],
    count: usize,
}

impl Model for ControlStack {
    ghost use Rattle.std.specs.Prelude.{List, Bool, reverse, take, ◌≤◌};

    ghost Value = { List Bool };

    ghost view = { λ s. reverse (take s.count s.arms) };

    ghost invariant = { λ s. s.count ≤ 4097 };
}

impl ControlStack {
    /// Where a function's code begins.
    pub fn new() -> ControlStack
        ensures { result ≡ at_begin }
    {
        ControlStack {
            arms: [false; ROOM],
            count: 1,
        }
    }

    /// Begins the code of another function.
    #[tactic(auto, using(crate::proofs::ControlLemmas::begun))]
    pub fn restart(&mut self)
        ensures { self.new ≡ at_begin }
    {
        self.arms[0] = false;
        self.count = 1;
    }

    /// Whether the function's own sequence is ended.
    pub fn is_ended(&self) -> bool
        ensures { IsTrue result ↔ (self.now ≡ []) }
    {
        self.count == 0
    }

    /// Whether no further sequence may be opened.
    pub fn is_full(&self) -> bool
        ensures { IsTrue result ↔ (most_open < length self.now) }
    {
        self.count == ROOM
    }

    /// Opens a sequence, unless as many are open as may be.
    fn open(&mut self, arm: bool) -> bool
        ensures opened { OnTrue result ((length self.old ≤ most_open) × (self.new ≡ arm ∷ self.old)) }
        ensures refused { OnFalse result ((most_open < length self.old) × (self.new ≡ self.old)) }
    {
        if self.count == ROOM {
            return false;
        }
        self.arms[self.count] = arm;
        self.count += 1;
        true
    }

    /// Follows an instruction, and says whether it may stand there. Where it may not, all stays as it was.
    pub fn follow(&mut self, instr: &Instr) -> bool
        ensures follows { OnTrue result (after_instruction self.old instr.now ≡ Some self.new) }
        ensures refused { OnFalse result ((after_instruction self.old instr.now ≡ None) × (self.new ≡ self.old)) }
    {
        if self.count == 0 {
            return false;
        }
        match instr {
            Instr::Block(_) => self.open(false),
            Instr::Loop(_) => self.open(false),
            Instr::If(_) => self.open(true),
            Instr::Else => self.second_arm(),
            Instr::End => {
                self.end();
                true
            }
            _ => true,
        }
    }

    /// Ends the first arm of an `if`, where that is the innermost open sequence, and begins the second.
    #[tactic(auto, using(crate::proofs::ControlLemmas::arm_ended, crate::proofs::ControlLemmas::arm_kept))]
    fn second_arm(&mut self) -> bool
        requires { 0 < length self.old }
        ensures begins { OnTrue result (after_instruction self.old Instr.Else ≡ Some self.new) }
        ensures refused { OnFalse result ((after_instruction self.old Instr.Else ≡ None) × (self.new ≡ self.old)) }
    {
        let inner = self.count - 1;
        if !self.arms[inner] {
            return false;
        }
        self.arms[inner] = false;
        true
    }

    /// Ends the innermost open sequence.
    #[tactic(auto, using(crate::proofs::ControlLemmas::sequence_ended))]
    fn end(&mut self)
        requires { 0 < length self.old }
        ensures { after_instruction self.old Instr.End ≡ Some self.new }
    {
        self.count -= 1;
    }
}
