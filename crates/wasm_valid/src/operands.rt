ghost use Rattle.std.specs.Prelude.{◌≡◌, ◌↔◌, ◌<◌, true, [], length, reverse, slice_get, IfOk, IsTrue, MatchOption, OnOk};
ghost use Rattle.wasm_tree.specs.Typed.{result_types};
ghost use Rattle.wasm_valid.specs.Checking.{at_begin, height, labels_of, opened, joined as the_joined, may_be as the_may_be, take_one, take_all, takes, ends, drops, selects};
ghost use Rattle.wasm_valid.specs.Frames.{TookAny, HasNone, with_one, with_all, with_none, changed, Tells, is_bare as the_bare, result_of, arm_of, second_of, others_of, second_step, close_step, Finishes};

use std::alloc::{AllocError, Global};
use std::marker::Model;
use wasm_tree::ValType;

/// An open sequence: how many operands of other sequences lie below its own, what a branch to it takes along, what
/// it gives, whether it is the first arm of an `if`, and whether no instruction is reached any more.
#[derive(Clone, Copy, Debug)]
pub struct Frame {
    pub floor: usize,
    pub label: Option<ValType>,
    pub result: Option<ValType>,
    pub arm: bool,
    pub dead: bool,
}

/// The open sequences of the code that is checked, with what is known of their operands. Contracts see it as the
/// list of these, the innermost first.
#[derive(Drop)]
pub struct Operands {
    types: Vec<Option<ValType>>,
    inner: Frame,
    outer: Vec<Frame>,
    ended: bool,
}

impl Model for Operands {
    ghost use Rattle.std.specs.Prelude.{List};
    ghost use Rattle.wasm_valid.specs.Checking.{Sequence};
    ghost use Rattle.wasm_valid.specs.Frames.{open_sequences, AreKept};

    ghost Value = { List Sequence };

    ghost view = { λ o. open_sequences o.ended o.types.items o.inner o.outer.items };

    ghost invariant = { λ o. AreKept o.ended o.types.items o.inner o.outer.items };
}

impl Operands {
    /// No open sequence.
    pub fn new(alloc: Global) -> Operands
        ensures { result ≡ [] }
    {
        Operands {
            types: Vec::new(alloc),
            inner: Frame {
                floor: 0,
                label: None,
                result: None,
                arm: false,
                dead: false,
            },
            outer: Vec::new(alloc),
            ended: true,
        }
    }

    /// Begins the code of a function with this result.
    pub fn begin(&mut self, gives: Option<ValType>)
        ensures { self.new ≡ at_begin gives }
    {
        self.types.clear();
        self.outer.clear();
        self.inner = Frame {
            floor: 0,
            label: gives,
            result: gives,
            arm: false,
            dead: false,
        };
        self.ended = false;
    }

    /// Whether no sequence is open.
    pub fn is_ended(&self) -> bool
        ensures { IsTrue result ↔ (self.now ≡ []) }
    {
        self.ended
    }

    /// How many operands all open sequences have.
    #[tactic(auto, using(crate::proofs::FrameLemmas::all_held))]
    pub fn height(&self) -> usize
        ensures { result ≡ height self.now }
    {
        self.types.len()
    }

    /// How many sequences are open.
    #[tactic(auto, using(crate::proofs::FrameLemmas::all_open))]
    pub fn depth(&self) -> usize
        ensures { result ≡ length self.now }
    {
        if self.ended {
            return 0;
        }
        self.outer.len().saturating_add(1)
    }

    /// What a branch to the label of this number takes along.
    #[tactic(auto, using(crate::proofs::FrameLemmas::inner_label, crate::proofs::FrameLemmas::outer_label, crate::proofs::FrameLemmas::no_label))]
    pub fn label(&self, number: u32) -> Option<Option<ValType>>
        ensures { result ≡ slice_get (labels_of self.now) number }
    {
        let number = number as usize;
        if self.ended || self.outer.len() < number {
            return None;
        }
        if number == 0 {
            return Some(self.inner.label);
        }
        let at = self.outer.len() - number;
        Some(self.outer[at].label)
    }

    /// Takes an operand of any type.
    #[tactic(auto, using(crate::proofs::FrameLemmas::took, crate::proofs::FrameLemmas::took_below, crate::proofs::FrameLemmas::took_none, crate::proofs::FrameLemmas::kept_taken))]
    fn take_any(&mut self) -> Option<Option<ValType>>
        requires { 0 < length self.old }
        ensures open { 0 < length self.new }
        ensures took { MatchOption result (HasNone self.old) (λ type. TookAny self.old type self.new) }
    {
        if self.types.len() == self.inner.floor {
            return if self.inner.dead { Some(None) } else { None };
        }
        self.types.pop()
    }

    /// Adds an operand of which this is known.
    #[tactic(auto, using(crate::proofs::FrameLemmas::put, crate::proofs::FrameLemmas::kept_put))]
    fn put_one(&mut self, ty: Option<ValType>) -> Result<(), AllocError>
        requires { 0 < length self.old }
        ensures open { 0 < length self.new }
        ensures put { OnOk result (self.new ≡ with_one ty self.old) }
    {
        self.types.push(ty)?;
        Ok(())
    }

    /// No instruction is reached from here on.
    #[tactic(auto, using(crate::proofs::FrameLemmas::died, crate::proofs::FrameLemmas::kept_dead))]
    fn die(&mut self)
        requires { 0 < length self.old }
        ensures { self.new ≡ with_none self.old }
    {
        self.types.truncate(self.inner.floor);
        self.inner.dead = true;
    }

    /// Opens a sequence.
    #[tactic(auto, using(crate::proofs::FrameLemmas::open_inside, crate::proofs::FrameLemmas::kept_open))]
    pub fn open(
        &mut self,
        label: Option<ValType>,
        gives: Option<ValType>,
        arm: bool,
    ) -> Result<(), AllocError>
        requires { 0 < length self.old }
        ensures { OnOk result (self.new ≡ opened label gives arm self.old) }
    {
        self.outer.push(self.inner)?;
        self.inner = Frame {
            floor: self.types.len(),
            label,
            result: gives,
            arm,
            dead: false,
        };
        Ok(())
    }
}

/// Whether an operand of which this is known may be of the type.
fn may_be(known: Option<ValType>, ty: ValType) -> bool
    ensures { result ≡ the_may_be known ty }
{
    match known {
        None => true,
        Some(ValType::I32) => matches!(ty, ValType::I32),
        Some(ValType::I64) => matches!(ty, ValType::I64),
    }
}

/// What is known of either of two operands of one type.
fn joined(first: Option<ValType>, second: Option<ValType>) -> Option<Option<ValType>>
    ensures { result ≡ the_joined first second }
{
    match (first, second) {
        (None, second) => Some(second),
        (Some(first), None) => Some(Some(first)),
        (Some(first), Some(second)) => {
            if may_be(Some(first), second) {
                Some(Some(first))
            } else {
                None
            }
        }
    }
}

impl Operands {
    /// Takes an operand of the type.
    #[tactic(auto, using(crate::proofs::ChangeLemmas::one_took, crate::proofs::ChangeLemmas::one_other, crate::proofs::ChangeLemmas::one_lacks))]
    fn take_one(&mut self, ty: ValType) -> bool
        requires { 0 < length self.old }
        ensures open { 0 < length self.new }
        ensures took { Tells result (changed (take_one ty) self.old) self.new }
    {
        match self.take_any() {
            None => false,
            Some(known) => may_be(known, ty),
        }
    }

    /// Takes operands of these types, the last first.
    #[tactic(auto, using(crate::proofs::ChangeLemmas::all_begin, crate::proofs::ChangeLemmas::all_more, crate::proofs::ChangeLemmas::all_other))]
    fn take_all(&mut self, types: &[ValType]) -> bool
        requires { 0 < length self.old }
        ensures open { 0 < length self.new }
        ensures took { Tells result (changed (take_all types.now) self.old) self.new }
    {
        for ty in types {
            if !self.take_one(*ty) {
                return false;
            }
        }
        true
    }

    /// Takes operands of the types, the last first, and adds one.
    #[tactic(auto, using(crate::proofs::ChangeLemmas::takes_none, crate::proofs::ChangeLemmas::takes_some, crate::proofs::ChangeLemmas::takes_other))]
    pub fn takes(&mut self, ins: &[ValType], gives: Option<ValType>) -> Result<bool, AllocError>
        requires { 0 < length self.old }
        ensures { IfOk result (λ told. Tells told (changed (takes ins.now (result_types gives)) self.old) self.new) }
    {
        if !self.take_all(ins) {
            return Ok(false);
        }
        if gives.is_some() {
            self.put_one(gives)?;
        }
        Ok(true)
    }

    /// Takes operands of these types, the last first, after which no instruction is reached.
    #[tactic(auto, using(crate::proofs::ChangeLemmas::ends_here, crate::proofs::ChangeLemmas::ends_other))]
    pub fn ends(&mut self, ins: &[ValType]) -> bool
        requires { 0 < length self.old }
        ensures { Tells result (changed (ends ins.now) self.old) self.new }
    {
        if !self.take_all(ins) {
            return false;
        }
        self.die();
        true
    }

    /// Takes an operand of any type.
    #[tactic(auto, using(crate::proofs::ChangeLemmas::drops_one, crate::proofs::ChangeLemmas::drops_none))]
    pub fn drops(&mut self) -> bool
        requires { 0 < length self.old }
        ensures { Tells result (changed drops self.old) self.new }
    {
        match self.take_any() {
            Some(_) => true,
            None => false,
        }
    }

    /// Takes an `i32` and two operands of one type, and adds one of that type.
    #[tactic(auto, using(crate::proofs::ChangeLemmas::selected, crate::proofs::ChangeLemmas::select_lacks, crate::proofs::ChangeLemmas::select_lacks_second, crate::proofs::ChangeLemmas::select_lacks_first, crate::proofs::ChangeLemmas::select_differs))]
    pub fn selects(&mut self) -> Result<bool, AllocError>
        requires { 0 < length self.old }
        ensures { IfOk result (λ told. Tells told (changed selects self.old) self.new) }
    {
        if !self.take_one(ValType::I32) {
            return Ok(false);
        }
        let Some(second) = self.take_any() else {
            return Ok(false);
        };
        let Some(first) = self.take_any() else {
            return Ok(false);
        };
        match joined(first, second) {
            Some(ty) => {
                self.put_one(ty)?;
                Ok(true)
            }
            None => Ok(false),
        }
    }

    /// Takes arguments of these types, the first lowest.
    #[tactic(auto, using(crate::proofs::ChangeLemmas::all_back_begin, crate::proofs::ChangeLemmas::all_back, crate::proofs::ChangeLemmas::other_back))]
    fn take_params(&mut self, params: &[ValType]) -> bool
        requires { 0 < length self.old }
        ensures open { 0 < length self.new }
        ensures took { Tells result (changed (take_all (reverse params.now)) self.old) self.new }
    {
        let count = params.len();
        for taken in 0..count {
            let ty = params[count - taken - 1];
            if !self.take_one(ty) {
                return false;
            }
        }
        true
    }

    /// Adds results of these types, the first lowest.
    #[tactic(auto, using(crate::proofs::ChangeLemmas::put_begin, crate::proofs::ChangeLemmas::put_more))]
    fn put_results(&mut self, results: &[ValType]) -> Result<(), AllocError>
        requires { 0 < length self.old }
        ensures { OnOk result (self.new ≡ with_all (reverse results.now) self.old) }
    {
        for ty in results {
            self.put_one(Some(*ty))?;
        }
        Ok(())
    }

    /// Takes arguments of these types, the first lowest, and adds results in the same order.
    #[tactic(auto, using(crate::proofs::ChangeLemmas::calls_after, crate::proofs::ChangeLemmas::takes_other))]
    pub fn calls(&mut self, params: &[ValType], results: &[ValType]) -> Result<bool, AllocError>
        requires { 0 < length self.old }
        ensures { IfOk result (λ told. Tells told (changed (takes (reverse params.now) (reverse results.now)) self.old) self.new) }
    {
        if !self.take_params(params) {
            return Ok(false);
        }
        self.put_results(results)?;
        Ok(true)
    }

    /// What the innermost sequence gives.
    fn gives(&self) -> Option<ValType>
        requires { 0 < length self.now }
        ensures { result ≡ result_of self.now }
    {
        self.inner.result
    }

    /// Whether the innermost sequence is the first arm of an `if`.
    fn is_arm(&self) -> bool
        requires { 0 < length self.now }
        ensures { result ≡ arm_of self.now }
    {
        self.inner.arm
    }

    /// Whether the innermost sequence has no operands.
    #[tactic(auto, using(crate::proofs::EndLemmas::bare_is))]
    fn is_bare(&self) -> bool
        requires { 0 < length self.now }
        ensures { result ≡ the_bare self.now }
    {
        self.types.len() == self.inner.floor
    }

    /// Begins the second arm.
    #[tactic(auto, using(crate::proofs::EndLemmas::second_is, crate::proofs::EndLemmas::kept_second))]
    fn begin_second(&mut self)
        requires open { 0 < length self.old }
        requires bare { the_bare self.old ≡ true }
        ensures { self.new ≡ second_of self.old }
    {
        self.inner.arm = false;
        self.inner.dead = false;
    }

    /// Leaves the innermost sequence.
    #[tactic(auto, using(crate::proofs::EndLemmas::left_to, crate::proofs::EndLemmas::kept_left, crate::proofs::EndLemmas::left_last, crate::proofs::EndLemmas::kept_last))]
    fn leave(&mut self)
        requires open { 0 < length self.old }
        requires bare { the_bare self.old ≡ true }
        ensures { self.new ≡ others_of self.old }
    {
        match self.outer.pop() {
            None => self.ended = true,
            Some(frame) => self.inner = frame,
        }
    }

    /// Whether just the result of the innermost sequence stands there. Then it is taken.
    #[tactic(auto, using(crate::proofs::EndLemmas::finish_one, crate::proofs::EndLemmas::finish_none, crate::proofs::EndLemmas::finish_lacks))]
    fn is_finished(&mut self) -> bool
        requires { 0 < length self.old }
        ensures open { 0 < length self.new }
        ensures told { Finishes result self.old self.new }
    {
        match self.gives() {
            None => self.is_bare(),
            Some(ty) => {
                if !self.take_one(ty) {
                    return false;
                }
                self.is_bare()
            }
        }
    }

    /// Ends the first arm of an `if`, and begins the second.
    #[tactic(auto, using(crate::proofs::EndLemmas::arm_ends, crate::proofs::EndLemmas::arm_stays, crate::proofs::EndLemmas::no_arm))]
    pub fn second_arm(&mut self) -> bool
        requires { 0 < length self.old }
        ensures { Tells result (second_step self.old) self.new }
    {
        if !self.is_arm() {
            return false;
        }
        if !self.is_finished() {
            return false;
        }
        self.begin_second();
        true
    }

    /// Ends the innermost sequence, whose result stands in the one around it.
    #[tactic(auto, using(crate::proofs::EndLemmas::not_finished, crate::proofs::EndLemmas::gives_value, crate::proofs::EndLemmas::closes_none, crate::proofs::EndLemmas::closes_one, crate::proofs::EndLemmas::others_empty))]
    pub fn close(&mut self) -> Result<bool, AllocError>
        requires { 0 < length self.old }
        ensures { IfOk result (λ told. Tells told (close_step self.old) self.new) }
    {
        let gives = self.gives();
        let arm = self.is_arm();
        if !self.is_finished() {
            return Ok(false);
        }
        if gives.is_none() {
            self.leave();
            return Ok(true);
        }
        if arm {
            return Ok(false);
        }
        self.leave();
        if !self.is_ended() {
            self.put_one(gives)?;
        }
        Ok(true)
    }
}
