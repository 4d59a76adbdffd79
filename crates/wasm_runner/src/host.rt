// The host that a run calls, and how a call ends.

ghost use Rattle.std.specs.Prelude.{ℕ, ℤ, List, ◌+◌, ◌≤◌};
ghost use Rattle.wasm_runner.specs.Answers.{renewals};

/// What a host answers when a module calls it.
#[derive(Clone, Copy, Debug, PartialEq, Eq)]
pub enum HostAnswer {
    /// The call goes on with the reductions that are left.
    Go,
    /// The call stops.
    Stop,
    /// The call traps.
    Trap,
    /// The call goes on with its whole budget of reductions anew.
    Fresh,
}

/// How a call ended.
#[derive(Clone, Copy, Debug, PartialEq, Eq)]
pub enum Ended {
    /// The function returned.
    Done,
    /// A reduction trapped, or the host answered so.
    Trapped,
    /// The budget of reductions was spent before the function returned.
    StepsSpent,
    /// The host stopped the call.
    Stopped,
}

/// What a module calls: its one import, `emit` of `host`.
pub trait Host {
    ghost use Rattle.wasm_runner.specs.declared.host.HostAnswer.{HostAnswer};

    /// What a call of `emit` may do: the host before it, the number, the memory of that moment, the answer, and the host
    /// after it.
    ghost emits: { Self → ℤ → List ℕ → HostAnswer → Self → Type 0 };

    /// How often the host may still give a budget anew.
    ghost renewable: { Self → ℕ };

    /// A call of `emit` with a number, and the memory of that moment.
    fn emit(&mut self, number: i32, memory: &[u8]) -> HostAnswer
        ensures told { emits self.old number memory.now result self.new }
        ensures counted { renewable self.new + renewals result ≤ renewable self.old };
}
