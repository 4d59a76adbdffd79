//! How reductions of WebAssembly code compose: the lemmas that every proof about emitted code cites, in
//! `proofs/`, over the machine of `wasm_tree/specs/Reduce`. A proof states for a piece of code that it
//! `Does` something wherever it stands, or that it `Meets` a step that leads out of it (a branch, a return
//! or a trap), each with an exact number of reductions and the calls of the host between; the lemmas put
//! such facts together through sequences, blocks, arms, loops and calls, and turn the whole into what every
//! number of reductions gives. The functions of this crate do nothing: their contracts are the main laws,
//! whose statements stand in `specs/Laws`, over the words of `specs/Steps` and `specs/Windows`.
#![tactic(auto)]

ghost use Rattle.std.specs.Prelude.{ℕ, ◌+◌, List, ◌++◌};
ghost use Rattle.wasm_tree.specs.Reduce.{Seq, Func, State};
ghost use Rattle.wasm_steps.specs.Steps.{Emission, Place, Does, before, join};
ghost use Rattle.wasm_steps.specs.Laws.{Arms, Blocks, BlocksLeft, Calls, CallsFromOutsideEnd, CallsFromOutsideTrap, Dispatches, Fills, FinishesAtEnd, FinishesByReturn, GoesBackward, GoesOn, HostCalls, IsSpent, KeepsApart, LoadsStored, LoopsEnd, LoopsTurn, SequencesToSteps, StaysOver};

/// Sequences: the second goes on from where the first ends, and the reductions add up.
pub fn sequences_compose()
    ensures does { (funcs : List Func) (a b : Seq) (n m : ℕ) (es fs : Place → List Emission)
        (st st1 st2 : State) → Does funcs a n es st st1 → Does funcs b m fs st1 st2 →
        Does funcs (join a b) (n + m) (λ p. es (before b p) ++ fs p) st st2 }
    ensures meets { SequencesToSteps }
{}

/// Blocks and arms: two reductions more than what runs inside, one for entering and one for the end or the
/// branch to it.
pub fn blocks_compose()
    ensures block { Blocks 2 }
    ensures block_left { BlocksLeft 2 }
    ensures arms { Arms 2 }
{}

/// Loops: two reductions more in each turn, for the `loop` and the branch back to it, and two in the last,
/// for the `loop` and its end.
pub fn loops_compose()
    ensures turn { LoopsTurn 2 }
    ensures end { LoopsEnd 2 }
{}

/// Calls: two reductions more than the body, for the call and the function's end or `return`; a call of the
/// host is one.
pub fn calls_compose()
    ensures function { Calls 2 }
    ensures at_end { FinishesAtEnd }
    ensures by_return { FinishesByReturn }
    ensures host { HostCalls 1 }
{}

/// Dispatch: one reduction for each block, one for the local that selects and one for the branch.
pub fn dispatch_selects()
    ensures { Dispatches 2 }
{}

/// Calls from outside: they end or trap with every number of reductions that reaches their last one.
pub fn calls_from_outside_end()
    ensures end { CallsFromOutsideEnd }
    ensures trap { CallsFromOutsideTrap }
{}

/// Budgets: with more reductions a run goes on, and what is over stays the same; a run that is over had the
/// reductions that were needed, and a run with no more than lead on is out.
pub fn budgets_agree()
    ensures goes_on { GoesOn }
    ensures stays_over { StaysOver }
    ensures backward { GoesBackward }
    ensures spent { IsSpent }
{}

/// Memory: a load finds what a store of its width wrote there, and all else is as it was.
pub fn loads_find_stores()
    ensures loads { LoadsStored }
    ensures apart { KeepsApart }
{}

/// A worked example: a loop that fills memory, with its exact number of reductions.
pub fn fill_runs()
    ensures { Fills }
{}
