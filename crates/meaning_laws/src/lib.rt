//! What holds of all runs of patches, over their trees: each function's contract is a law about the run that `cm_meaning` defines
//! (`PatchRun`, `Resume`), and its body does nothing. The same laws over specialised programs are those of `cm_core`.
#![tactic(auto)]

ghost use Rattle.meaning_laws.specs.Laws.{MoreTurnsInPart, MoreTurns, TraceGrows, AddsNoTurns, ReturnedStays, StaysReturned, SumsAreCleared};

/// A part of a run that ends with some turns ends in the same world with more, and one that lacks a turn has told no
/// more than it tells with more turns. No part traps.
pub fn more_turns_in_a_part()
    ensures { MoreTurnsInPart }
{}

/// A run that ends with some turns for each part ends in the same world with more, and one that lacks a turn has told
/// no more than it tells with more turns. No run traps.
pub fn more_turns()
    ensures { MoreTurns }
{}

/// What is told stays told.
pub fn traces_grow()
    ensures { TraceGrows }
{}

/// No statement of a leaf adds turns, whatever it calls or sends, and neither does the rest of its `main`.
pub fn no_statement_adds_turns()
    ensures { AddsNoTurns }
{}

/// A leaf whose `main` returned has nothing left to do in later frames, and begins no turn.
pub fn returned_stays()
    ensures { ReturnedStays }
{}

/// What is left of a `main` that returned stays nothing to the end of a run, whatever the other leaves do and the host sends.
pub fn returned_to_the_end()
    ensures { StaysReturned }
{}

/// The sums of all stream outputs are zero after a frame.
pub fn sums_are_cleared()
    ensures { SumsAreCleared }
{}
