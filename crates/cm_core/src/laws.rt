//! What holds of all runs of programs: each function's contract is a law, and its body does nothing.

ghost use Rattle.cm_core.specs.Laws.{MoreTurnsInPart, MoreTurns, TraceGrows, DepthIsEnough, ReturnedStays, SumsAreCleared};

/// A part of a run that ends with some turns ends in the same world with more, and one that lacks a turn has told no
/// more than it tells with more turns. No part traps.
pub fn more_turns_in_a_part()
    ensures { MoreTurnsInPart }
{}

/// A run that ends with some turns for each part ends in the same world with more, and one that lacks a turn has told
/// no more than it tells with more turns. No run traps.
pub fn more_turns()
    ensures { MoreTurns }
{}

/// What is told stays told.
pub fn traces_grow()
    ensures { TraceGrows }
{}

/// In a lawful program whose events lead forward in the order of its leaves, calls and handlers stand at most as deep
/// within one another as `depth_of` says, so that a run of it stops early only for want of turns.
pub fn depth_is_enough()
    ensures { DepthIsEnough }
{}

/// A leaf whose `main` returned has nothing left to do in later frames, and begins no turn.
pub fn returned_stays()
    ensures { ReturnedStays }
{}

/// The sums of all stream outputs are zero after a frame.
pub fn sums_are_cleared()
    ensures { SumsAreCleared }
{}
