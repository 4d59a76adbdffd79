//! What holds of the mains of all lawful units: the function's contract is a law, and its body does nothing.

ghost use Rattle.advance_lowering.specs.Orderly.{LawfulMainsAreOrderly};

/// In the main of each lawful unit declarations are of locals, and the parts of each `for` before and after its condition
/// only hand on, so that `lower` takes it.
pub fn lawful_mains_are_orderly()
    ensures { LawfulMainsAreOrderly }
{}
