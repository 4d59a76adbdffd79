// Where one step of the loop leads.

/// Where one step leads.
#[derive(Clone, Copy, Debug)]
pub enum Step {
    /// A reduction goes on at this instruction, cell and mark.
    Go(usize, usize, usize),
    /// A constant was pushed, which is no reduction: on at this instruction and cell.
    Free(usize, usize),
    /// The reduction traps.
    Trap,
    /// The function of this number is called.
    Call(u32),
    /// The function ends, or returns.
    Leave,
    /// A branch leads to the end of the function, whose results begin at this cell.
    Exit(usize),
}
