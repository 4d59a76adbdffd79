// Where a run stands in a function's code and on the runner's stacks.

/// An open block: how many values a branch to it takes along, where it leads, and the first cell below the block.
#[derive(Clone, Copy, Debug)]
pub struct Block {
    pub arity: usize,
    pub target: usize,
    pub height: usize,
}

/// A caller that waits: its number, where it goes on, the cell past its locals, where its open blocks end, and how many
/// results it waits for.
#[derive(Clone, Copy, Debug)]
pub struct Caller {
    pub function: usize,
    pub back: usize,
    pub base: usize,
    pub floor: usize,
    pub arity: usize,
}

/// A place in a function's code: the next instruction, the last operand's cell, the innermost open block's mark, the
/// cell past the locals, and where the function's open blocks end.
#[derive(Clone, Copy, Debug)]
pub struct Place {
    pub at: usize,
    pub sp: usize,
    pub lp: usize,
    pub base: usize,
    pub floor: usize,
}
