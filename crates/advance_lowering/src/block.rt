use cm_base::Items;
use cm_core::{CoreExpr, CoreStmt};

/// What is done in a block.
#[derive(Clone, Copy)]
pub enum Step<'a> {
    /// A main that isn't there does nothing.
    Nothing,
    /// A statement of main without `advance`.
    Stmt(&'a CoreStmt),
    /// The variable of a `loop` with a count takes the count.
    Start(u32, &'a CoreExpr),
    /// The variable of a `for` over all values of a `wrap` is set to 0.
    Clear(u32),
}

/// What begins a body of a loop, which takes one turn.
#[derive(Clone, Copy)]
pub enum LoopTest<'a> {
    /// It begins in any case.
    Always,
    /// It begins where the condition holds.
    Holds(&'a CoreExpr),
    /// It begins where the count in this variable is above 0, and lowers it by one.
    Down(u32),
    /// It begins where the `wrap` in this variable has a further value, and takes it.
    Next(u32),
}

/// Where a block leads.
#[derive(Clone, Copy)]
pub enum BlockEnd<'a> {
    Goto(u32),
    /// To the first block where the condition holds, and else to the second.
    Branch(&'a CoreExpr, u32, u32),
    /// With one turn to the body of a loop, and else past the loop.
    Round(LoopTest<'a>, u32, u32),
    /// Nowhere until the next frame, in which this block goes on.
    Suspend(u32),
    /// Nowhere: main has returned.
    Done,
}

/// The blocks that `break` and `continue` lead to.
#[derive(Clone, Copy)]
pub struct Exits {
    pub on_break: u32,
    pub on_continue: u32,
}

/// What is done without `advance`, and where it leads; `return` ends main. In a loop `break` and `continue` have exits.
#[derive(Drop)]
pub struct Block<'a> {
    pub body: Items<Step<'a>>,
    pub end: BlockEnd<'a>,
    pub exits: Option<Exits>,
}

/// The blocks of a main by number, and the number of the one that it begins with.
#[derive(Drop)]
pub struct Blocks<'a> {
    pub all: Items<Block<'a>>,
    pub start: u32,
}
