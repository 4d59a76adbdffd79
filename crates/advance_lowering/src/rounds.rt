ghost use Rattle.std.specs.Prelude.{◌≡◌, ◌+◌, ◌<◌, [], ◌∷◌, ◌++◌, length, map, slice_set, IfOk, OnOk};
ghost use Rattle.cm_core.specs.Code.{expr_of, stmt_of, test_of};
ghost use Rattle.advance_lowering.specs.Blocks.{Finish, Round as RoundOf};
ghost use Rattle.advance_lowering.specs.Lowered.{closed, at_end, loop_kind, times_kind, while_kind, each_kind, for_kind};
ghost use Rattle.advance_lowering.specs.Views.{block_of, open_of, exits_of, exits_in, loop_test_of, steps_of, IsEnded};

use crate::block::{Block, BlockEnd, Exits, LoopTest, Step};
use crate::open::{Open, before, close, open_at};
use cm_base::{Items, NoMemory};
use cm_core::{CoreExpr, CoreStmt};
use std::alloc::Global;

/// A loop whose body has its number: the exits of the body, and that number.
#[derive(Clone, Copy)]
pub struct Rounds {
    pub exits: Exits,
    pub body: u32,
}

/// Gives what follows a loop and its further rounds their numbers; the latter are still to be written.
pub fn begin_rounds<'a>(
    alloc: Global,
    blocks: &mut Vec<Block<'a>>,
    exits: Option<Exits>,
    top: Open<'a>,
) -> Result<Exits, NoMemory>
    ensures numbers { IfOk result (λ inner. exits_of inner ≡ record { on_break = length (map block_of blocks.old.items); on_continue = length (map block_of blocks.old.items) + 1 }) }
    ensures blocks { OnOk result (map block_of blocks.new.items ≡ (map block_of blocks.old.items ++ closed (exits_in exits) (open_of top.entry) ∷ []) ++ closed (exits_in exits) (at_end Finish) ∷ []) }
{
    let on_break = close(blocks, exits, top)?;
    let on_continue = close(blocks, exits, open_at(alloc, BlockEnd::Done))?;
    Ok(Exits {
        on_break,
        on_continue,
    })
}

// Writes the further rounds of a loop, where the number of its body is known: `steps` is what is done after each body.
fn end_rounds<'a>(
    blocks: &mut Vec<Block<'a>>,
    exits: Option<Exits>,
    rounds: Rounds,
    steps: Items<Step<'a>>,
    test: LoopTest<'a>,
)
    requires { rounds.exits.on_continue < length (map block_of blocks.old.items) }
    ensures { map block_of blocks.new.items ≡ slice_set (map block_of blocks.old.items) rounds.exits.on_continue (closed (exits_in exits) (record { body = steps_of steps.entry; end = RoundOf (loop_test_of test.entry) rounds.body rounds.exits.on_break })) }
{
    blocks[rounds.exits.on_continue as usize] = Block {
        body: steps,
        end: BlockEnd::Round(test, rounds.body, rounds.exits.on_break),
        exits,
    };
}

/// The rounds of a `loop` without a count.
pub fn end_loop<'a>(
    alloc: Global,
    blocks: &mut Vec<Block<'a>>,
    exits: Option<Exits>,
    rounds: Rounds,
) -> Open<'a>
    requires { rounds.exits.on_continue < length (map block_of blocks.old.items) }
    ensures { IsEnded loop_kind (exits_in exits) (exits_of rounds.exits) rounds.body (map block_of blocks.old.items) (map block_of blocks.new.items) (open_of result) }
{
    end_rounds(blocks, exits, rounds, Items::new(alloc), LoopTest::Always);
    open_at(alloc, BlockEnd::Goto(rounds.exits.on_continue))
}

/// The rounds of a `loop` with a count, which is kept in this variable.
pub fn end_times<'a>(
    alloc: Global,
    blocks: &mut Vec<Block<'a>>,
    exits: Option<Exits>,
    rounds: Rounds,
    variable: u32,
    count: &'a CoreExpr,
) -> Result<Open<'a>, NoMemory>
    requires { rounds.exits.on_continue < length (map block_of blocks.old.items) }
    ensures { IfOk result (λ made. IsEnded (times_kind variable (expr_of count.now)) (exits_in exits) (exits_of rounds.exits) rounds.body (map block_of blocks.old.items) (map block_of blocks.new.items) (open_of made)) }
{
    end_rounds(
        blocks,
        exits,
        rounds,
        Items::new(alloc),
        LoopTest::Down(variable),
    );
    let again = open_at(alloc, BlockEnd::Goto(rounds.exits.on_continue));
    let made = before(Step::Start(variable, count), again)?;
    Ok(made)
}

/// The rounds of a `while`.
pub fn end_while<'a>(
    alloc: Global,
    blocks: &mut Vec<Block<'a>>,
    exits: Option<Exits>,
    rounds: Rounds,
    test: &'a CoreExpr,
) -> Open<'a>
    requires { rounds.exits.on_continue < length (map block_of blocks.old.items) }
    ensures { IsEnded (while_kind (expr_of test.now)) (exits_in exits) (exits_of rounds.exits) rounds.body (map block_of blocks.old.items) (map block_of blocks.new.items) (open_of result) }
{
    end_rounds(
        blocks,
        exits,
        rounds,
        Items::new(alloc),
        LoopTest::Holds(test),
    );
    open_at(alloc, BlockEnd::Goto(rounds.exits.on_continue))
}

/// The rounds of a `for` over all values of a `wrap`: the first body begins without a test.
pub fn end_each<'a>(
    alloc: Global,
    blocks: &mut Vec<Block<'a>>,
    exits: Option<Exits>,
    rounds: Rounds,
    variable: u32,
) -> Result<Open<'a>, NoMemory>
    requires { rounds.exits.on_continue < length (map block_of blocks.old.items) }
    ensures { IfOk result (λ made. IsEnded (each_kind variable) (exits_in exits) (exits_of rounds.exits) rounds.body (map block_of blocks.old.items) (map block_of blocks.new.items) (open_of made)) }
{
    end_rounds(
        blocks,
        exits,
        rounds,
        Items::new(alloc),
        LoopTest::Next(variable),
    );
    let first = BlockEnd::Round(LoopTest::Always, rounds.body, rounds.exits.on_break);
    let made = before(Step::Clear(variable), open_at(alloc, first))?;
    Ok(made)
}

// The condition of a `for`.
fn loop_test<'a>(test: &'a Option<CoreExpr>) -> LoopTest<'a>
    ensures { loop_test_of result ≡ test_of test.now }
{
    match test {
        Some(test) => LoopTest::Holds(test),
        None => LoopTest::Always,
    }
}

/// The rounds of a `for` of three parts: the condition stands before the first body, and after what is done after each.
pub fn end_for<'a>(
    alloc: Global,
    blocks: &mut Vec<Block<'a>>,
    exits: Option<Exits>,
    rounds: Rounds,
    start: &'a CoreStmt,
    test: &'a Option<CoreExpr>,
    step: &'a CoreStmt,
) -> Result<Open<'a>, NoMemory>
    requires { rounds.exits.on_continue < length (map block_of blocks.old.items) }
    ensures { IfOk result (λ made. IsEnded (for_kind (stmt_of start.now) (test_of test.now) (stmt_of step.now)) (exits_in exits) (exits_of rounds.exits) rounds.body (map block_of blocks.old.items) (map block_of blocks.new.items) (open_of made)) }
{
    let mut steps = Items::new(alloc);
    steps.push(Step::Stmt(step))?;
    let again = loop_test(test);
    end_rounds(blocks, exits, rounds, steps, again);
    let first = BlockEnd::Round(again, rounds.body, rounds.exits.on_break);
    let made = before(Step::Stmt(start), open_at(alloc, first))?;
    Ok(made)
}
