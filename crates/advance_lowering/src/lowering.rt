ghost use Rattle.std.specs.Prelude.{◌≡◌, [], ◌∷◌, List, None, length, map, IfOk, true, false};
ghost use Rattle.cm_core.specs.Code.{stmt_of, body_of};
ghost use Rattle.cm_core.specs.Measures.{advances};
ghost use Rattle.cm_core.specs.Views.{stmts_of};
ghost use Rattle.cm_core.specs.World.{Todo};
ghost use Rattle.advance_lowering.specs.Blocks.{Stands, is_orderly, Goto as To};
ghost use Rattle.advance_lowering.specs.Lowered.{IsPart, lower as lowered, lower_all as all_lowered, at_end, pushed};
ghost use Rattle.advance_lowering.specs.Views.{block_of, open_of, exits_of, exits_in, IsArm, AreRounds};

use crate::advances::has_advance;
use crate::block::{Block, BlockEnd, Blocks, Exits, Step};
use crate::open::{Open, before, close, open_at};
use crate::rounds::{Rounds, begin_rounds, end_each, end_for, end_loop, end_times, end_while};
use cm_base::{Items, NoMemory};
use cm_core::{CoreStmt, Unit};
use std::alloc::Global;

/// The blocks of the main of a unit, which stand for its rests. It fails for want of memory alone, which more than 2^32
/// blocks are too.
pub fn lower<'a>(alloc: Global, unit: &'a Unit) -> Result<Blocks<'a>, NoMemory>
    requires { is_orderly (body_of unit.now.main) ≡ true }
    ensures { IfOk result (λ made. Stands (body_of unit.now.main) made.start (map block_of made.all)) }
{
    let mut blocks = Vec::new(alloc);
    let end = open_at(alloc, BlockEnd::Done);
    let made = lower_main(alloc, &mut blocks, &unit.main, end)?;
    let start = close(&mut blocks, None, made)?;
    Ok(Blocks {
        all: Items::from_vec(blocks),
        start,
    })
}

// A main before its end. One that isn't there does nothing.
fn lower_main<'a>(
    alloc: Global,
    blocks: &mut Vec<Block<'a>>,
    main: &'a Option<CoreStmt>,
    end: Open<'a>,
) -> Result<Open<'a>, NoMemory>
    ensures { IfOk result (λ made. (r : List Todo) → IsPart (lowered (body_of main.now) (length (map block_of blocks.old.items)) None (open_of end.entry) r) (map block_of blocks.old.items) (map block_of blocks.new.items) (open_of made)) }
{
    match main {
        Some(main) => {
            let made = lower_stmt(alloc, blocks, main, None, end)?;
            Ok(made)
        }
        None => {
            let made = before(Step::Nothing, end)?;
            Ok(made)
        }
    }
}

// A statement without `advance` before an open block.
fn keep<'a>(stmt: &'a CoreStmt, top: Open<'a>) -> Result<Open<'a>, NoMemory>
    requires { advances (stmt_of stmt.now) ≡ false }
    ensures plain { IfOk result (λ made. advances (stmt_of stmt.now) ≡ false) }
    ensures pushed { IfOk result (λ made. open_of made ≡ pushed (stmt_of stmt.now) (open_of top.entry)) }
{
    let made = before(Step::Stmt(stmt), top)?;
    Ok(made)
}

// A statement before an open block. Recursion goes down the tree.
#[cycle(lower)]
#[tactic(auto, using(cm_core::specs::Views::stmt_views))]
fn lower_stmt<'a>(
    alloc: Global,
    blocks: &mut Vec<Block<'a>>,
    stmt: &'a CoreStmt,
    exits: Option<Exits>,
    top: Open<'a>,
) -> Result<Open<'a>, NoMemory>
    ensures { IfOk result (λ made. (r : List Todo) → IsPart (lowered (stmt_of stmt.now) (length (map block_of blocks.old.items)) (exits_in exits) (open_of top.entry) r) (map block_of blocks.old.items) (map block_of blocks.new.items) (open_of made)) }
{
    if !has_advance(stmt) {
        let made = keep(stmt, top)?;
        return Ok(made);
    }
    match stmt {
        CoreStmt::Block(all) => {
            let made = lower_all(alloc, blocks, all.as_slice(), exits, top)?;
            Ok(made)
        }
        CoreStmt::If(test, one, other) => {
            let join = close(blocks, exits, top)?;
            let one = lower_arm(alloc, blocks, one.get(), exits, join)?;
            let other = lower_arm(alloc, blocks, other.get(), exits, join)?;
            Ok(open_at(alloc, BlockEnd::Branch(test, one, other)))
        }
        CoreStmt::Loop(body, _) => {
            let rounds = lower_body(alloc, blocks, body.get(), exits, top)?;
            Ok(end_loop(alloc, blocks, exits, rounds))
        }
        CoreStmt::Times(variable, count, body, _) => {
            let rounds = lower_body(alloc, blocks, body.get(), exits, top)?;
            let made = end_times(alloc, blocks, exits, rounds, *variable, count)?;
            Ok(made)
        }
        CoreStmt::While(test, body, _) => {
            let rounds = lower_body(alloc, blocks, body.get(), exits, top)?;
            Ok(end_while(alloc, blocks, exits, rounds, test))
        }
        CoreStmt::Each(variable, body, _) => {
            let rounds = lower_body(alloc, blocks, body.get(), exits, top)?;
            let made = end_each(alloc, blocks, exits, rounds, *variable)?;
            Ok(made)
        }
        CoreStmt::For(start, test, step, body, _) => {
            let rounds = lower_body(alloc, blocks, body.get(), exits, top)?;
            let made = end_for(alloc, blocks, exits, rounds, start.get(), test, step.get())?;
            Ok(made)
        }
        CoreStmt::Advance => {
            let next = close(blocks, exits, top)?;
            Ok(open_at(alloc, BlockEnd::Suspend(next)))
        }
        CoreStmt::Return(_)
        | CoreStmt::Nothing
        | CoreStmt::Empty
        | CoreStmt::Locals(_)
        | CoreStmt::Assign(_, _)
        | CoreStmt::Update(_, _, _, _)
        | CoreStmt::Count(_, _)
        | CoreStmt::Call(_, _)
        | CoreStmt::Break
        | CoreStmt::Continue
        | CoreStmt::Write(_, _) => {
            let made = keep(stmt, top)?;
            Ok(made)
        }
    }
}

// The statements of a list before an open block.
#[cycle(lower)]
fn lower_all<'a>(
    alloc: Global,
    blocks: &mut Vec<Block<'a>>,
    all: &'a [CoreStmt],
    exits: Option<Exits>,
    top: Open<'a>,
) -> Result<Open<'a>, NoMemory>
    ensures { IfOk result (λ made. (r : List Todo) → IsPart (all_lowered (stmts_of all.now) (length (map block_of blocks.old.items)) (exits_in exits) (open_of top.entry) r) (map block_of blocks.old.items) (map block_of blocks.new.items) (open_of made)) }
{
    let mut made = top;
    for i in (0..all.len()).rev() {
        made = lower_stmt(alloc, blocks, &all[i], exits, made)?;
    }
    Ok(made)
}

// A statement before a block, in blocks of its own: the number of the first.
#[cycle(lower)]
fn lower_arm<'a>(
    alloc: Global,
    blocks: &mut Vec<Block<'a>>,
    arm: &'a CoreStmt,
    exits: Option<Exits>,
    next: u32,
) -> Result<u32, NoMemory>
    ensures { IfOk result (λ number. (r : List Todo) → IsArm (lowered (stmt_of arm.now) (length (map block_of blocks.old.items)) (exits_in exits) (at_end (To next)) r) (exits_in exits) (map block_of blocks.old.items) (map block_of blocks.new.items) number) }
{
    let made = lower_stmt(
        alloc,
        blocks,
        arm,
        exits,
        open_at(alloc, BlockEnd::Goto(next)),
    )?;
    let number = close(blocks, exits, made)?;
    Ok(number)
}

// What follows a loop, its further rounds, which are still to be written, and its body.
#[cycle(lower)]
fn lower_body<'a>(
    alloc: Global,
    blocks: &mut Vec<Block<'a>>,
    body: &'a CoreStmt,
    exits: Option<Exits>,
    top: Open<'a>,
) -> Result<Rounds, NoMemory>
    ensures { IfOk result (λ rounds. AreRounds (stmt_of body.now) (exits_in exits) (open_of top.entry) (map block_of blocks.old.items) (map block_of blocks.new.items) (exits_of rounds.exits) rounds.body) }
{
    let inner = begin_rounds(alloc, blocks, exits, top)?;
    let body = lower_arm(alloc, blocks, body, Some(inner), inner.on_continue)?;
    Ok(Rounds { exits: inner, body })
}
