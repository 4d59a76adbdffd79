ghost use Rattle.std.specs.Prelude.{[], OnOk};
ghost use Rattle.cm_meaning.specs.BodySites.{after, after_start, block_sites, next_sites, start_sites, stmt_sites, stmts_sites};
ghost use Rattle.cm_meaning.specs.Scopes.{looped, scoped};
ghost use Rattle.scope_walk.specs.Steps.{after_all, Reads, Walks};
ghost use Rattle.scope_walk.specs.Bodies.{counted_sites, for_sites};

use crate::exprs::{walk_expr, walk_optional, walk_type};
use crate::simple::{walk_local, walk_simple};
use crate::steps::{Declaration, Part, Steps};
use cm_tree::{Block, Expr, Simple, Start, Stmt, TypeExpr, Word};
use std::alloc::AllocError;

// How a `for` of three parts begins.
fn walk_first<'a>(steps: &mut Steps<'a>, start: &'a Start) -> Result<(), AllocError>
    ensures { OnOk result (Walks steps.old steps.new (λ r. start_sites r (Some start.now)) (λ r. after_start r (Some start.now))) }
{
    match start {
        Start::Local(local) => walk_local(steps, local),
        Start::Simple(simple) => walk_simple(steps, simple),
    }
}

fn walk_start<'a>(steps: &mut Steps<'a>, start: &'a Option<Start>) -> Result<(), AllocError>
    ensures { OnOk result (Walks steps.old steps.new (λ r. start_sites r start.now) (λ r. after_start r start.now)) }
{
    match start {
        None => Ok(()),
        Some(first) => walk_first(steps, first),
    }
}

fn walk_next<'a>(steps: &mut Steps<'a>, next: &'a Option<Simple>) -> Result<(), AllocError>
    ensures { OnOk result (Reads steps.old steps.new (λ r. next_sites r next.now)) }
{
    match next {
        None => Ok(()),
        Some(simple) => walk_simple(steps, simple),
    }
}

/// The steps of a statement.
#[cycle(stmt)]
pub fn walk_stmt<'a>(steps: &mut Steps<'a>, tree: &'a Stmt) -> Result<(), AllocError>
    ensures { OnOk result (Walks steps.old steps.new (λ r. stmt_sites r tree.now) (λ r. after r tree.now)) }
{
    match tree {
        Stmt::Block(_, all) => walk_scope(steps, all.as_slice()),
        Stmt::Empty(_) => Ok(()),
        Stmt::Local(local) => walk_local(steps, local),
        Stmt::Simple(simple) => walk_simple(steps, simple),
        Stmt::Assert(assert) => walk_expr(steps, &assert.condition),
        Stmt::If(_, test, a) => {
            walk_expr(steps, test)?;
            walk_arm(steps, a.get())
        }
        Stmt::IfElse(_, test, a, b) => {
            walk_expr(steps, test)?;
            walk_arm(steps, a.get())?;
            walk_arm(steps, b.get())
        }
        Stmt::Loop(_, count, a) => {
            walk_optional(steps, count)?;
            walk_body(steps, a.get())
        }
        Stmt::While(_, test, a) => {
            walk_expr(steps, test)?;
            walk_body(steps, a.get())
        }
        Stmt::ForType(_, ty, word, a) => {
            walk_type(steps, ty)?;
            walk_counted(steps, ty, word, a.get())
        }
        Stmt::For(_, start, test, next, a) => walk_for(steps, start, test, next, a.get()),
        Stmt::Break(place) => steps.meet(Part::Jumps(*place)),
        Stmt::Continue(place) => steps.meet(Part::Jumps(*place)),
        Stmt::Return(_, value) => walk_optional(steps, value),
        Stmt::Advance(place) => steps.meet(Part::Advances(*place)),
        Stmt::Write(word, value) => {
            steps.meet(Part::Writes(word))?;
            walk_expr(steps, value)
        }
    }
}

// Statements in a scope of their own.
#[cycle(stmt)]
fn walk_scope<'a>(steps: &mut Steps<'a>, all: &'a [Stmt]) -> Result<(), AllocError>
    ensures { OnOk result (Reads steps.old steps.new (λ r. stmts_sites (scoped r []) all.now)) }
{
    steps.enter()?;
    walk_stmts(steps, all)?;
    steps.leave()
}

#[cycle(stmt)]
fn walk_stmts<'a>(steps: &mut Steps<'a>, all: &'a [Stmt]) -> Result<(), AllocError>
    ensures { OnOk result (Walks steps.old steps.new (λ r. stmts_sites r all.now) (λ r. after_all r all.now)) }
{
    for stmt in all {
        walk_stmt(steps, stmt)?;
    }
    Ok(())
}

// An arm of an `if`, in a scope of its own.
#[cycle(stmt)]
fn walk_arm<'a>(steps: &mut Steps<'a>, tree: &'a Stmt) -> Result<(), AllocError>
    ensures { OnOk result (Reads steps.old steps.new (λ r. stmt_sites (scoped r []) tree.now)) }
{
    steps.enter()?;
    walk_stmt(steps, tree)?;
    steps.leave()
}

// A body of a loop, in a scope of its own.
#[cycle(stmt)]
fn walk_body<'a>(steps: &mut Steps<'a>, tree: &'a Stmt) -> Result<(), AllocError>
    ensures { OnOk result (Reads steps.old steps.new (λ r. stmt_sites (scoped (looped r) []) tree.now)) }
{
    steps.enter_loop()?;
    walk_arm(steps, tree)?;
    steps.leave_loop()
}

// The variable and the body of `for (wrap<4> i)`, in a scope of their own.
#[cycle(stmt)]
fn walk_counted<'a>(
    steps: &mut Steps<'a>,
    ty: &'a TypeExpr,
    word: &'a Word,
    tree: &'a Stmt,
) -> Result<(), AllocError>
    ensures { OnOk result (Reads steps.old steps.new (λ r. counted_sites r ty.now word.now tree.now)) }
{
    steps.enter()?;
    steps.meet_counter(word, ty)?;
    steps.declare(word, Declaration::Counter(ty))?;
    walk_body(steps, tree)?;
    steps.leave()
}

#[cycle(stmt)]
fn walk_for<'a>(
    steps: &mut Steps<'a>,
    start: &'a Option<Start>,
    test: &'a Option<Expr>,
    next: &'a Option<Simple>,
    tree: &'a Stmt,
) -> Result<(), AllocError>
    ensures { OnOk result (Reads steps.old steps.new (λ r. for_sites (scoped r []) start.now test.now next.now tree.now)) }
{
    steps.enter()?;
    walk_start(steps, start)?;
    walk_optional(steps, test)?;
    walk_next(steps, next)?;
    walk_body(steps, tree)?;
    steps.leave()
}

/// The steps of the body of a function or a handler, which is a scope in that of the parameters.
pub fn walk_block<'a>(steps: &mut Steps<'a>, block: &'a Block) -> Result<(), AllocError>
    ensures { OnOk result (Reads steps.old steps.new (λ r. block_sites r block.now)) }
{
    walk_scope(steps, block.stmts.as_slice())
}
