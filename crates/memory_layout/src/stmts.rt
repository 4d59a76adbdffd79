ghost use Rattle.std.specs.Prelude.{◌≡◌, ◌+◌, max};
ghost use Rattle.cm_core.specs.Code.{expr_of, stmt_of, locals_of, local_of, test_of, return_of};
ghost use Rattle.cm_core.specs.Linked.{end_of};
ghost use Rattle.cm_core.specs.Sizes as sizes;
ghost use Rattle.cm_core.specs.Views.{stmts_of};
ghost use Rattle.memory_layout.specs.Held.{held};
ghost use Rattle.memory_layout.specs.Scales.{scale_of};

use crate::exprs::{measured_expr, sizes_of};
use crate::scale::Scale;
use crate::used::Used;
use cm_core::{CoreExpr, CoreStmt, Declared};

/// The size of an expression whose value is used.
pub fn value_size<'a>(scale: &Scale<'a>, expr: &'a CoreExpr) -> u64
    ensures { result ≡ held (sizes.expr_size (scale_of scale.now) sizes.AsValue (expr_of expr.now)) }
{
    measured_expr(scale, Used::Value, expr).size
}

// 1, the scalars of the target, and the target.
fn target_size<'a>(scale: &Scale<'a>, target: &'a CoreExpr) -> u64
    ensures { result ≡ held (sizes.target_size (scale_of scale.now) (expr_of target.now)) }
{
    let found = measured_expr(scale, Used::Place(false), target);
    scale
        .scalars(found.ty)
        .saturating_add(1)
        .saturating_add(found.size)
}

// 1, the scalars of the variable, and its initial value.
fn declared_size<'a>(scale: &Scale<'a>, declared: &'a Declared) -> u64
    ensures { result ≡ held (sizes.stmt_size (scale_of scale.now) (local_of declared.now.variable declared.now.first)) }
{
    let own = scale
        .scalars(scale.variable_type(declared.variable))
        .saturating_add(1);
    match &declared.first {
        Some(value) => own.saturating_add(value_size(scale, value)),
        None => own,
    }
}

fn locals_size<'a>(scale: &Scale<'a>, all: &'a [Declared]) -> u64
    ensures { result ≡ held (sizes.stmts_size (scale_of scale.now) (locals_of all.now)) }
{
    let mut size: u64 = 0;
    let mut rest = all;
    while let Some((first, others)) = rest.split_first() {
        size = size.saturating_add(declared_size(scale, first));
        rest = others;
    }
    size
}

fn test_size<'a>(scale: &Scale<'a>, test: &'a Option<CoreExpr>) -> u64
    ensures { result ≡ held (sizes.test_size (scale_of scale.now) (test_of test.now)) }
{
    match test {
        Some(test) => value_size(scale, test),
        None => 0,
    }
}

fn return_size<'a>(scale: &Scale<'a>, value: &'a Option<CoreExpr>) -> u64
    ensures { result ≡ held (sizes.stmt_size (scale_of scale.now) (return_of value.now)) }
{
    match value {
        Some(value) => value_size(scale, value).saturating_add(1),
        None => 1,
    }
}

/// The size of a statement. Recursion goes down the tree.
#[cycle(stmt_size)]
#[tactic(auto, using(cm_core::specs::Views::stmt_views))]
pub fn stmt_size<'a>(scale: &Scale<'a>, stmt: &'a CoreStmt) -> u64
    ensures { result ≡ held (sizes.stmt_size (scale_of scale.now) (stmt_of stmt.now)) }
{
    match stmt {
        CoreStmt::Nothing => 0,
        CoreStmt::Empty | CoreStmt::Break | CoreStmt::Continue | CoreStmt::Advance => 1,
        CoreStmt::Block(all) => stmts_size(scale, all.as_slice()).saturating_add(1),
        CoreStmt::Locals(all) => locals_size(scale, all.as_slice()),
        CoreStmt::Assign(target, value) | CoreStmt::Update(target, _, _, value) => {
            target_size(scale, target).saturating_add(value_size(scale, value))
        }
        CoreStmt::Count(_, target) => target_size(scale, target),
        CoreStmt::Call(function, args) => scale
            .call(*function)
            .saturating_add(1)
            .saturating_add(sizes_of(scale, args.as_slice())),
        CoreStmt::If(test, one, other) => value_size(scale, test)
            .saturating_add(1)
            .saturating_add(stmt_size(scale, one.get()))
            .saturating_add(stmt_size(scale, other.get())),
        CoreStmt::Loop(body, _) => stmt_size(scale, body.get()).saturating_add(1),
        CoreStmt::Times(_, count, body, _) => value_size(scale, count)
            .saturating_add(1)
            .saturating_add(stmt_size(scale, body.get())),
        CoreStmt::While(test, body, _) => value_size(scale, test)
            .saturating_add(1)
            .saturating_add(stmt_size(scale, body.get())),
        CoreStmt::Each(_, body, _) => stmt_size(scale, body.get()).saturating_add(2),
        CoreStmt::For(start, test, step, body, _) => stmt_size(scale, start.get())
            .saturating_add(1)
            .saturating_add(test_size(scale, test))
            .saturating_add(stmt_size(scale, step.get()))
            .saturating_add(stmt_size(scale, body.get())),
        CoreStmt::Return(value) => return_size(scale, value),
        CoreStmt::Write(end, value) => scale
            .end_scalars(*end)
            .saturating_add(1)
            .saturating_add(value_size(scale, value))
            .saturating_add(scale.reached(*end)),
    }
}

#[cycle(stmt_size)]
fn stmts_size<'a>(scale: &Scale<'a>, all: &'a [CoreStmt]) -> u64
    ensures { result ≡ held (sizes.stmts_size (scale_of scale.now) (stmts_of all.now)) }
{
    let mut size: u64 = 0;
    let mut rest = all;
    while let Some((first, others)) = rest.split_first() {
        size = size.saturating_add(stmt_size(scale, first));
        rest = others;
    }
    size
}
