ghost use Rattle.std.specs.Prelude.{◌≡◌};
ghost use Rattle.cm_core.specs.Code.{expr_of, exprs_of};
ghost use Rattle.cm_core.specs.Sizes as sizes;
ghost use Rattle.cm_core.specs.Types as types;

use cm_core::CoreExpr;

/// Whether an expression is a constant by its form. Recursion goes down the tree.
#[cycle(constant)]
#[tactic(auto, using(cm_core::specs::Views::expr_views))]
pub fn is_constant(expr: &CoreExpr) -> bool
    ensures { result ≡ types.is_constant (expr_of expr.now) }
{
    match expr {
        CoreExpr::Number { .. } | CoreExpr::Truth(_) | CoreExpr::Constant(_) => true,
        CoreExpr::Variable(_) | CoreExpr::Input(_) | CoreExpr::Call(_, _) => false,
        CoreExpr::Field(whole, _) => is_constant(whole.get()),
        CoreExpr::Index(whole, index) => is_constant(whole.get()) && is_constant(index.get()),
        CoreExpr::Construct(_, all) => are_constant(all.as_slice()),
        CoreExpr::Convert(_, value) | CoreExpr::Unary(_, _, value) => is_constant(value.get()),
        CoreExpr::Binary(_, _, left, right) | CoreExpr::Logic(_, left, right) => {
            is_constant(left.get()) && is_constant(right.get())
        }
        CoreExpr::Choose(test, one, other) => {
            is_constant(test.get()) && (is_constant(one.get()) && is_constant(other.get()))
        }
    }
}

#[cycle(constant)]
fn are_constant(all: &[CoreExpr]) -> bool
    ensures { result ≡ types.are_constant (exprs_of all.now) }
{
    let mut rest = all;
    while let Some((first, others)) = rest.split_first() {
        if !is_constant(first) {
            return false;
        }
        rest = others;
    }
    true
}

/// Whether an index of a selection isn't a constant.
#[tactic(auto, using(cm_core::specs::Views::expr_views))]
pub fn moves(expr: &CoreExpr) -> bool
    ensures { result ≡ sizes.moves (expr_of expr.now) }
{
    match expr {
        CoreExpr::Field(whole, _) => moves(whole.get()),
        CoreExpr::Index(whole, index) => moves(whole.get()) || !is_constant(index.get()),
        CoreExpr::Number { .. }
        | CoreExpr::Truth(_)
        | CoreExpr::Variable(_)
        | CoreExpr::Input(_)
        | CoreExpr::Constant(_)
        | CoreExpr::Call(_, _)
        | CoreExpr::Construct(_, _)
        | CoreExpr::Convert(_, _)
        | CoreExpr::Unary(_, _, _)
        | CoreExpr::Binary(_, _, _, _)
        | CoreExpr::Logic(_, _, _)
        | CoreExpr::Choose(_, _, _) => false,
    }
}
