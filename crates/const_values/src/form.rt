ghost use Rattle.const_values.specs.Answers.{Judges};
ghost use Rattle.const_values.specs.Arguments.{JudgesAll};
ghost use Rattle.const_values.specs.Names.{AreSoundArguments};

use crate::names::{ConstNames, Env, type_named, value_named};
use cm_tree::Expr;

/// Whether an expression is made of what constants are made of, whatever its types.
#[cycle(form)]
pub fn is_constant<N: ConstNames>(expr: &Expr, env: &Env, names: &N) -> bool
    requires { AreSoundArguments env.now.params }
    ensures { Judges (N.finds names.now) env.now.params expr.now result }
{
    match expr {
        Expr::Number(_at, _number, _wide) => true,
        Expr::Truth(_at, _is) => true,
        Expr::Name(path) => value_named(path, env, names).is_some(),
        Expr::Paren(_, inner) => is_constant(inner.get(), env, names),
        Expr::Field(_, inner, _) => is_constant(inner.get(), env, names),
        Expr::Unary(_, _, inner) => is_constant(inner.get(), env, names),
        Expr::Binary(_, _, left, right) => {
            if !is_constant(left.get(), env, names) {
                return false;
            }
            is_constant(right.get(), env, names)
        }
        Expr::Index(_, inner, index) => {
            if !is_constant(inner.get(), env, names) {
                return false;
            }
            is_constant(index.get(), env, names)
        }
        Expr::Choice(_, test, one, other) => {
            if !is_constant(test.get(), env, names) {
                return false;
            }
            if !is_constant(one.get(), env, names) {
                return false;
            }
            is_constant(other.get(), env, names)
        }
        Expr::Call(path, args) => {
            if type_named(path, env, names).is_none() {
                return false;
            }
            are_constant(args.as_slice(), env, names)
        }
        Expr::Construct(_base, _sizes, args) => are_constant(args.as_slice(), env, names),
    }
}

#[cycle(form)]
fn are_constant<N: ConstNames>(all: &[Expr], env: &Env, names: &N) -> bool
    requires { AreSoundArguments env.now.params }
    ensures { JudgesAll (N.finds names.now) env.now.params all.now result }
{
    for expr in all {
        if !is_constant(expr, env, names) {
            return false;
        }
    }
    true
}
