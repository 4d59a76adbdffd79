ghost use Rattle.std.specs.Prelude.{◌≡◌, ◌∷◌, flat_map, OnOk};
ghost use Rattle.std.specs.Option.{option_copied};
ghost use Rattle.cm_meaning.specs.Sites.{Calls, arguments_sites, base_sites, expr_sites, optional_sites, site, type_sites};
ghost use Rattle.scope_walk.specs.Bodies.{alone, argument_sites};
ghost use Rattle.scope_walk.specs.Steps.{Reads};

use crate::steps::{Part, Steps};
use cm_tree::{Base, Expr, Path, TypeExpr};
use std::alloc::AllocError;

/// The steps of an expression.
#[cycle(expr)]
pub fn walk_expr<'a>(steps: &mut Steps<'a>, tree: &'a Expr) -> Result<(), AllocError>
    ensures { OnOk result (Reads steps.old steps.new (λ r. expr_sites r tree.now)) }
{
    match tree {
        Expr::Number(_, _, _) => Ok(()),
        Expr::Truth(_, _) => Ok(()),
        Expr::Name(path) => steps.meet(Part::Reads(path)),
        Expr::Call(path, args) => walk_call(steps, path, args.as_slice()),
        Expr::Construct(base, sizes, args) => {
            walk_base(steps, base)?;
            walk_exprs(steps, sizes.as_slice())?;
            walk_arguments(steps, args.as_slice())
        }
        Expr::Paren(_, a) => walk_expr(steps, a.get()),
        Expr::Field(_, a, _) => walk_expr(steps, a.get()),
        Expr::Index(_, a, b) => {
            walk_expr(steps, a.get())?;
            walk_expr(steps, b.get())
        }
        Expr::Unary(_, _, a) => walk_expr(steps, a.get()),
        Expr::Binary(_, _, a, b) => {
            walk_expr(steps, a.get())?;
            walk_expr(steps, b.get())
        }
        Expr::Choice(_, test, a, b) => {
            walk_expr(steps, test.get())?;
            walk_expr(steps, a.get())?;
            walk_expr(steps, b.get())
        }
    }
}

/// The steps of a call, or of a value of a named type.
#[cycle(expr)]
pub fn walk_call<'a>(
    steps: &mut Steps<'a>,
    path: &'a Path,
    args: &'a [Expr],
) -> Result<(), AllocError>
    ensures { OnOk result (Reads steps.old steps.new (λ r. site r (Calls path.now args.now) ∷ arguments_sites r args.now)) }
{
    steps.meet(Part::Calls(path, args))?;
    walk_arguments(steps, args)
}

#[cycle(expr)]
fn walk_argument<'a>(steps: &mut Steps<'a>, tree: &'a Expr) -> Result<(), AllocError>
    ensures { OnOk result (Reads steps.old steps.new (λ r. argument_sites r tree.now)) }
{
    steps.meet(Part::TakesArgument(tree))?;
    walk_expr(steps, tree)
}

// The steps of the arguments of a call or of what makes a value.
#[cycle(expr)]
fn walk_arguments<'a>(steps: &mut Steps<'a>, trees: &'a [Expr]) -> Result<(), AllocError>
    ensures { OnOk result (Reads steps.old steps.new (λ r. arguments_sites r trees.now)) }
{
    for tree in trees {
        walk_argument(steps, tree)?;
    }
    Ok(())
}

/// The steps of expressions one after the other.
#[cycle(expr)]
pub fn walk_exprs<'a>(steps: &mut Steps<'a>, trees: &'a [Expr]) -> Result<(), AllocError>
    ensures { OnOk result (Reads steps.old steps.new (λ r. flat_map (expr_sites r) trees.now)) }
{
    for tree in trees {
        walk_expr(steps, tree)?;
    }
    Ok(())
}

/// The steps of a base type.
#[cycle(expr)]
pub fn walk_base<'a>(steps: &mut Steps<'a>, base: &'a Base) -> Result<(), AllocError>
    ensures { OnOk result (Reads steps.old steps.new (λ r. base_sites r base.now)) }
{
    match base {
        Base::Bool(_) => Ok(()),
        Base::Int(_) => Ok(()),
        Base::Int32(_) => Ok(()),
        Base::Int64(_) => Ok(()),
        Base::Wrap(_, count) => walk_expr(steps, count.get()),
        Base::Clamp(_, count) => walk_expr(steps, count.get()),
    }
}

/// The path that an expression is, if it is no more.
pub fn name_alone<'a>(tree: &'a Expr) -> Option<&'a Path>
    ensures { option_copied result ≡ alone tree.now }
{
    match tree {
        Expr::Name(path) => Some(path),
        _ => None,
    }
}

/// The steps of an expression that may be absent.
pub fn walk_optional<'a>(steps: &mut Steps<'a>, tree: &'a Option<Expr>) -> Result<(), AllocError>
    ensures { OnOk result (Reads steps.old steps.new (λ r. optional_sites r tree.now)) }
{
    match tree {
        None => Ok(()),
        Some(tree) => walk_expr(steps, tree),
    }
}

/// The steps of a written type.
pub fn walk_type<'a>(steps: &mut Steps<'a>, tree: &'a TypeExpr) -> Result<(), AllocError>
    ensures { OnOk result (Reads steps.old steps.new (λ r. type_sites r tree.now)) }
{
    match tree {
        TypeExpr::Base(base, sizes) => {
            walk_base(steps, base)?;
            walk_exprs(steps, sizes.as_slice())
        }
        TypeExpr::Named(path, sizes) => {
            steps.meet(Part::NamesType(path))?;
            walk_exprs(steps, sizes.as_slice())
        }
    }
}
