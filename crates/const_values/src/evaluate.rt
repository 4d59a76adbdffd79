ghost use Rattle.std.specs.Prelude.{◌≡◌, FitsSigned, IfOk, if◌then◌else◌};
ghost use Rattle.std.specs.Int.{w64};
ghost use Rattle.cm_base.specs.HostEnds.{IsCount};
ghost use Rattle.cm_meaning.specs.Constants.{type_in};
ghost use Rattle.cm_meaning.specs.Types.{Truth, bool, int32, int64, scalar_value};
ghost use Rattle.cm_base.specs.declared.host.Scalar.TheVariants as kinds;
ghost use Rattle.cm_types.specs.Lawful.{IsLawfulType, IsSound};
ghost use Rattle.cm_types.specs.Meant.{meant_type, meant_value, meant_valued};
ghost use Rattle.cm_tree.specs.declared.expr.Expr.TheVariants as e;
ghost use Rattle.const_values.specs.Answers.{Tells, TellsConstant};
ghost use Rattle.const_values.specs.Arguments.{TellsAll, GivesCall};
ghost use Rattle.const_values.specs.Construct.{meant_givens, AreSound};
ghost use Rattle.const_values.specs.Names.{means, AreSoundArguments};
ghost use Rattle.const_values.specs.Sizes.{TellsCount, TellsCounts, TellsBase, AreLawfulCounts};

use crate::choices::{choice, truth};
use crate::construct::{Given, composed, made};
use crate::elements::element;
use crate::form::is_constant;
use crate::members::field;
use crate::names::{ConstNames, Env, type_named, value_named};
use crate::operations::{operation, operation_alone};
use crate::places::{base_place, place};
use crate::sizes::{arrays, count_of};
use cm_base::{Cause, Fail, Items, Scalar};
use cm_const::converted;
use cm_tree::{Base, Expr, Path};
use cm_types::{CmType, Valued};
use std::alloc::Global;
use type_rules::is_condition;

// A literal, which is of `int64` where it is wide.
fn literal(number: i64, wide: bool) -> Valued
    ensures ty { meant_type result.ty ≡ (if wide then int64 else int32) }
    ensures value { meant_value result.value ≡ scalar_value (if wide then kinds.Int64 else kinds.Int32) number }
    ensures sound { IsSound (meant_valued result) }
    ensures range { FitsSigned w64 number }
{
    if wide {
        converted(Scalar::Int64, number)
    } else {
        converted(Scalar::Int32, number)
    }
}

// `true` or `false`.
#[tactic(auto, unfolding(cm_number::specs::Conversion::to_bool))]
fn truth_literal(is_true: bool) -> Valued
    ensures ty { meant_type result.ty ≡ bool }
    ensures value { meant_value result.value ≡ Truth is_true }
    ensures sound { IsSound (meant_valued result) }
{
    if is_true {
        converted(Scalar::Bool, 1)
    } else {
        converted(Scalar::Bool, 0)
    }
}

// A constant or a value parameter.
fn named<N: ConstNames>(alloc: Global, path: &Path, env: &Env, names: &N) -> Result<Valued, Fail>
    requires { AreSoundArguments env.now.params }
    ensures told { Tells (N.finds names.now) env.now.params (e.Name path.now) result }
    ensures sound { IfOk result (λ found. IsSound (meant_valued found)) }
{
    match value_named(path, env, names) {
        Some(found) => Ok(Valued {
            ty: found.ty.copy(alloc)?,
            value: found.value.copy(alloc)?,
        }),
        None => Err(Fail::refused(alloc, Cause::NotConstant, path.place)),
    }
}

// A value of the type of a name, where it is one.
fn called<N: ConstNames>(
    alloc: Global,
    path: &Path,
    given: &[Given],
    env: &Env,
    names: &N,
) -> Result<Valued, Fail>
    requires params { AreSoundArguments env.now.params }
    requires given { AreSound (meant_givens given.now) }
    ensures told { GivesCall path.now.place (type_in (means env.now.params (N.finds names.now path.now))) (meant_givens given.now) result }
    ensures sound { IfOk result (λ found. IsSound (meant_valued found)) }
{
    match type_named(path, env, names) {
        Some(ty) => made(alloc, path.place, ty.copy(alloc)?, given),
        None => Err(Fail::refused(alloc, Cause::NotConstant, path.place)),
    }
}

// The value of what is a constant by its form. It goes down no further than the height of the tree.
#[cycle(evaluate)]
fn evaluate<N: ConstNames>(alloc: Global, expr: &Expr, env: &Env, names: &N) -> Result<Valued, Fail>
    requires { AreSoundArguments env.now.params }
    ensures told { Tells (N.finds names.now) env.now.params expr.now result }
    ensures sound { IfOk result (λ found. IsSound (meant_valued found)) }
{
    match expr {
        Expr::Number(_, number, wide) => Ok(literal(*number, *wide)),
        Expr::Truth(_, is_true) => Ok(truth_literal(*is_true)),
        Expr::Name(path) => named(alloc, path, env, names),
        Expr::Paren(_, inner) => evaluate(alloc, inner.get(), env, names),
        Expr::Unary(at, op, inner) => {
            let one = evaluate(alloc, inner.get(), env, names)?;
            operation_alone(alloc, *at, *op, &one)
        }
        Expr::Binary(at, op, left, right) => {
            let one = evaluate(alloc, left.get(), env, names)?;
            let other = evaluate(alloc, right.get(), env, names)?;
            operation(alloc, *at, *op, place(right.get()), &one, &other)
        }
        Expr::Field(_, inner, word) => {
            let one = evaluate(alloc, inner.get(), env, names)?;
            field(alloc, word, &one)
        }
        Expr::Index(at, inner, index) => {
            let one = evaluate(alloc, inner.get(), env, names)?;
            let found = evaluate(alloc, index.get(), env, names)?;
            element(alloc, *at, place(index.get()), &one, &found)
        }
        Expr::Choice(at, test, left, right) => {
            let tested = evaluate(alloc, test.get(), env, names)?;
            if !is_condition(&tested.ty) {
                return Err(Fail::refused(alloc, Cause::TypeMismatch, place(test.get())));
            }
            let one = evaluate(alloc, left.get(), env, names)?;
            let other = evaluate(alloc, right.get(), env, names)?;
            choice(alloc, *at, truth(&tested), one, other)
        }
        Expr::Call(path, args) => {
            let all = given(alloc, args.as_slice(), env, names)?;
            called(alloc, path, all.as_slice(), env, names)
        }
        Expr::Construct(base, sizes, args) => {
            let element = base_type(alloc, base, env, names)?;
            let counts = counts(alloc, sizes.as_slice(), env, names)?;
            let all = given(alloc, args.as_slice(), env, names)?;
            let ty = arrays(alloc, element, counts)?;
            composed(alloc, base_place(base), ty, all.as_slice())
        }
    }
}

// The values of the arguments of a cast or constructor, which are constants by their form.
#[cycle(evaluate)]
fn given<N: ConstNames>(
    alloc: Global,
    args: &[Expr],
    env: &Env,
    names: &N,
) -> Result<Items<Given>, Fail>
    requires { AreSoundArguments env.now.params }
    ensures told { TellsAll (N.finds names.now) env.now.params args.now result }
    ensures sound { IfOk result (λ all. AreSound (meant_givens all)) }
{
    let mut all = Vec::with_capacity(alloc, args.len())?;
    for arg in args {
        let one = evaluate(alloc, arg, env, names)?;
        all.push(Given {
            place: place(arg),
            one,
        })?;
    }
    Ok(Items::from_vec(all))
}

// The number of elements of an array, or of values of a `wrap` or `clamp`.
#[cycle(evaluate)]
fn count<N: ConstNames>(alloc: Global, expr: &Expr, env: &Env, names: &N) -> Result<u32, Fail>
    requires { AreSoundArguments env.now.params }
    ensures told { TellsCount (N.finds names.now) env.now.params expr.now result }
    ensures lawful { IfOk result (λ count. IsCount count) }
{
    let one = constant(alloc, expr, env, names)?;
    count_of(alloc, place(expr), &one)
}

/// The counts of an array's type, from left to right.
#[cycle(evaluate)]
pub fn counts<N: ConstNames>(
    alloc: Global,
    sizes: &[Expr],
    env: &Env,
    names: &N,
) -> Result<Items<u32>, Fail>
    requires { AreSoundArguments env.now.params }
    ensures told { TellsCounts (N.finds names.now) env.now.params sizes.now result }
    ensures lawful { IfOk result (λ all. AreLawfulCounts all) }
{
    let mut all = Vec::with_capacity(alloc, sizes.len())?;
    for size in sizes {
        all.push(count(alloc, size, env, names)?)?;
    }
    Ok(Items::from_vec(all))
}

/// The type that a base type is.
#[cycle(evaluate)]
pub fn base_type<N: ConstNames>(
    alloc: Global,
    base: &Base,
    env: &Env,
    names: &N,
) -> Result<CmType, Fail>
    requires { AreSoundArguments env.now.params }
    ensures told { TellsBase (N.finds names.now) env.now.params base.now result }
    ensures lawful { IfOk result (λ ty. IsLawfulType (meant_type ty)) }
{
    match base {
        Base::Bool(_) => Ok(CmType::Single(Scalar::Bool)),
        Base::Int(_) => Ok(CmType::Single(Scalar::Int32)),
        Base::Int32(_) => Ok(CmType::Single(Scalar::Int32)),
        Base::Int64(_) => Ok(CmType::Single(Scalar::Int64)),
        Base::Wrap(_, values) => {
            let count = count(alloc, values.get(), env, names)?;
            Ok(CmType::Single(Scalar::Wrap(count)))
        }
        Base::Clamp(_, values) => {
            let count = count(alloc, values.get(), env, names)?;
            Ok(CmType::Single(Scalar::Clamp(count)))
        }
    }
}

/// The value of an expression where a constant is needed. It is refused exactly where something is wrong with it: by
/// `NotConstant` at its first token where it is no constant by its form, and else for what is wrong in it.
#[cycle(evaluate)]
pub fn constant<N: ConstNames>(
    alloc: Global,
    expr: &Expr,
    env: &Env,
    names: &N,
) -> Result<Valued, Fail>
    requires { AreSoundArguments env.now.params }
    ensures told { TellsConstant (N.finds names.now) env.now.params expr.now result }
    ensures sound { IfOk result (λ found. IsSound (meant_valued found)) }
{
    if !is_constant(expr, env, names) {
        return Err(Fail::refused(alloc, Cause::NotConstant, place(expr)));
    }
    evaluate(alloc, expr, env, names)
}
