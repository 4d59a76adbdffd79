ghost use Rattle.std.specs.Prelude.{IfOk};
ghost use Rattle.cm_meaning.specs.Conversions as rules;
ghost use Rattle.cm_types.specs.Lawful.{IsSound};
ghost use Rattle.cm_types.specs.Meant.{meant_type, meant_valued};
ghost use Rattle.const_values.specs.Answers.{Gives};
ghost use Rattle.const_values.specs.Operations.{operation_faults, alone_faults};

use cm_base::{Cause, Fail, Place};
use cm_const::{operate, operate_alone};
use cm_tree::{Binary, Unary};
use cm_types::Valued;
use std::alloc::Global;
use type_rules::operated;

/// What an operator between two constants gives. `at` is the place of the operation, and `divisor` that of its right side.
pub fn operation(
    alloc: Global,
    at: Place,
    op: Binary,
    divisor: Place,
    one: &Valued,
    other: &Valued,
) -> Result<Valued, Fail>
    requires one { IsSound (meant_valued one.now) }
    requires other { IsSound (meant_valued other.now) }
    ensures told { Gives (operation_faults op at divisor (meant_valued one.now) (meant_valued other.now)) (rules.operate op (meant_valued one.now) (meant_valued other.now)) (rules.operated op (meant_type one.now.ty) (meant_type other.now.ty)) result }
    ensures sound { IfOk result (λ found. IsSound (meant_valued found)) }
{
    let Some(_kind) = operated(op, &one.ty, &other.ty) else {
        return Err(Fail::refused(alloc, Cause::TypeMismatch, at));
    };
    match operate(op, one, other) {
        Some(found) => Ok(found),
        None => Err(Fail::refused(alloc, Cause::DivideByZero, divisor)),
    }
}

/// What an operator before a constant gives, at the place of the operation.
pub fn operation_alone(alloc: Global, at: Place, op: Unary, one: &Valued) -> Result<Valued, Fail>
    requires { IsSound (meant_valued one.now) }
    ensures told { Gives (alone_faults op at (meant_valued one.now)) (rules.operate_alone op (meant_valued one.now)) (rules.operated_alone op (meant_type one.now.ty)) result }
    ensures sound { IfOk result (λ found. IsSound (meant_valued found)) }
{
    match operate_alone(op, one) {
        Some(found) => Ok(found),
        None => Err(Fail::refused(alloc, Cause::TypeMismatch, at)),
    }
}
