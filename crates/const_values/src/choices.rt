ghost use Rattle.std.specs.Prelude.{◌≡◌, Some, true, option_map, IfOk, if◌then◌else◌};
ghost use Rattle.cm_number.specs.Conversion.{to_bool};
ghost use Rattle.cm_meaning.specs.Conversions as rules;
ghost use Rattle.cm_meaning.specs.Types.{number_of};
ghost use Rattle.cm_types.specs.Lawful.{IsSound};
ghost use Rattle.cm_types.specs.Meant.{meant_type, meant_value, meant_valued};
ghost use Rattle.const_values.specs.Answers.{Gives};
ghost use Rattle.const_values.specs.Operations.{choice_faults, arm_value};

use cm_base::{Cause, Fail, Place};
use cm_const::converted;
use cm_types::Valued;
use std::alloc::Global;
use type_rules::{is_same, joined};

/// The truth of what is taken as a condition.
#[tactic(auto, unfolding(cm_number::specs::Conversion::to_bool))]
pub fn truth(test: &Valued) -> bool
    requires sound { IsSound (meant_valued test.now) }
    requires condition { rules.is_condition (meant_type test.now.ty) ≡ true }
    ensures { option_map to_bool (number_of (meant_value test.now.value)) ≡ Some result }
{
    match test.value.number() {
        Some(number) => number != 0,
        None => false,
    }
}

fn arm(first: bool, one: Valued, other: Valued) -> Valued
    ensures { result ≡ (if first then one else other) }
{
    if first { one } else { other }
}

/// The value of the arm of `?:` that is chosen, in the type of both. `at` is the place of the operation.
pub fn choice(
    alloc: Global,
    at: Place,
    first: bool,
    one: Valued,
    other: Valued,
) -> Result<Valued, Fail>
    requires one { IsSound (meant_valued one) }
    requires other { IsSound (meant_valued other) }
    ensures told { Gives (choice_faults at (meant_valued one) (meant_valued other)) (arm_value first (meant_valued one) (meant_valued other)) (rules.chosen (meant_type one.ty) (meant_type other.ty)) result }
    ensures sound { IfOk result (λ found. IsSound (meant_valued found)) }
{
    if is_same(&one.ty, &other.ty) {
        return Ok(arm(first, one, other));
    }
    let Some(kind) = joined(&one.ty, &other.ty) else {
        return Err(Fail::refused(alloc, Cause::TypeMismatch, at));
    };
    match arm(first, one, other).value.number() {
        Some(number) => Ok(converted(kind, number)),
        None => Err(Fail::refused(alloc, Cause::TypeMismatch, at)),
    }
}
