ghost use Rattle.std.specs.Prelude.{◌≡◌, length};
ghost use Rattle.std.specs.List.{AllByRecursion};
ghost use Rattle.serde_json.specs.View.{view, items_view};
ghost use Rattle.cm_base.specs.HostEnds.{IsLawfulScalar, IsLawfulEnd};
ghost use Rattle.json_value.specs.Form.{Answers};
ghost use Rattle.input_script.specs.Script.{number_of, held, scalar_of, scalars_of, array_of, shaped, value_for, Adds, IsRange};

use crate::at::At;
use cm_base::{FormFail, FormRule, HostEnd, Range, Scalar, Scalars};
use cm_number::hold;
use cm_scalar::convert;
use serde_json::Value;

/// The number that is given for a scalar of this kind.
fn number_of(kind: Scalar, value: &Value) -> Option<i64>
    ensures { result ≡ number_of kind (view value.now) }
{
    match (kind, value.as_bool()) {
        (Scalar::Bool, Some(truth)) => Some(i64::from(truth)),
        _ => value.as_i64(),
    }
}

/// The number, held in the range of a parameter.
fn held(range: Option<Range>, number: i64) -> i64
    requires { IsRange range }
    ensures { result ≡ held range number }
{
    match range {
        Some(range) => hold(number, i64::from(range.min), i64::from(range.max)),
        None => number,
    }
}

fn scalar_of(at: At, range: Option<Range>, kind: Scalar, value: &Value) -> Result<i64, FormFail>
    requires range { IsRange range }
    requires kind { IsLawfulScalar kind }
    ensures { Answers result (scalar_of at range kind (view value.now)) }
{
    match number_of(kind, value) {
        Some(number) => Ok(held(range, convert(number, kind))),
        None => Err(at.fails(FormRule::Scalar)),
    }
}

fn push_scalars(
    at: At,
    range: Option<Range>,
    shape: &[Scalar],
    values: &[Value],
    into: &mut Scalars,
) -> Result<(), FormFail>
    requires range { IsRange range }
    requires kinds { AllByRecursion IsLawfulScalar shape.now }
    requires as_many { length values.now ≡ length shape.now }
    ensures { Adds into.old into.new result (scalars_of at range shape.now (items_view values.now)) }
{
    for (index, kind) in shape.iter().enumerate() {
        into.push(scalar_of(at, range, *kind, &values[index])?)?;
    }
    Ok(())
}

fn push_array(
    at: At,
    range: Option<Range>,
    shape: &[Scalar],
    value: &Value,
    into: &mut Scalars,
) -> Result<(), FormFail>
    requires range { IsRange range }
    requires kinds { AllByRecursion IsLawfulScalar shape.now }
    ensures { Adds into.old into.new result (array_of at range shape.now (view value.now)) }
{
    let Some(values) = value.as_array() else {
        return Err(at.fails(FormRule::Shape));
    };
    if values.len() == shape.len() {
        push_scalars(at, range, shape, values.as_slice(), into)
    } else {
        Err(at.fails(FormRule::Count))
    }
}

fn push_shaped(
    at: At,
    range: Option<Range>,
    shape: &[Scalar],
    value: &Value,
    into: &mut Scalars,
) -> Result<(), FormFail>
    requires range { IsRange range }
    requires kinds { AllByRecursion IsLawfulScalar shape.now }
    ensures { Adds into.old into.new result (shaped at range shape.now (view value.now)) }
{
    match shape {
        [kind] => {
            into.push(scalar_of(at, range, *kind, value)?)?;
            Ok(())
        }
        _ => push_array(at, range, shape, value, into),
    }
}

/// Adds the scalars of a value that is given for this input.
pub(crate) fn push_value(
    at: At,
    end: &HostEnd,
    value: &Value,
    into: &mut Scalars,
) -> Result<(), FormFail>
    requires { IsLawfulEnd end.now }
    ensures { Adds into.old into.new result (value_for at end.now (view value.now)) }
{
    push_shaped(at, end.parameter, end.shape.as_slice(), value, into)
}
