ghost use Rattle.std.specs.Prelude.{◌≡◌, ◌<◌, [], length, replicate, Ok, IfOk, option_map};
ghost use Rattle.std.specs.List.{AllByRecursion};
ghost use Rattle.serde_json.specs.View.{view, items_view, members_view};
ghost use Rattle.cm_base.specs.HostEnds.{IsLawfulEnd};
ghost use Rattle.json_value.specs.Form.{Answers};
ghost use Rattle.input_script.specs.Script.{frames_of, stream_of, given_by, given_from, streams_of, Adds, Places};

use crate::at::At;
use crate::inputs::Inputs;
use crate::values::push_value;
use cm_base::{FormFail, FormPart, FormRule, HostEnd, Kind, NoMemory, Scalars, Streams};
use json_value::refused;
use serde_json::{Map, Value};
use std::alloc::Global;

/// What is given for the stream input of this number.
#[derive(Debug, Drop)]
pub(crate) struct Given {
    number: u32,
    scalars: Scalars,
}

fn push_frames(at: At, end: &HostEnd, values: &[Value], into: &mut Scalars) -> Result<(), FormFail>
    requires { IsLawfulEnd end.now }
    ensures { Adds into.old into.new result (frames_of at end.now (items_view values.now)) }
{
    for value in values {
        push_value(at, end, value, into)?;
    }
    Ok(())
}

fn frames_of(alloc: Global, at: At, end: &HostEnd, values: &[Value]) -> Result<Scalars, FormFail>
    requires { IsLawfulEnd end.now }
    ensures { Answers result (frames_of at end.now (items_view values.now)) }
{
    // Most values are one scalar.
    let mut scalars = Scalars::from_vec(Vec::with_capacity(alloc, values.len())?);
    push_frames(at, end, values, &mut scalars)?;
    Ok(scalars)
}

fn stream_of(
    alloc: Global,
    at: At,
    frames: u32,
    end: &HostEnd,
    value: &Value,
) -> Result<Scalars, FormFail>
    requires { IsLawfulEnd end.now }
    ensures { Answers result (stream_of at frames end.now (view value.now)) }
{
    let Some(values) = value.as_array() else {
        return Err(at.fails(FormRule::Shape));
    };
    if values.len() <= frames as usize {
        frames_of(alloc, at, end, values.as_slice())
    } else {
        Err(at.fails(FormRule::Count))
    }
}

fn given_by(
    alloc: Global,
    inputs: &Inputs<'_>,
    frames: u32,
    index: usize,
    name: &str,
    value: &Value,
) -> Result<Given, FormFail>
    requires { AllByRecursion IsLawfulEnd inputs.now }
    ensures given { Answers result (given_by inputs.now frames index name.now (view value.now)) }
    ensures within { IfOk result (λ given. given.number < length inputs.now) }
{
    let at = At::entry(FormPart::Streams, index);
    let Some(input) = inputs.named(Kind::Stream, name) else {
        return Err(at.fails(FormRule::Endpoint));
    };
    let scalars = stream_of(alloc, at, frames, input.end, value)?;
    Ok(Given {
        number: input.number,
        scalars,
    })
}

fn place_streams(
    alloc: Global,
    inputs: &Inputs<'_>,
    frames: u32,
    members: &Map<String, Value>,
    streams: &mut Streams,
) -> Result<(), FormFail>
    requires lawful { AllByRecursion IsLawfulEnd inputs.now }
    requires as_many { length streams.old ≡ length inputs.now }
    ensures { Places streams.old streams.new result (given_from inputs.now frames 0 (members_view members.now.entries)) }
{
    let mut index = 0;
    for (name, value) in members {
        let given = given_by(alloc, inputs, frames, index, name.as_str(), value)?;
        streams.set(given.number as usize, given.scalars);
        index += 1;
    }
    Ok(())
}

/// Streams of this many endpoints, of which none are given.
fn no_streams(alloc: Global, count: usize) -> Result<Streams, NoMemory>
    ensures { IfOk result (λ streams. streams ≡ replicate count []) }
{
    let mut streams = Streams::from_vec(Vec::with_capacity(alloc, count)?);
    for _ in 0..count {
        streams.push(Scalars::new(alloc))?;
    }
    Ok(streams)
}

/// The streams of all endpoints, by the member `streams`.
pub(crate) fn streams_of(
    alloc: Global,
    inputs: &Inputs<'_>,
    frames: u32,
    value: Option<&Value>,
) -> Result<Streams, FormFail>
    requires { AllByRecursion IsLawfulEnd inputs.now }
    ensures { Answers result (streams_of inputs.now frames (option_map (λ v. view v.now) value.entry)) }
{
    let mut streams = match no_streams(alloc, inputs.len()) {
        Ok(streams) => streams,
        Err(NoMemory) => return Err(FormFail::NoMemory),
    };
    let Some(value) = value else {
        return Ok(streams);
    };
    let Some(members) = value.as_object() else {
        return Err(refused(FormRule::Shape, FormPart::Streams, 0));
    };
    place_streams(alloc, inputs, frames, members, &mut streams)?;
    Ok(streams)
}
