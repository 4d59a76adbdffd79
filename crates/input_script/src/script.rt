ghost use Rattle.std.specs.Prelude.{◌≡◌, IfOk};
ghost use Rattle.std.specs.List.{AllByRecursion};
ghost use Rattle.serde_json.specs.View.{view, members_view};
ghost use Rattle.cm_base.specs.HostEnds.{IsLawful, IsLawfulEnd};
ghost use Rattle.cm_base.specs.Scripts.{IsScript};
ghost use Rattle.json_value.specs.Form.{Answers};
ghost use Rattle.input_script.specs.Script.{is_member, are_members, has_members, count_of, script_over, counted, script_of, script_in};

use crate::inputs::Inputs;
use crate::settings::settings_of;
use crate::streams::streams_of;
use cm_base::limits::FRAMES;
use cm_base::{FormFail, FormPart, FormRule, HostEnds, Kind, NoMemory, Script};
use json_value::{refused, value_of};
use serde_json::{Map, Value};
use std::alloc::Global;

fn is_member(name: &str) -> bool
    ensures { result ≡ is_member name.now }
{
    name == "frames" || name == "streams" || name == "values" || name == "events"
}

fn are_members(members: &Map<String, Value>) -> bool
    ensures { result ≡ are_members (members_view members.now.entries) }
{
    for (name, _) in members {
        if !is_member(name.as_str()) {
            return false;
        }
    }
    true
}

fn has_members(value: &Value) -> bool
    ensures { result ≡ has_members (view value.now) }
{
    match value.as_object() {
        Some(members) => are_members(members),
        None => false,
    }
}

fn count_of(value: &Value) -> Option<u32>
    ensures { result ≡ count_of (view value.now) }
{
    let count = value.as_u64()?;
    if count <= u64::from(FRAMES) {
        Some(count as u32)
    } else {
        None
    }
}

fn script_over(
    alloc: Global,
    inputs: &Inputs<'_>,
    value: &Value,
    frames: u32,
) -> Result<Script, FormFail>
    requires { AllByRecursion IsLawfulEnd inputs.now }
    ensures { Answers result (script_over inputs.now (view value.now) frames) }
{
    let streams = streams_of(alloc, inputs, frames, value.get("streams"))?;
    let values = settings_of(alloc, inputs, Kind::Value, frames, value.get("values"))?;
    let events = settings_of(alloc, inputs, Kind::Event, frames, value.get("events"))?;
    Ok(Script {
        frames,
        streams,
        values,
        events,
    })
}

fn counted(alloc: Global, inputs: &Inputs<'_>, value: &Value) -> Result<Script, FormFail>
    requires { AllByRecursion IsLawfulEnd inputs.now }
    ensures { Answers result (counted inputs.now (view value.now)) }
{
    let Some(count) = value.get("frames") else {
        return Err(refused(FormRule::Shape, FormPart::Whole, 0));
    };
    match count_of(count) {
        Some(frames) => script_over(alloc, inputs, value, frames),
        None => Err(refused(FormRule::Frames, FormPart::Frames, 0)),
    }
}

fn script_of(alloc: Global, host: &HostEnds, value: &Value) -> Result<Script, FormFail>
    requires { IsLawful host.now }
    ensures { Answers result (script_of host.now (view value.now)) }
{
    if !has_members(value) {
        return Err(refused(FormRule::Shape, FormPart::Whole, 0));
    }
    match Inputs::new(alloc, host.as_slice()) {
        Ok(inputs) => counted(alloc, &inputs, value),
        Err(NoMemory) => Err(FormFail::NoMemory),
    }
}

/// Reads an input script for the endpoints of a host: the frames of the run, what the streams carry, which values are
/// set and which events are sent, converted to their kinds and held in the ranges of parameters. Streams are told by
/// the number of their endpoint among all endpoints, and are empty where none are given.
///
/// # Errors
/// `Refused` where the file isn't of its form, with the first rule that fails. `NoMemory` where memory runs out.
pub fn read_script(alloc: Global, bytes: &[u8], host: &HostEnds) -> Result<Script, FormFail>
    requires { IsLawful host.now }
    ensures script { Answers result (script_in host.now bytes.now) }
    // So the script belongs to the endpoints, and has no more frames and events than a file may have.
    ensures belongs { IfOk result (IsScript host.now) }
{
    match value_of(alloc, bytes) {
        Ok(Some(value)) => script_of(alloc, host, &value),
        Ok(None) => Err(refused(FormRule::Json, FormPart::Whole, 0)),
        Err(NoMemory) => Err(FormFail::NoMemory),
    }
}
