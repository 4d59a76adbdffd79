ghost use Rattle.std.specs.Prelude.{◌≡◌, ◌≤◌, option_map};
ghost use Rattle.std.specs.List.{AllByRecursion};
ghost use Rattle.serde_json.specs.View.{view, items_view};
ghost use Rattle.cm_base.specs.HostEnds.{IsLawfulEnd};
ghost use Rattle.json_value.specs.Form.{Answers};
ghost use Rattle.input_script.specs.Script.{part_of, entry_of, frame_of, setting_of, is_past, first_index, settings_from, settings_of};

use crate::at::At;
use crate::inputs::Inputs;
use crate::values::push_value;
use cm_base::limits::EVENTS;
use cm_base::{FormFail, FormPart, FormRule, Kind, Scalars, Setting, Settings};
use json_value::refused;
use serde_json::Value;
use std::alloc::Global;

const MOST_EVENTS: usize = EVENTS as usize;

/// The three parts of an entry of `values` or `events`.
#[derive(Clone, Copy)]
struct Entry<'a> {
    frame: &'a Value,
    name: &'a Value,
    value: &'a Value,
}

fn part_of(kind: Kind) -> FormPart
    ensures { result ≡ part_of kind }
{
    match kind {
        Kind::Stream => FormPart::Streams,
        Kind::Value => FormPart::Values,
        Kind::Event => FormPart::Events,
    }
}

fn entry_of(value: &Value) -> Option<Entry<'_>>
    ensures { option_map (λ e. record { frame = view e.frame.now; name = view e.name.now; value = view e.value.now }) result ≡ entry_of (view value.now) }
{
    match value.as_array()?.as_slice() {
        [frame, name, value] => Some(Entry { frame, name, value }),
        _ => None,
    }
}

fn frame_of(first: u32, end: u32, value: &Value) -> Option<u32>
    ensures { result ≡ frame_of first end (view value.now) }
{
    let frame = value.as_u64()?;
    if u64::from(first) <= frame && frame < u64::from(end) {
        Some(frame as u32)
    } else {
        None
    }
}

fn setting_of(
    alloc: Global,
    inputs: &Inputs<'_>,
    kind: Kind,
    frames: u32,
    at: At,
    first: u32,
    value: &Value,
) -> Result<Setting, FormFail>
    requires { AllByRecursion IsLawfulEnd inputs.now }
    ensures { Answers result (setting_of kind inputs.now frames at first (view value.now)) }
{
    let Some(entry) = entry_of(value) else {
        return Err(at.fails(FormRule::Shape));
    };
    let Some(name) = entry.name.as_str() else {
        return Err(at.fails(FormRule::Shape));
    };
    let Some(input) = inputs.named(kind, name) else {
        return Err(at.fails(FormRule::Endpoint));
    };
    let Some(frame) = frame_of(first, frames, entry.frame) else {
        return Err(at.fails(FormRule::Frame));
    };
    let mut value = Scalars::new(alloc);
    push_value(at, input.end, entry.value, &mut value)?;
    Ok(Setting {
        frame,
        endpoint: input.number,
        value,
    })
}

fn is_past(kind: Kind, before: usize) -> bool
    ensures { result ≡ is_past kind before }
{
    match kind {
        Kind::Event => before >= MOST_EVENTS,
        Kind::Stream | Kind::Value => false,
    }
}

/// The index of the first entry for the frame `now`, where the entries before it end with `frame`, whose first one is
/// at `first`.
fn first_index(index: usize, frame: u32, first: usize, now: u32) -> usize
    requires { first ≤ index }
    ensures value { result ≡ first_index index frame first now }
    ensures not_after { result ≤ index }
{
    if now == frame { first } else { index }
}

fn settings_from(
    alloc: Global,
    inputs: &Inputs<'_>,
    kind: Kind,
    frames: u32,
    values: &[Value],
) -> Result<Settings, FormFail>
    requires { AllByRecursion IsLawfulEnd inputs.now }
    ensures { Answers result (settings_from kind inputs.now frames 0 0 0 (items_view values.now)) }
{
    let mut settings = Settings::from_vec(Vec::with_capacity(alloc, values.len())?);
    let mut frame = 0;
    let mut first = 0;
    for (index, value) in values.iter().enumerate() {
        let at = At::entry(part_of(kind), index);
        let setting = setting_of(alloc, inputs, kind, frames, at, frame, value)?;
        first = first_index(index, frame, first, setting.frame);
        frame = setting.frame;
        if is_past(kind, index - first) {
            return Err(at.fails(FormRule::EventLimit));
        }
        settings.push(setting)?;
    }
    Ok(settings)
}

/// What is set or sent, by the member `values` or `events`.
pub(crate) fn settings_of(
    alloc: Global,
    inputs: &Inputs<'_>,
    kind: Kind,
    frames: u32,
    value: Option<&Value>,
) -> Result<Settings, FormFail>
    requires { AllByRecursion IsLawfulEnd inputs.now }
    ensures { Answers result (settings_of kind inputs.now frames (option_map (λ v. view v.now) value.entry)) }
{
    let Some(value) = value else {
        return Ok(Settings::new(alloc));
    };
    match value.as_array() {
        Some(values) => settings_from(alloc, inputs, kind, frames, values.as_slice()),
        None => Err(refused(FormRule::Shape, part_of(kind), 0)),
    }
}
