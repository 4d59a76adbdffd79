// What reading a script answers, in the words of rows.

ghost use Rattle.cm_base.specs.HostEnds.{IsLawful};

use crate::faults::form_fail_text;
use crate::runs::{push_numbers, sum_of};
use cm_base::{HostEnd, HostEnds, Items, Script, Setting};
use input_script::read_script;
use std::alloc::{AllocError, Global};

fn name_at(ends: &[HostEnd], number: usize) -> &str {
    match ends.get(number) {
        Some(end) => end.name.as_str(),
        None => "?",
    }
}

/// Appends the streams in which something is given.
fn push_streams(
    line: &mut String,
    streams: &[Items<i64>],
    ends: &[HostEnd],
) -> Result<(), AllocError> {
    for (number, stream) in streams.iter().enumerate() {
        if !stream.is_empty() {
            let name = name_at(ends, number);
            write!(line, "; {name}")?;
            push_numbers(line, stream.as_slice())?;
        }
    }
    Ok(())
}

/// Appends an entry, as `[0 gain 10]`.
fn push_setting(line: &mut String, setting: &Setting, ends: &[HostEnd]) -> Result<(), AllocError> {
    let name = name_at(ends, setting.endpoint as usize);
    let frame = setting.frame;
    write!(line, " [{frame} {name}")?;
    push_numbers(line, setting.value.as_slice())?;
    line.push(']')
}

/// Appends the entries of a member, if there are any.
fn push_settings(
    line: &mut String,
    member: &str,
    settings: &[Setting],
    ends: &[HostEnd],
) -> Result<(), AllocError> {
    if settings.is_empty() {
        return Ok(());
    }
    write!(line, "; {member}")?;
    for setting in settings {
        push_setting(line, setting, ends)?;
    }
    Ok(())
}

/// The frames, and how many streams there are where that is not one for each endpoint.
fn head_of(alloc: Global, script: &Script, ends: &[HostEnd]) -> Result<String, AllocError> {
    let (frames, streams) = (script.frames, script.streams.len());
    let mut line = format!(in alloc; "{frames} frames")?;
    if streams != ends.len() {
        write!(line, "; {streams} streams")?;
    }
    Ok(line)
}

fn script_text(alloc: Global, script: &Script, ends: &[HostEnd]) -> Result<String, AllocError> {
    let mut line = head_of(alloc, script, ends)?;
    push_streams(&mut line, script.streams.as_slice(), ends)?;
    push_settings(&mut line, "values", script.values.as_slice(), ends)?;
    push_settings(&mut line, "events", script.events.as_slice(), ends)?;
    Ok(line)
}

/// The script in full, as `2 frames; in 1 2; values [0 gain 10]; events [0 notes 2]`, or its refusal.
pub fn script_answer(alloc: Global, bytes: &[u8], host: &HostEnds) -> Result<String, AllocError>
    requires { IsLawful host.now }
{
    match read_script(alloc, bytes, host) {
        Ok(script) => script_text(alloc, &script, host.as_slice()),
        Err(fail) => form_fail_text(alloc, &fail),
    }
}

/// Appends for each stream in which something is given how many scalars, and their sum.
fn push_stream_sizes(
    line: &mut String,
    streams: &[Items<i64>],
    ends: &[HostEnd],
) -> Result<(), AllocError> {
    for (number, stream) in streams.iter().enumerate() {
        if !stream.is_empty() {
            let name = name_at(ends, number);
            let (count, sum) = (stream.len(), sum_of(stream.as_slice()));
            write!(line, "; {name} {count} sum {sum}")?;
        }
    }
    Ok(())
}

/// Appends how many entries a member has, and the last one.
fn push_setting_sizes(
    line: &mut String,
    member: &str,
    settings: &[Setting],
    ends: &[HostEnd],
) -> Result<(), AllocError> {
    match settings.last() {
        Some(last) => {
            let count = settings.len();
            write!(line, "; {member} {count} last")?;
            push_setting(line, last, ends)
        }
        None => Ok(()),
    }
}

fn script_sizes(alloc: Global, script: &Script, ends: &[HostEnd]) -> Result<String, AllocError> {
    let mut line = head_of(alloc, script, ends)?;
    push_stream_sizes(&mut line, script.streams.as_slice(), ends)?;
    push_setting_sizes(&mut line, "values", script.values.as_slice(), ends)?;
    push_setting_sizes(&mut line, "events", script.events.as_slice(), ends)?;
    Ok(line)
}

/// The script in brief, as `2 frames; in 2 sum 3; values 1 last [0 gain 10]`, or its refusal.
pub fn script_sizes_answer(
    alloc: Global,
    bytes: &[u8],
    host: &HostEnds,
) -> Result<String, AllocError>
    requires { IsLawful host.now }
{
    match read_script(alloc, bytes, host) {
        Ok(script) => script_sizes(alloc, &script, host.as_slice()),
        Err(fail) => form_fail_text(alloc, &fail),
    }
}
