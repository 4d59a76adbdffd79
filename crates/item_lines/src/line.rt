// The line of an item.

ghost use Rattle.std.specs.Prelude.{◌≡◌, ◌++◌, length, slice_get, decimal, OnOk};
ghost use Rattle.std.specs.Fmt.{signed_decimal};
ghost use Rattle.item_lines.specs.Lines.{is_in_frame, told_of, next_scalar, next_scalars, scalars_text, value_text, named_text, output_text, outputs_text, event_text, event_line, frame_line, item_line};

use cm_base::{Flow, HostEnd, Item, Kind, Scalar};
use itoa::Buffer;
use std::alloc::AllocError;

fn push_number(line: &mut Vec<u8>, number: u32) -> Result<(), AllocError>
    ensures { OnOk result (line.new.items ≡ line.old.items ++ decimal number) }
{
    let mut digits = Buffer::new();
    line.extend_from_slice(digits.format(number).as_bytes())
}

fn push_scalar(line: &mut Vec<u8>, scalar: i64) -> Result<(), AllocError>
    ensures { OnOk result (line.new.items ≡ line.old.items ++ signed_decimal scalar) }
{
    let mut digits = Buffer::new();
    line.extend_from_slice(digits.format(scalar).as_bytes())
}

// A scalar behind others.
fn push_next(line: &mut Vec<u8>, scalar: i64) -> Result<(), AllocError>
    ensures { OnOk result (line.new.items ≡ line.old.items ++ next_scalar scalar) }
{
    line.push(b',')?;
    push_scalar(line, scalar)
}

fn push_others(line: &mut Vec<u8>, others: &[i64]) -> Result<(), AllocError>
    ensures { OnOk result (line.new.items ≡ line.old.items ++ next_scalars others.now) }
{
    for scalar in others {
        push_next(line, *scalar)?;
    }
    Ok(())
}

// Scalars joined by commas.
fn push_scalars(line: &mut Vec<u8>, value: &[i64]) -> Result<(), AllocError>
    ensures { OnOk result (line.new.items ≡ line.old.items ++ scalars_text value.now) }
{
    match value.split_first() {
        Some((first, others)) => {
            push_scalar(line, *first)?;
            push_others(line, others)
        }
        None => Ok(()),
    }
}

// The value of an endpoint of the shape.
fn push_value(line: &mut Vec<u8>, shape: &[Scalar], value: &[i64]) -> Result<(), AllocError>
    ensures { OnOk result (line.new.items ≡ line.old.items ++ value_text shape.now value.now) }
{
    if shape.len() == 1 {
        return push_scalars(line, value);
    }
    line.push(b'[')?;
    push_scalars(line, value)?;
    Ok(line.push(b']')?)
}

// A space, the endpoint's name and its value.
fn push_named(line: &mut Vec<u8>, end: &HostEnd, value: &[i64]) -> Result<(), AllocError>
    ensures { OnOk result (line.new.items ≡ line.old.items ++ named_text end.now value.now) }
{
    line.push(b' ')?;
    line.extend_from_slice(end.name.as_bytes())?;
    line.push(b'=')?;
    push_value(line, end.shape.as_slice(), value)
}

fn is_in_frame(end: &HostEnd) -> bool
    ensures { result ≡ is_in_frame end.now }
{
    match (end.flow, end.kind) {
        (Flow::Output, Kind::Stream | Kind::Value) => true,
        _ => false,
    }
}

// How many scalars of a frame are those of the endpoint.
fn told_of(end: &HostEnd) -> usize
    ensures { result ≡ told_of end.now }
{
    if is_in_frame(end) { end.shape.len() } else { 0 }
}

// What a frame with these values tells of the endpoint.
fn push_output(line: &mut Vec<u8>, end: &HostEnd, values: &[i64]) -> Result<(), AllocError>
    ensures { OnOk result (line.new.items ≡ line.old.items ++ output_text end.now values.now) }
{
    if is_in_frame(end) {
        return push_named(line, end, &values[..told_of(end).min(values.len())]);
    }
    Ok(())
}

// The outputs of a frame, each with as many of the scalars as its shape says.
fn push_outputs(line: &mut Vec<u8>, host: &[HostEnd], values: &[i64]) -> Result<(), AllocError>
    ensures { OnOk result (line.new.items ≡ line.old.items ++ outputs_text host.now values.now) }
{
    let mut rest = values;
    for end in host {
        push_output(line, end, rest)?;
        let (_told, others) = rest.split_at(told_of(end).min(rest.len()));
        rest = others;
    }
    Ok(())
}

// An endpoint that isn't there has no name and no value.
fn push_event(
    line: &mut Vec<u8>,
    host: &[HostEnd],
    endpoint: u32,
    value: &[i64],
) -> Result<(), AllocError>
    ensures { OnOk result (line.new.items ≡ line.old.items ++ event_text (slice_get host.now endpoint) value.now) }
{
    match host.get(endpoint as usize) {
        Some(end) => push_named(line, end, value),
        None => Ok(()),
    }
}

// The first words of a line.
fn push_words(line: &mut Vec<u8>, words: &[u8], frame: u32) -> Result<(), AllocError>
    ensures { OnOk result (line.new.items ≡ line.old.items ++ (words.now ++ decimal frame)) }
{
    line.extend_from_slice(words)?;
    push_number(line, frame)
}

fn push_event_line(
    line: &mut Vec<u8>,
    host: &[HostEnd],
    frame: u32,
    endpoint: u32,
    value: &[i64],
) -> Result<(), AllocError>
    ensures { OnOk result (line.new.items ≡ line.old.items ++ event_line host.now frame endpoint value.now) }
{
    push_words(line, b"event ", frame)?;
    push_event(line, host, endpoint, value)?;
    Ok(line.push(b'\n')?)
}

fn push_frame_line(
    line: &mut Vec<u8>,
    host: &[HostEnd],
    frame: u32,
    values: &[i64],
) -> Result<(), AllocError>
    ensures { OnOk result (line.new.items ≡ line.old.items ++ frame_line host.now frame values.now) }
{
    push_words(line, b"frame ", frame)?;
    push_outputs(line, host, values)?;
    Ok(line.push(b'\n')?)
}

/// Puts the line of an item behind bytes: docs/COMMANDS.md, "Lines of a run". An event of an endpoint that isn't there has no
/// name and no value. With an error the line has some of its first bytes.
pub fn push_item(line: &mut Vec<u8>, host: &[HostEnd], item: &Item) -> Result<(), AllocError>
    ensures { OnOk result (line.new.items ≡ line.old.items ++ item_line host.now item.now) }
{
    match item {
        Item::Event {
            frame,
            endpoint,
            value,
        } => push_event_line(line, host, *frame, *endpoint, value.as_slice()),
        Item::Frame { frame, values } => push_frame_line(line, host, *frame, values.as_slice()),
    }
}
