// What a host writes into the slots of the inputs before a call: docs/MODULE.md, "How a run goes".

ghost use Rattle.std.specs.Prelude.{ℕ, ◌≡◌, ◌<◌, ◌≤◌, ◌^◌, ◌+◌, ◌*◌, ◌++◌, [], length, take, map, replicate, slice_get, slice_index_or, pos};
ghost use Rattle.std.specs.Option.{IfSome};
ghost use Rattle.std.specs.Bool.{OnTrue};
ghost use Rattle.cm_base.specs.Parts.{given_at, input_of, inputs_at, is_stream_input as takes_stream};
ghost use Rattle.cm_base.specs.Scripts.{HasShape};
ghost use Rattle.cm_base.specs.Tasks.{AreInputs};
ghost use Rattle.wasm_tree.specs.Section.{Slot, block_length};
ghost use Rattle.wasm_tree.specs.Slots.{is_value_input as takes_value, write_streams as with_streams, write_values as with_values, write_inputs as with_inputs, write_block as with_block};
ghost use Rattle.module_player.specs.Given.{inputs_from};
ghost use Rattle.wasm_runner.specs.Running.{running};
ghost use Rattle.module_player.specs.Rooms.{HaveRooms};
ghost use Rattle.module_player.specs.Writing.{ends_in, stream_written, value_written, input_written, AreValues};

use cm_base::{Flow, HostEnd, Kind, Scalars};
use wasm_runner::Runner;
use wasm_valid::Slots;

fn is_stream_input(end: &HostEnd) -> bool
    ensures { result ≡ takes_stream end.now }
{
    matches!((end.flow, end.kind), (Flow::Input, Kind::Stream))
}

fn is_value_input(end: &HostEnd) -> bool
    ensures { result ≡ takes_value end.now }
{
    matches!((end.flow, end.kind), (Flow::Input, Kind::Value))
}

// The scalar at this place, and 0 past the end.
fn scalar_at(given: &[i64], at: usize) -> i64
    ensures { result ≡ slice_index_or given.now at (pos 0) }
{
    match given.get(at) {
        Some(scalar) => *scalar,
        None => 0,
    }
}

/// Takes as many scalars as there is room for, 0 where none are given.
pub fn take_first(given: &[i64], into: &mut Scalars)
    ensures { into.new ≡ take (length into.old) (given.now ++ replicate (length into.old) (pos 0)) }
{
    for i in 0..into.len() {
        into.set(i, scalar_at(given, i));
    }
}

// Takes what a stream carries at a frame, which has as many scalars as there is room for.
fn take_frame(given: &[i64], frame: u32, into: &mut Scalars)
    ensures { into.new ≡ given_at (frame * length into.old) (length into.old) given.now }
{
    let first = (frame as usize).saturating_mul(into.len());
    take_first(&given[first.min(given.len())..], into);
}

// What is given of the stream of this number.
fn given_of(streams: &[Scalars], number: usize) -> &[i64]
    ensures { result.now ≡ slice_index_or streams.now number [] }
{
    match streams.get(number) {
        Some(given) => given.as_slice(),
        None => &[],
    }
}

// Writes what a stream carries at a frame to an entry of the endpoint of this number, if it is a stream input.
fn write_stream(
    runner: &mut Runner,
    slots: &Slots,
    end: u32,
    entry: u32,
    given: &[i64],
    frame: u32,
    room: &mut Scalars,
)
    requires same { slots.now ≡ runner.old.of.section.slots }
    requires there { end < length slots.now }
    requires entry { entry < block_length runner.old.of.section.interface }
    requires long { IfSome (slice_get slots.now end) (λ slot. length room.old ≡ length slot.end.shape) }
    requires shaped { IfSome (slice_get slots.now end) (λ slot. OnTrue (takes_stream slot.end) (HasShape slot.end.shape (input_of slot.end given.now frame))) }
    ensures written { IfSome (slice_get slots.now end) (λ slot. runner.new.memory ≡ stream_written slot entry (input_of slot.end given.now frame) runner.old.memory) }
    ensures same { runner.new ≡ running runner.old.of runner.old.globals runner.new.memory runner.old.live }
    ensures long { length room.new ≡ length room.old }
{
    if !is_stream_input(&slots.host().as_slice()[end as usize]) {
        return;
    }
    take_frame(given, frame, room);
    runner.write_slot(end, entry, room);
}

// Writes the current value of the endpoint of this number, if it is a value input.
fn write_value(runner: &mut Runner, slots: &Slots, end: u32, value: &Scalars)
    requires same { slots.now ≡ runner.old.of.section.slots }
    requires there { end < length slots.now }
    requires shaped { IfSome (slice_get slots.now end) (λ slot. HasShape slot.end.shape value.now) }
    ensures written { IfSome (slice_get slots.now end) (λ slot. runner.new.memory ≡ value_written slot value.now runner.old.memory) }
    ensures same { runner.new ≡ running runner.old.of runner.old.globals runner.new.memory runner.old.live }
{
    if is_value_input(&slots.host().as_slice()[end as usize]) {
        runner.write_slot(end, 0, value);
    }
}

// Writes the endpoint of this number, if it is a stream input or a value input.
fn write_input(
    runner: &mut Runner,
    slots: &Slots,
    end: u32,
    given: &[i64],
    frame: u32,
    value: &Scalars,
    room: &mut Scalars,
)
    requires same { slots.now ≡ runner.old.of.section.slots }
    requires there { end < length slots.now }
    requires block { 0 < block_length runner.old.of.section.interface }
    requires long { IfSome (slice_get slots.now end) (λ slot. length room.old ≡ length slot.end.shape) }
    requires shaped { IfSome (slice_get slots.now end) (λ slot. OnTrue (takes_stream slot.end) (HasShape slot.end.shape (input_of slot.end given.now frame))) }
    requires value { IfSome (slice_get slots.now end) (λ slot. HasShape slot.end.shape value.now) }
    ensures written { IfSome (slice_get slots.now end) (λ slot. runner.new.memory ≡ input_written slot (input_of slot.end given.now frame) value.now runner.old.memory) }
    ensures same { runner.new ≡ running runner.old.of runner.old.globals runner.new.memory runner.old.live }
    ensures long { length room.new ≡ length room.old }
{
    if is_stream_input(&slots.host().as_slice()[end as usize]) {
        write_stream(runner, slots, end, 0, given, frame, room);
        return;
    }
    write_value(runner, slots, end, value);
}

/// Writes what the streams carry at a frame to this entry of the stream inputs. It takes no memory.
pub fn write_streams(
    runner: &mut Runner,
    slots: &Slots,
    entry: u32,
    streams: &[Scalars],
    frame: u32,
    room: &mut [Scalars],
)
    requires same { slots.now ≡ runner.old.of.section.slots }
    requires entry { entry < block_length runner.old.of.section.interface }
    requires long { HaveRooms slots.now room.old }
    requires inputs { AreInputs (ends_in slots.now) (inputs_at (ends_in slots.now) streams.now frame) }
    ensures written { runner.new.memory ≡ with_streams slots.now entry (inputs_at (ends_in slots.now) streams.now frame) runner.old.memory }
    ensures same { runner.new ≡ running runner.old.of runner.old.globals runner.new.memory runner.old.live }
    ensures long { HaveRooms slots.now room.new }
{
    let count = slots.host().len();
    for i in 0..count {
        write_stream(
            runner,
            slots,
            i as u32,
            entry,
            given_of(streams, i),
            frame,
            &mut room[i],
        );
    }
}

/// Writes the current values to the value inputs. It takes no memory.
pub fn write_values(runner: &mut Runner, slots: &Slots, current: &[Scalars])
    requires same { slots.now ≡ runner.old.of.section.slots }
    requires current { AreValues slots.now current.now }
    ensures written { runner.new.memory ≡ with_values slots.now current.now runner.old.memory }
    ensures same { runner.new ≡ running runner.old.of runner.old.globals runner.new.memory runner.old.live }
{
    let count = slots.host().len();
    for i in 0..count {
        write_value(runner, slots, i as u32, &current[i]);
    }
}

/// Writes what the streams carry at a frame to the first entry of the stream inputs, and the current values to the value
/// inputs, in the order of the endpoints. It takes no memory.
pub fn write_inputs(
    runner: &mut Runner,
    slots: &Slots,
    streams: &[Scalars],
    frame: u32,
    current: &[Scalars],
    room: &mut [Scalars],
)
    requires same { slots.now ≡ runner.old.of.section.slots }
    requires block { 0 < block_length runner.old.of.section.interface }
    requires long { HaveRooms slots.now room.old }
    requires inputs { AreInputs (ends_in slots.now) (inputs_at (ends_in slots.now) streams.now frame) }
    requires current { AreValues slots.now current.now }
    ensures written { runner.new.memory ≡ with_inputs slots.now (inputs_at (ends_in slots.now) streams.now frame) current.now runner.old.memory }
    ensures same { runner.new ≡ running runner.old.of runner.old.globals runner.new.memory runner.old.live }
    ensures long { HaveRooms slots.now room.new }
{
    let count = slots.host().len();
    for i in 0..count {
        write_input(
            runner,
            slots,
            i as u32,
            given_of(streams, i),
            frame,
            &current[i],
            &mut room[i],
        );
    }
}

/// Writes what the streams carry in `count` frames from one on to the entries of the stream inputs, the first to the first
/// entry, and then the current values to the value inputs. It takes no memory.
pub fn write_block(
    runner: &mut Runner,
    slots: &Slots,
    streams: &[Scalars],
    frame: u32,
    count: u32,
    current: &[Scalars],
    room: &mut [Scalars],
)
    requires same { slots.now ≡ runner.old.of.section.slots }
    requires entries { count ≤ block_length runner.old.of.section.interface }
    requires frames { frame + count < 2 ^ 32 }
    requires long { HaveRooms slots.now room.old }
    requires inputs { (at : ℕ) → AreInputs (ends_in slots.now) (inputs_at (ends_in slots.now) streams.now at) }
    requires current { AreValues slots.now current.now }
    ensures written { runner.new.memory ≡ with_values slots.now current.now (with_block slots.now 0 (inputs_from (ends_in slots.now) streams.now frame count) runner.old.memory) }
    ensures same { runner.new ≡ running runner.old.of runner.old.globals runner.new.memory runner.old.live }
    ensures long { HaveRooms slots.now room.new }
{
    for entry in 0..count {
        write_streams(runner, slots, entry, streams, frame + entry, room);
    }
    write_values(runner, slots, current);
}
