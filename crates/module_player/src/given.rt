// What a host gives to a module, and keeps for it.

ghost use Rattle.std.specs.Prelude.{ℕ, ◌≡◌, ◌<◌, ◌≤◌, ◌+◌, ◌^◌, ◌∷◌, ◌&&◌, [], length, map, replicate, slice_set, slice_get, pos, if◌then◌else◌, IfOk};
ghost use Rattle.std.specs.Option.{IfSome};
ghost use Rattle.cm_base.specs.declared.host.Kind.TheVariants as kinds;
ghost use Rattle.cm_base.specs.Parts.{inputs_at, is_input, is_event};
ghost use Rattle.cm_base.specs.Scripts.{HasShape};
ghost use Rattle.cm_base.specs.Tasks.{AreInputs, IsTaken};
ghost use Rattle.wasm_tree.specs.HostRun.{zeros_of};
ghost use Rattle.wasm_tree.specs.Section.{block_length};
ghost use Rattle.wasm_tree.specs.Stopped.{kept_current, restored_current};
ghost use Rattle.wasm_tree.specs.Slots.{is_value_input as takes_value, event_number as number_of_event, write_inputs as with_inputs, write_values as with_values, write_block as with_block, write_event as with_event};
ghost use Rattle.wasm_runner.specs.Running.{running};
ghost use Rattle.wasm_runner.specs.Snapshots.{kept_kinds};
ghost use Rattle.module_player.specs.Given.{given_by, numbers_from, inputs_from};
ghost use Rattle.module_player.specs.Rooms.{AreRooms};
ghost use Rattle.module_player.specs.Writing.{ends_in};

use crate::inputs::{take_first, write_block, write_inputs};
use cm_base::{Flow, HostEnd, Kind, NoMemory, Scalars};
use std::alloc::Global;
use std::marker::Model;
use wasm_runner::Runner;
use wasm_valid::Slots;

/// The slots of a module and the current values of its value inputs, with room for what a host writes, so that no write
/// takes memory. Contracts see it as the slots and the current values.
#[derive(Drop)]
pub struct InputState {
    slots: Slots,
    current: Vec<Scalars>,
    rooms: Vec<Scalars>,
    numbers: Vec<u32>,
}

impl Model for InputState {
    ghost use Rattle.module_player.specs.Given.{Given, AreGiven, given_by};

    ghost Value = { Given };

    ghost view = { λ s. given_by s.slots s.current.items };

    ghost invariant = { λ s. AreGiven s.slots s.current.items s.rooms.items s.numbers.items };
}

// Zeros for each endpoint.
fn zeros(alloc: Global, ends: &[HostEnd]) -> Result<Vec<Scalars>, NoMemory>
    ensures { IfOk result (λ all. all.items ≡ zeros_of ends.now) }
{
    let mut all = Vec::new(alloc);
    for end in ends {
        all.push(Scalars::from_vec(vec![in alloc; 0; end.shape.len()]?))?;
    }
    Ok(all)
}

fn is_value_input(end: &HostEnd) -> bool
    ensures { result ≡ takes_value end.now }
{
    matches!((end.flow, end.kind), (Flow::Input, Kind::Value))
}

// How many scalars a snapshot has of the endpoint.
fn kept_count(end: &HostEnd) -> usize
    ensures { result ≡ (if takes_value end.now then length end.now.shape else 0) }
{
    if is_value_input(end) {
        end.shape.len()
    } else {
        0
    }
}

// What an endpoint is resumed with, of which a snapshot has these scalars.
fn restored_value(alloc: Global, end: &HostEnd, kept: &[i64]) -> Result<Scalars, NoMemory>
    ensures { IfOk result (λ value. value ≡ (if takes_value end.now then kept.now else replicate (length end.now.shape) (pos 0))) }
{
    if is_value_input(end) {
        return Ok(Scalars::from_slice(alloc, kept)?);
    }
    Ok(Scalars::from_vec(vec![in alloc; 0; end.shape.len()]?))
}

// What the endpoints are resumed with, of which a snapshot has these scalars.
fn restored(alloc: Global, ends: &[HostEnd], kept: &[i64]) -> Result<Vec<Scalars>, NoMemory>
    ensures { IfOk result (λ all. all.items ≡ restored_current ends.now kept.now) }
{
    let mut all = Vec::new(alloc);
    let mut rest = kept;
    for end in ends {
        let (front, back) = rest.split_at(kept_count(end).min(rest.len()));
        all.push(restored_value(alloc, end, front)?)?;
        rest = back;
    }
    Ok(all)
}

// What a snapshot keeps of an endpoint with this current value.
fn kept_value<'a>(end: &HostEnd, value: &'a [i64]) -> &'a [i64]
    ensures { result.now ≡ (if takes_value end.now then value.now else []) }
{
    if is_value_input(end) { value } else { &[] }
}

// What a snapshot keeps of endpoints with these current values.
fn kept(alloc: Global, ends: &[HostEnd], current: &[Scalars]) -> Result<Scalars, NoMemory>
    requires { length current.now ≡ length ends.now }
    ensures { IfOk result (λ all. all ≡ kept_current ends.now current.now) }
{
    let mut all = Vec::new(alloc);
    for number in 0..ends.len() {
        all.extend_from_slice(kept_value(&ends[number], current[number].as_slice()))?;
    }
    Ok(Scalars::from_vec(all))
}

fn is_event_input(end: &HostEnd) -> bool
    ensures { result ≡ (is_input end.now.flow && is_event end.now.kind) }
{
    matches!((end.flow, end.kind), (Flow::Input, Kind::Event))
}

// How many event inputs stand before each endpoint.
fn numbers(alloc: Global, slots: &Slots) -> Result<Vec<u32>, NoMemory>
    ensures { IfOk result (λ all. all.items ≡ numbers_from 0 slots.now) }
{
    let mut all = Vec::new(alloc);
    let mut number = 0u32;
    for end in slots.host().as_slice() {
        all.push(number)?;
        if is_event_input(end) {
            number += 1;
        }
    }
    Ok(all)
}

impl InputState {
    /// What a host begins with: each current value is zero.
    pub fn new(alloc: Global, slots: Slots) -> Result<InputState, NoMemory>
        ensures { IfOk result (λ state. state ≡ given_by slots (zeros_of (ends_in slots))) }
    {
        let current = zeros(alloc, slots.host().as_slice())?;
        let rooms = zeros(alloc, slots.host().as_slice())?;
        let numbers = numbers(alloc, &slots)?;
        Ok(InputState {
            slots,
            current,
            rooms,
            numbers,
        })
    }

    /// What a host resumes with: the value inputs take the scalars of a snapshot, and the other values are zero.
    pub fn resume(alloc: Global, slots: Slots, kept: &[i64]) -> Result<InputState, NoMemory>
        requires { HasShape (kept_kinds (ends_in slots)) kept.now }
        ensures { IfOk result (λ state. state ≡ given_by slots (restored_current (ends_in slots) kept.now)) }
    {
        let current = restored(alloc, slots.host().as_slice(), kept)?;
        let rooms = zeros(alloc, slots.host().as_slice())?;
        let numbers = numbers(alloc, &slots)?;
        Ok(InputState {
            slots,
            current,
            rooms,
            numbers,
        })
    }

    /// The current values of the value inputs, one after another, as a snapshot has them.
    pub fn kept(&self, alloc: Global) -> Result<Scalars, NoMemory>
        ensures { IfOk result (λ kept. kept ≡ kept_current (ends_in self.now.slots) self.now.current) }
    {
        kept(alloc, self.slots.host().as_slice(), &self.current)
    }

    /// The slots, in declaration order. It takes no memory.
    pub fn slots(&self) -> &Slots
        ensures { result.now ≡ self.now.slots }
    {
        &self.slots
    }

    /// Sets the current value of a value input. It takes no memory.
    pub fn set(&mut self, end: u32, value: &[i64])
        requires { IsTaken kinds.Value (ends_in self.old.slots) end value.now }
        ensures { self.new ≡ given_by self.old.slots (slice_set self.old.current end value.now) }
    {
        take_first(value, &mut self.current[end as usize]);
    }

    /// Writes what the streams carry at a frame to the first entry of the stream inputs, and the current values to the value
    /// inputs. It takes no memory.
    pub fn write_frame(&mut self, runner: &mut Runner, streams: &[Scalars], frame: u32)
        requires same { self.old.slots ≡ runner.old.of.section.slots }
        requires block { 0 < block_length runner.old.of.section.interface }
        requires inputs { AreInputs (ends_in self.old.slots) (inputs_at (ends_in self.old.slots) streams.now frame) }
        ensures written { runner.new.memory ≡ with_inputs self.old.slots (inputs_at (ends_in self.old.slots) streams.now frame) self.old.current runner.old.memory }
        ensures runner { runner.new ≡ running runner.old.of runner.old.globals runner.new.memory runner.old.live }
        ensures same { self.new ≡ self.old }
    {
        write_inputs(
            runner,
            &self.slots,
            streams,
            frame,
            &self.current,
            &mut self.rooms,
        );
    }

    /// Writes what the streams carry in `count` frames from one on to the entries of the stream inputs, and the current values
    /// to the value inputs. It takes no memory.
    pub fn write_block(&mut self, runner: &mut Runner, streams: &[Scalars], frame: u32, count: u32)
        requires same { self.old.slots ≡ runner.old.of.section.slots }
        requires frames { frame + count < 2 ^ 32 }
        requires block { count ≤ block_length runner.old.of.section.interface }
        requires inputs { (at : ℕ) → AreInputs (ends_in self.old.slots) (inputs_at (ends_in self.old.slots) streams.now at) }
        ensures written { runner.new.memory ≡ with_values self.old.slots self.old.current (with_block self.old.slots 0 (inputs_from (ends_in self.old.slots) streams.now frame count) runner.old.memory) }
        ensures runner { runner.new ≡ running runner.old.of runner.old.globals runner.new.memory runner.old.live }
        ensures same { self.new ≡ self.old }
    {
        write_block(
            runner,
            &self.slots,
            streams,
            frame,
            count,
            &self.current,
            &mut self.rooms,
        );
    }

    /// Writes an event of one scalar. It takes no memory.
    pub fn write_scalar(&mut self, runner: &mut Runner, end: u32, value: i64)
        requires same { self.old.slots ≡ runner.old.of.section.slots }
        requires taken { IsTaken kinds.Event (ends_in self.old.slots) end (value ∷ []) }
        ensures written { runner.new.memory ≡ with_event self.old.slots end (value ∷ []) runner.old.memory }
        ensures runner { runner.new ≡ running runner.old.of runner.old.globals runner.new.memory runner.old.live }
        ensures same { self.new ≡ self.old }
    {
        let room = &mut self.rooms[end as usize];
        room.set(0, value);
        runner.write_slot(end, 0, room);
    }

    /// How many event inputs stand before the endpoint. It takes no memory.
    pub fn event_number(&self, end: u32) -> u32
        requires { end < length self.now.slots }
        ensures { result ≡ number_of_event self.now.slots end }
    {
        self.numbers[end as usize]
    }
}
