// What a host reads of a module.

ghost use Rattle.std.specs.Prelude.{◌≡◌, ◌<◌, ◌≤◌, ◌+◌, ◌^◌, ◌++◌, [], length, take, slice_get, slice_set, sum_by, Some, IfOk, true};
ghost use Rattle.std.specs.Option.{is_some, IfSome};
ghost use Rattle.std.specs.List.{AllByRecursion};
ghost use Rattle.cm_base.specs.declared.play.Item.TheVariants as item;
ghost use Rattle.wasm_tree.specs.Section.{Slot};
ghost use Rattle.wasm_tree.specs.Slots.{event_slot, is_event_output, is_told, read_slot, outputs_at};
ghost use Rattle.wasm_runner.specs.Entries.{IsShaped};
ghost use Rattle.module_player.specs.Rooms.{HaveRooms, AreRooms, frame_size, output_size, output_at, read_entry_of, told_value};

use crate::teller::Teller;
use cm_base::{Flow, HostEnd, Item, Kind, NoMemory, Scalars};
use slot_codec::read_entry;
use std::alloc::Global;
use std::marker::Model;
use std::mem::replace;
use wasm_valid::Slots;

/// The endpoints of a module with their slots, and room for an event of each endpoint and for a frame, so that no item takes
/// memory. Contracts see it as the list of the slots.
#[derive(Drop)]
pub struct Outputs {
    alloc: Global,
    slots: Slots,
    rooms: Vec<Scalars>,
    frame: Scalars,
}

impl Model for Outputs {
    ghost use Rattle.std.specs.Prelude.{List};
    ghost use Rattle.wasm_tree.specs.Section.{Slot};
    ghost use Rattle.module_player.specs.Rooms.{IsRoomy};

    ghost Value = { List Slot };

    ghost view = { λ o. o.slots };

    ghost invariant = { λ o. IsRoomy o.slots o.rooms.items o.frame };
}

// What an item holds.
fn value_of(item: Item) -> Scalars
    ensures { result ≡ told_value item }
{
    match item {
        Item::Event {
            frame: _,
            endpoint: _,
            value,
        } => value,
        Item::Frame { frame: _, values } => values,
    }
}

// Whether it is an output event endpoint.
fn sends(end: &HostEnd) -> bool
    ensures { result ≡ is_event_output end.now }
{
    match end.flow {
        Flow::Input => false,
        Flow::Output => matches!(end.kind, Kind::Event),
    }
}

// Whether a frame has its scalars: it is a stream or value output.
fn tells(end: &HostEnd) -> bool
    ensures { result ≡ is_told end.now }
{
    match end.flow {
        Flow::Input => false,
        Flow::Output => !matches!(end.kind, Kind::Event),
    }
}

// The entry from which an output is read: a stream has one for each frame of a block.
fn entry_of(end: &HostEnd, entry: u32) -> u32
    ensures { result ≡ read_entry_of end.now entry }
{
    match end.kind {
        Kind::Stream => entry,
        Kind::Value => 0,
        Kind::Event => 0,
    }
}

// Takes the room of an endpoint, and leaves one without scalars.
fn take_room(alloc: Global, rooms: &mut Vec<Scalars>, at: usize) -> Scalars
    requires { at < length rooms.old.items }
    ensures room { slice_get rooms.old.items at ≡ Some result }
    ensures others { rooms.new.items ≡ slice_set rooms.old.items at [] }
{
    replace(&mut rooms[at], Scalars::new(alloc))
}

// Puts a room back.
fn put_room(rooms: &mut Vec<Scalars>, at: usize, room: Scalars)
    requires { at < length rooms.old.items }
    ensures { rooms.new.items ≡ slice_set rooms.old.items at room }
{
    rooms[at] = room;
}

// Copies numbers into others, from a place on, and says where they end.
fn copy_into(from: &[i64], into: &mut Scalars, place: usize) -> usize
    requires { place + length from.now ≤ length into.old }
    ensures copied { take (place + length from.now) into.new ≡ take place into.old ++ from.now }
    ensures next { result ≡ place + length from.now }
    ensures long { length into.new ≡ length into.old }
{
    // A length is a `usize`, so no place exceeds one.
    let _long = into.len();
    for (i, number) in from.iter().enumerate() {
        into.set(place + i, *number);
    }
    place + from.len()
}

// Reads an endpoint into its room and into the frame, from a place on, if a frame has it, and says where the next one begins.
fn read_output(
    end: &HostEnd,
    address: u32,
    entry: u32,
    memory: &[u8],
    room: &mut Scalars,
    into: &mut Scalars,
    place: usize,
) -> usize
    requires shaped { IsShaped (record { end = end.now; address = address }) }
    requires room { length room.old ≡ length end.now.shape }
    requires place { place + output_size end.now ≤ length into.old }
    ensures read { take result into.new ≡ take place into.old ++ output_at (record { end = end.now; address = address }) entry memory.now }
    ensures next { result ≡ place + output_size end.now }
    ensures room { length room.new ≡ length room.old }
    ensures long { length into.new ≡ length into.old }
{
    if !tells(end) {
        return place;
    }
    read_entry(end, address, entry_of(end, entry), memory, room);
    copy_into(room.as_slice(), into, place)
}

// The same of the endpoint of this number, in its own room.
fn read_at(
    alloc: Global,
    slots: &Slots,
    rooms: &mut Vec<Scalars>,
    at: usize,
    entry: u32,
    memory: &[u8],
    into: &mut Scalars,
    place: usize,
) -> usize
    requires there { at < length slots.now }
    requires shaped { AllByRecursion IsShaped slots.now }
    requires rooms { HaveRooms slots.now rooms.old.items }
    requires place { IfSome (slice_get slots.now at) (λ slot. place + output_size slot.end ≤ length into.old) }
    ensures read { IfSome (slice_get slots.now at) (λ slot. take result into.new ≡ take place into.old ++ output_at slot entry memory.now) }
    ensures next { IfSome (slice_get slots.now at) (λ slot. result ≡ place + output_size slot.end) }
    ensures rooms { HaveRooms slots.now rooms.new.items }
    ensures long { length into.new ≡ length into.old }
{
    let ends = slots.host().as_slice();
    let addresses = slots.addresses().as_slice();
    let mut room = take_room(alloc, rooms, at);
    let next = read_output(
        &ends[at],
        addresses[at],
        entry,
        memory,
        &mut room,
        into,
        place,
    );
    put_room(rooms, at, room);
    next
}

// Reads the outputs at an entry.
fn read_outputs(
    alloc: Global,
    slots: &Slots,
    rooms: &mut Vec<Scalars>,
    entry: u32,
    memory: &[u8],
    into: &mut Scalars,
)
    requires shaped { AllByRecursion IsShaped slots.now }
    requires rooms { HaveRooms slots.now rooms.old.items }
    requires long { length into.old ≡ frame_size slots.now }
    ensures read { into.new ≡ outputs_at slots.now entry memory.now }
    ensures rooms { HaveRooms slots.now rooms.new.items }
{
    let count = slots.host().len();
    let mut place = 0;
    for at in 0..count {
        place = read_at(alloc, slots, rooms, at, entry, memory, into, place);
    }
}

// Room for each endpoint.
fn rooms_of(alloc: Global, ends: &[HostEnd]) -> Result<Vec<Scalars>, NoMemory>
    ensures { IfOk result (λ rooms. AreRooms ends.now rooms.items) }
{
    let mut rooms = Vec::new(alloc);
    for end in ends {
        rooms.push(Scalars::from_vec(vec![in alloc; 0; end.shape.len()]?))?;
    }
    Ok(rooms)
}

// How many scalars a frame has.
fn size_of_frame(ends: &[HostEnd]) -> usize
    requires few { length ends.now < 2 ^ 32 }
    requires small { AllByRecursion (λ end. length end.shape < 2 ^ 24) ends.now }
    ensures { result ≡ sum_by output_size ends.now }
{
    let mut size = 0;
    for end in ends {
        if tells(end) {
            size += end.shape.len();
        }
    }
    size
}

impl Outputs {
    /// The outputs of a module with these slots, and room for its items.
    pub fn new(alloc: Global, slots: &Slots) -> Result<Outputs, NoMemory>
        requires { AllByRecursion IsShaped slots.now }
        ensures { IfOk result (λ outputs. outputs ≡ slots.now) }
    {
        let rooms = rooms_of(alloc, slots.host().as_slice())?;
        let size = size_of_frame(slots.host().as_slice());
        let frame = Scalars::from_vec(vec![in alloc; 0; size]?);
        let slots = slots.copy(alloc)?;
        Ok(Outputs {
            alloc,
            slots,
            rooms,
            frame,
        })
    }

    /// Whether there is an output event endpoint of this number. It takes no memory.
    pub fn sends(&self, endpoint: u32) -> bool
        ensures { result ≡ is_some (event_slot self.now endpoint) }
    {
        let ends = self.slots.host().as_slice();
        if endpoint as usize >= ends.len() {
            return false;
        }
        sends(&ends[endpoint as usize])
    }

    /// Tells the event that stands in the slot of an output event endpoint, and says whether the run goes on. It takes no
    /// memory.
    pub fn tell_event<T: Teller>(
        &mut self,
        endpoint: u32,
        frame: u32,
        memory: &[u8],
        teller: &mut T,
    ) -> bool
        requires { is_some (event_slot self.old endpoint) ≡ true }
        ensures told { (slot : Slot) → event_slot self.old endpoint ≡ Some slot → T.tells teller.old (item.Event frame endpoint (read_slot slot 0 memory.now)) result teller.new }
        ensures same { self.new ≡ self.old }
    {
        let at = endpoint as usize;
        let end = &self.slots.host().as_slice()[at];
        let address = self.slots.addresses().as_slice()[at];
        let mut value = take_room(self.alloc, &mut self.rooms, at);
        read_entry(end, address, 0, memory, &mut value);
        let item = Item::Event {
            frame,
            endpoint,
            value,
        };
        let on = teller.tell(&item);
        put_room(&mut self.rooms, at, value_of(item));
        on
    }

    /// Tells a frame with the outputs at an entry, and says whether the run goes on. It takes no memory.
    pub fn tell_frame<T: Teller>(
        &mut self,
        entry: u32,
        frame: u32,
        memory: &[u8],
        teller: &mut T,
    ) -> bool
        ensures told { T.tells teller.old (item.Frame frame (outputs_at self.old entry memory.now)) result teller.new }
        ensures same { self.new ≡ self.old }
    {
        let mut values = replace(&mut self.frame, Scalars::new(self.alloc));
        read_outputs(
            self.alloc,
            &self.slots,
            &mut self.rooms,
            entry,
            memory,
            &mut values,
        );
        let item = Item::Frame { frame, values };
        let on = teller.tell(&item);
        self.frame = value_of(item);
        on
    }
}
