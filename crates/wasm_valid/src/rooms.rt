//! How much calls of a module hold at most. The room of each function with all that it calls is added up along the calls,
//! those that are called first; then every sum is checked against the bodies, and what is claimed rests on the check alone.

ghost use Rattle.std.specs.Prelude.{◌≡◌, ◌+◌, ◌<◌, ◌≤◌, ◌^◌, ◌↔◌, length, slice_get, unwrap_or, IsTrue, IfOk, IfSome, ℕ};
ghost use Rattle.std.specs.List.{AllByRecursion};
ghost use Rattle.wasm_tree.specs.Host.{HasImport};
ghost use Rattle.wasm_tree.specs.Spelled.{count_of_locals, most_locals};
ghost use Rattle.wasm_tree.specs.Valid.{AreFunctionsIndexed, AreBodiesTyped, AreBodiesWithinLimits, HasMemory, HaveFewResults};
ghost use Rattle.wasm_sound.specs.Governed.{Permits};
ghost use Rattle.wasm_sound.specs.Reached.{AreBounds};
ghost use Rattle.wasm_valid.specs.RoomsOf.{no_room, room_of, rules_of, LeavesRoom, HasRoomAt, IsWithinBounds, AreNeedsOf};

use crate::bodies::body_type;
use crate::body::Need;
use crate::locals::count_locals;
use cm_base::NoMemory;
use std::alloc::{AllocError, Global};
use wasm_tree::{Instr, Module};

/// What a function holds at most: locals and operands, and open sequences with its own; and the same with the functions
/// that it calls.
#[derive(Clone, Copy, Debug, PartialEq, Eq)]
pub struct Room {
    pub cells: u64,
    pub labels: u64,
    pub all_cells: u64,
    pub all_labels: u64,
}

/// What calls hold at most: cells, and labels and callers.
#[derive(Clone, Copy, Debug, PartialEq, Eq)]
pub struct Bounds {
    pub cells: u64,
    pub marks: u64,
}

/// The imported function holds its argument.
const EMIT: Room = Room {
    cells: 1,
    labels: 1,
    all_cells: 1,
    all_labels: 1,
};

/// No function has the number.
const NONE: Room = Room {
    cells: 0,
    labels: 0,
    all_cells: 0,
    all_labels: 0,
};

/// The room of the function of this number.
fn room_at(rooms: &[Room], number: usize) -> Room
    ensures { result ≡ room_of rooms.now number }
{
    match rooms.get(number) {
        Some(room) => *room,
        None => NONE,
    }
}

/// Whether a function has room for itself and a callee with what it calls.
fn leaves_room(caller: Room, callee: Room) -> bool
    ensures { IsTrue result ↔ LeavesRoom caller callee }
{
    callee.all_cells <= caller.all_cells
        && caller.cells <= caller.all_cells - callee.all_cells
        && callee.all_labels <= caller.all_labels
        && caller.labels <= caller.all_labels - callee.all_labels
}

/// Whether the function may have the instruction: it leaves room for what is called.
fn permits(rooms: &[Room], from: usize, instr: &Instr) -> bool
    ensures { IsTrue result ↔ Permits (rules_of rooms.now) from instr.now }
{
    match instr {
        Instr::Call(0) => true,
        Instr::Call(to) => leaves_room(room_at(rooms, from), room_at(rooms, *to as usize)),
        Instr::I32Const(value) => {
            let _value = *value;
            true
        }
        Instr::I64Const(value) => {
            let _value = *value;
            true
        }
        _ => true,
    }
}

/// Whether the function has room for all that its code calls.
fn does_permit(rooms: &[Room], from: usize, code: &[Instr]) -> bool
    ensures { IsTrue result ↔ AllByRecursion (Permits (rules_of rooms.now) from) code.now }
{
    code.iter().all(|instr| permits(rooms, from, instr))
}

/// Whether the room is enough for so many parameters and locals and what the body needs.
fn is_enough(room: Room, params: u64, locals: u64, need: Need) -> bool
    ensures { IsTrue result ↔ ((params + locals + need.cells ≤ room.cells) × (need.marks ≤ room.labels)) }
{
    need.cells <= room.cells
        && locals <= room.cells - need.cells
        && params <= room.cells - need.cells - locals
        && need.marks <= room.labels
}

/// Whether the function with this place among the module's own has room for what its body needs and calls.
#[tactic(auto, using(crate::proofs::EachLemmas::locals_at, crate::proofs::RoomLemmas::room_here))]
fn has_room(rooms: &[Room], module: &Module, needs: &[Need], at: usize) -> bool
    requires indexed { AreFunctionsIndexed «module».now }
    requires limits { AreBodiesWithinLimits «module».now }
    requires counts { length «module».now.functions ≡ length «module».now.codes }
    requires needed { length needs.now ≡ length «module».now.codes }
    requires there { at < length «module».now.codes }
    ensures { IsTrue result → HasRoomAt «module».now rooms.now needs.now at }
{
    let ty = body_type(module, at);
    let body = &module.codes.as_slice()[at];
    let locals = count_locals(body.locals.as_slice());
    is_enough(
        room_at(rooms, at + 1),
        ty.params.len() as u64,
        locals,
        needs[at],
    ) && does_permit(rooms, at + 1, body.code.as_slice())
}

/// Whether each of the module's own functions has room.
fn have_room(rooms: &[Room], module: &Module, needs: &[Need]) -> bool
    requires indexed { AreFunctionsIndexed «module».now }
    requires limits { AreBodiesWithinLimits «module».now }
    requires counts { length «module».now.functions ≡ length «module».now.codes }
    requires needed { length needs.now ≡ length «module».now.codes }
    ensures { IsTrue result → (at : ℕ) → HasRoomAt «module».now rooms.now needs.now at }
{
    for at in 0..module.codes.len() {
        if !has_room(rooms, module, needs, at) {
            return false;
        }
    }
    true
}

/// Whether no function holds more than it holds with what it calls, and the imported function holds its argument.
fn are_sums(rooms: &[Room]) -> bool
    ensures own { IsTrue result → AllByRecursion (λ room. (room.cells ≤ room.all_cells) × (room.labels ≤ room.all_labels)) rooms.now }
    ensures emit { IsTrue result → (0 < (room_of rooms.now 0).cells) × (0 < (room_of rooms.now 0).labels) }
{
    let emit = room_at(rooms, 0);
    emit.cells > 0
        && emit.labels > 0
        && rooms.iter().all(|room| room.cells <= room.all_cells && room.labels <= room.all_labels)
}

/// The most that any function holds with what it calls.
#[tactic(auto, using(crate::proofs::RoomLemmas::most_more, crate::proofs::RoomLemmas::most_each))]
fn most_of(rooms: &[Room]) -> Bounds
    ensures { AllByRecursion (IsWithinBounds result) rooms.now }
{
    let mut most = Bounds { cells: 0, marks: 0 };
    for room in rooms {
        most = Bounds {
            cells: most.cells.max(room.all_cells),
            marks: most.marks.max(room.all_labels),
        };
    }
    most
}

/// The most that any of the module's own functions which the code calls holds with what it calls.
fn deepest(rooms: &[Room], code: &[Instr]) -> Bounds {
    let mut most = Bounds { cells: 0, marks: 0 };
    for instr in code {
        let called = match instr {
            Instr::Call(0) => NONE,
            Instr::Call(to) => room_at(rooms, *to as usize),
            _ => NONE,
        };
        most = Bounds {
            cells: most.cells.max(called.all_cells),
            marks: most.marks.max(called.all_labels),
        };
    }
    most
}

/// The room with what is called.
fn with_calls(room: Room, most: Bounds) -> Room {
    Room {
        cells: room.cells,
        labels: room.labels,
        all_cells: room.cells.saturating_add(most.cells),
        all_labels: room.labels.saturating_add(most.marks),
    }
}

/// The rooms of the functions by their numbers, each without what it calls.
fn own_rooms(alloc: Global, module: &Module, needs: &[Need]) -> Result<Vec<Room>, AllocError>
    requires indexed { AreFunctionsIndexed «module».now }
    requires limits { AreBodiesWithinLimits «module».now }
    requires counts { length «module».now.functions ≡ length «module».now.codes }
    requires needed { length needs.now ≡ length «module».now.codes }
{
    let mut rooms = Vec::new(alloc);
    rooms.push(EMIT)?;
    for at in 0..needs.len() {
        let ty = body_type(module, at);
        let locals = count_locals(module.codes.as_slice()[at].locals.as_slice());
        let cells = needs[at]
            .cells
            .saturating_add(ty.params.len() as u64)
            .saturating_add(locals);
        rooms.push(Room {
            cells,
            labels: needs[at].marks,
            all_cells: cells,
            all_labels: needs[at].marks,
        })?;
    }
    Ok(rooms)
}

/// The functions by their ranks.
fn by_rank(alloc: Global, ranks: &[u32]) -> Result<Vec<u32>, AllocError>
    requires { length ranks.now < 2 ^ 32 }
{
    let mut functions = vec![in alloc; 0; ranks.len()]?;
    for function in 0..ranks.len() {
        let rank = ranks[function] as usize;
        if rank < functions.len() {
            functions[rank] = function as u32;
        }
    }
    Ok(functions)
}

/// Adds to the room of each function those of the functions that it calls, which come before it.
fn add_up(rooms: &mut [Room], module: &Module, functions: &[u32]) {
    for function in functions {
        let number = *function as usize;
        if 0 < number && number < rooms.len() && number <= module.codes.len() {
            let most = deepest(rooms, module.codes.as_slice()[number - 1].code.as_slice());
            rooms[number] = with_calls(rooms[number], most);
        }
    }
}

/// What calls of the module's exports hold at most, if these are rooms of its functions.
fn checked_most(rooms: &[Room], module: &Module, needs: &[Need]) -> Option<Bounds>
    requires import { HasImport «module».now }
    requires indexed { AreFunctionsIndexed «module».now }
    requires types { HaveFewResults «module».now }
    requires memory { HasMemory «module».now.memory }
    requires limits { AreBodiesWithinLimits «module».now }
    requires bodies { AreBodiesTyped «module».now }
    requires counts { length «module».now.functions ≡ length «module».now.codes }
    requires needed { length needs.now ≡ length «module».now.codes }
    requires needs { AreNeedsOf «module».now needs.now }
    ensures { IfSome result (λ bounds. AreBounds «module».now bounds.cells bounds.marks) }
{
    if !are_sums(rooms) || !have_room(rooms, module, needs) {
        return None;
    }
    Some(most_of(rooms))
}

/// What calls of the module's exports hold at most. A bound past 64 bits is told as want of memory.
pub fn bounds_of(
    alloc: Global,
    module: &Module,
    needs: &[Need],
    ranks: &[u32],
) -> Result<Bounds, NoMemory>
    requires import { HasImport «module».now }
    requires indexed { AreFunctionsIndexed «module».now }
    requires types { HaveFewResults «module».now }
    requires memory { HasMemory «module».now.memory }
    requires limits { AreBodiesWithinLimits «module».now }
    requires bodies { AreBodiesTyped «module».now }
    requires counts { length «module».now.functions ≡ length «module».now.codes }
    requires needed { length needs.now ≡ length «module».now.codes }
    requires needs { AreNeedsOf «module».now needs.now }
    requires few { length ranks.now < 2 ^ 32 }
    ensures { IfOk result (λ bounds. AreBounds «module».now bounds.cells bounds.marks) }
{
    let mut rooms = own_rooms(alloc, module, needs)?;
    let functions = by_rank(alloc, ranks)?;
    add_up(&mut rooms, module, &functions);
    match checked_most(&rooms, module, needs) {
        Some(most) => Ok(most),
        None => Err(NoMemory),
    }
}
