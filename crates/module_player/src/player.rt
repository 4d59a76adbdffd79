// The parts of a run, one after another.

ghost use Rattle.std.specs.Prelude.{ℕ, ◌≡◌, ◌≢◌, ◌<◌, ◌≤◌, ◌+◌, ◌^◌, ◌∷◌, ◌++◌, [], List, ℤ, true, false, take, slice_set, IfOk};
ghost use Rattle.cm_base.specs.declared.host.Kind.TheVariants as kinds;
ghost use Rattle.cm_base.specs.declared.play.Item.{Item};
ghost use Rattle.cm_base.specs.Parts.{Init, Send, Frame, Task, Begin, inputs_at, following};
ghost use Rattle.cm_base.specs.Tasks.{AreInputs, IsTaken};
ghost use Rattle.wasm_tree.specs.declared.interface.Interface.TheVariants.{Single, Blocks};
ghost use Rattle.wasm_tree.specs.HostRun.{hears, zeros_of};
ghost use Rattle.wasm_tree.specs.Instance.{call_of, first_globals, first_memory};
ghost use Rattle.wasm_tree.specs.Section.{ends_of, block_length};
ghost use Rattle.wasm_tree.specs.Slots.{event_name};
ghost use Rattle.wasm_tree.specs.Stopped.{kept_globals as globals_of, restored_instance, snapshot_of};
ghost use Rattle.wasm_runner.specs.Snapshots.{Fits};
ghost use Rattle.wasm_valid.specs.Views.{interface_number};
ghost use Rattle.wasm_runner.specs.declared.host.Ended.TheVariants.{Done};
ghost use Rattle.module_player.specs.declared.came.Came.TheVariants.{Ended as CameEnded};
ghost use Rattle.module_player.specs.Coming.{CallTells, Comes, machine_of, frame_list};
ghost use Rattle.module_player.specs.Given.{inputs_from};
ghost use Rattle.module_player.specs.Playing.{playing, resumed, goes, instance_of, ComesOf, IsSame};

use crate::calls::{call_frames, call_part};
use crate::came::{At, Came, came_of};
use crate::given::InputState;
use crate::outputs::Outputs;
use crate::teller::Teller;
use cm_base::{Bytes, NoMemory, Scalars, Snapshot};
use std::alloc::Global;
use std::marker::Model;
use wasm_runner::{Ended, Export, Runner};
use wasm_valid::{Slots, Valid};

/// A module whose run is played. Contracts see it as the module, the budget of a part, and what an instance holds between
/// two parts.
#[derive(Drop)]
pub struct Player {
    runner: Runner,
    given: InputState,
    outputs: Outputs,
    steps: u64,
}

impl Model for Player {
    ghost use Rattle.module_player.specs.Playing.{Playing, playing, IsPlaying};

    ghost Value = { Playing };

    ghost view = { λ p. playing p.runner p.steps p.given.current };

    ghost invariant = { λ p. IsPlaying p.runner.of p.given.slots p.outputs };
}

// Whether a call returned.
fn returned(ended: Ended) -> bool
    ensures done { result ≡ true → ended ≡ Done }
    ensures other { result ≡ false → ended ≢ Done }
{
    matches!(ended, Ended::Done)
}

/// Whether a piece of a run ended.
pub fn has_ended(came: Came) -> bool
    ensures done { result ≡ true → came ≡ CameEnded }
    ensures other { result ≡ false → came ≢ CameEnded }
{
    matches!(came, Came::Ended)
}

impl Player {
    /// The module before its first call, with all memory that a run needs, and `steps` reductions for each part.
    pub fn new(alloc: Global, valid: Valid, steps: u64) -> Result<Player, NoMemory>
        ensures { IfOk result (λ player. player ≡ record { of = valid; steps = steps; globals = first_globals valid.of; memory = first_memory valid.of; live = true; current = zeros_of (ends_of valid.section) }) }
    {
        let _module = valid.module();
        let given = InputState::new(alloc, valid.slots(alloc)?)?;
        let outputs = Outputs::new(alloc, valid.table())?;
        let runner = Runner::start(alloc, valid)?;
        Ok(Player {
            runner,
            given,
            outputs,
            steps,
        })
    }

    /// The module as a snapshot has it, with all memory that a run needs, and `steps` reductions for each part. `fits` of
    /// wasm_runner tells whether the snapshot is of the module.
    pub fn resume(
        alloc: Global,
        valid: Valid,
        snapshot: &Snapshot,
        steps: u64,
    ) -> Result<Player, NoMemory>
        requires { Fits valid.of valid.section snapshot.now }
        ensures { IfOk result (λ player. player ≡ resumed valid steps (restored_instance valid.of valid.section snapshot.now)) }
    {
        let _module = valid.module();
        let given = InputState::resume(alloc, valid.slots(alloc)?, snapshot.current.as_slice())?;
        let outputs = Outputs::new(alloc, valid.table())?;
        let runner = Runner::resume(alloc, valid, snapshot)?;
        Ok(Player {
            runner,
            given,
            outputs,
            steps,
        })
    }

    // The mutable globals, in order.
    fn kept_globals(&self, alloc: Global) -> Result<Scalars, NoMemory>
        requires { self.now.live ≡ true }
        ensures { IfOk result (λ kept. kept ≡ globals_of self.now.of.of.globals self.now.globals) }
    {
        let count = self.runner.global_count();
        // The greatest number stands for every count from it on: so many globals have no room.
        if count == u32::MAX {
            return Err(NoMemory);
        }
        let mut kept = Scalars::from_vec(vec![in alloc; 0; count as usize]?);
        self.runner.globals(&mut kept);
        Ok(kept)
    }

    /// The snapshot of the module between two parts: its memory, its mutable globals, and the current values of its value
    /// inputs.
    pub fn snapshot(&self, alloc: Global) -> Result<Snapshot, NoMemory>
        requires { self.now.live ≡ true }
        ensures { IfOk result (λ snapshot. snapshot ≡ snapshot_of self.now.of.of self.now.of.section (instance_of self.now [])) }
    {
        let memory = Bytes::from_slice(alloc, self.runner.memory())?;
        let globals = self.kept_globals(alloc)?;
        let current = self.given.kept(alloc)?;
        Ok(Snapshot {
            memory,
            globals,
            current,
        })
    }

    /// Calls `init`.
    pub fn init<T: Teller>(&mut self, teller: &mut T) -> Came
        requires { self.old.live ≡ true }
        ensures comes { ComesOf T.tells self.old (Begin Init ∷ []) teller.old result self.new teller.new }
        ensures same { IsSame self.old self.new }
        ensures live { result ≡ CameEnded → self.new.live ≡ true }
    {
        let ended = call_part(
            &mut self.runner,
            Export::Init,
            0,
            &mut self.outputs,
            teller,
            self.steps,
        );
        came_of(ended, At::Init)
    }

    /// Sets the current value of a value input.
    pub fn set(&mut self, endpoint: u32, value: &[i64])
        requires { IsTaken kinds.Value (ends_of self.old.of.section) endpoint value.now }
        ensures { self.new ≡ record self.old { current = slice_set self.old.current endpoint value.now } }
    {
        self.given.set(endpoint, value);
    }

    // Calls the function of an event input.
    fn call_event<T: Teller>(&mut self, endpoint: u32, frame: u32, teller: &mut T) -> Ended
        requires live { self.old.live ≡ true }
        requires taken { (value : List ℤ) × IsTaken kinds.Event (ends_of self.old.of.section) endpoint value }
        ensures told { (trace : List Item) → CallTells T.tells trace (hears (machine_of self.old.of self.old.steps) false frame (call_of self.old.of.of (event_name self.old.of.section.slots endpoint) [] self.old.globals self.old.memory) trace) teller.old result self.new.globals self.new.memory teller.new }
        ensures same { IsSame self.old self.new }
        ensures current { self.new.current ≡ self.old.current }
        ensures live { result ≡ Done → self.new.live ≡ true }
    {
        let number = self.given.event_number(endpoint);
        call_part(
            &mut self.runner,
            Export::Event(number),
            frame,
            &mut self.outputs,
            teller,
            self.steps,
        )
    }

    /// Delivers an event to an input at a frame.
    pub fn send<T: Teller>(
        &mut self,
        endpoint: u32,
        value: &Scalars,
        streams: &[Scalars],
        frame: u32,
        teller: &mut T,
    ) -> Came
        requires live { self.old.live ≡ true }
        requires taken { IsTaken kinds.Event (ends_of self.old.of.section) endpoint value.now }
        requires inputs { AreInputs (ends_of self.old.of.section) (inputs_at (ends_of self.old.of.section) streams.now frame) }
        ensures comes { ComesOf T.tells self.old (Begin (Send frame endpoint value.now (inputs_at (ends_of self.old.of.section) streams.now frame)) ∷ []) teller.old result self.new teller.new }
        ensures same { IsSame self.old self.new }
        ensures live { result ≡ CameEnded → self.new.live ≡ true }
    {
        self.given.write_frame(&mut self.runner, streams, frame);
        self.runner.write_slot(endpoint, 0, value);
        let ended = self.call_event(endpoint, frame, teller);
        came_of(ended, At::Frame(frame))
    }

    /// Delivers the starting value of a parameter that is an event, at frame 0 with streams that carry zero.
    pub fn send_start<T: Teller>(&mut self, endpoint: u32, value: i64, teller: &mut T) -> Came
        requires live { self.old.live ≡ true }
        requires taken { IsTaken kinds.Event (ends_of self.old.of.section) endpoint (value ∷ []) }
        requires inputs { AreInputs (ends_of self.old.of.section) (inputs_at (ends_of self.old.of.section) [] 0) }
        ensures comes { ComesOf T.tells self.old (Begin (Send 0 endpoint (value ∷ []) (inputs_at (ends_of self.old.of.section) [] 0)) ∷ []) teller.old result self.new teller.new }
        ensures same { IsSame self.old self.new }
        ensures live { result ≡ CameEnded → self.new.live ≡ true }
    {
        self.given.write_frame(&mut self.runner, &[], 0);
        self.given.write_scalar(&mut self.runner, endpoint, value);
        let ended = self.call_event(endpoint, 0, teller);
        came_of(ended, At::Frame(0))
    }

    /// One frame of interface 1.
    pub fn single_frame<T: Teller>(
        &mut self,
        streams: &[Scalars],
        frame: u32,
        teller: &mut T,
    ) -> Came
        requires live { self.old.live ≡ true }
        requires interface { self.old.of.section.interface ≡ Single }
        requires inputs { AreInputs (ends_of self.old.of.section) (inputs_at (ends_of self.old.of.section) streams.now frame) }
        ensures comes { ComesOf T.tells self.old (Begin (Frame frame (inputs_at (ends_of self.old.of.section) streams.now frame)) ∷ []) teller.old result self.new teller.new }
        ensures same { IsSame self.old self.new }
        ensures live { result ≡ CameEnded → self.new.live ≡ true }
    {
        self.given.write_frame(&mut self.runner, streams, frame);
        let ended = call_part(
            &mut self.runner,
            Export::Frame,
            frame,
            &mut self.outputs,
            teller,
            self.steps,
        );
        if !returned(ended) {
            return came_of(ended, At::Frame(frame));
        }
        if self
            .outputs
            .tell_frame(0, frame, self.runner.memory(), teller)
        {
            Came::Ended
        } else {
            Came::Stopped
        }
    }

    /// `count` frames of interface 2 in one call, where no more may be in it.
    pub fn block_frames<T: Teller>(
        &mut self,
        streams: &[Scalars],
        frame: u32,
        count: u32,
        teller: &mut T,
    ) -> Came
        requires live { self.old.live ≡ true }
        requires interface { interface_number self.old.of.section.interface ≡ 2 }
        requires some { 0 < count }
        requires few { count ≤ block_length self.old.of.section.interface }
        requires frames { frame + count < 2 ^ 32 }
        requires inputs { (at : ℕ) → AreInputs (ends_of self.old.of.section) (inputs_at (ends_of self.old.of.section) streams.now at) }
        ensures comes { let carried = inputs_from (ends_of self.old.of.section) streams.now frame count in (left : List Task) → take (block_length self.old.of.section.interface) (carried ++ following left) ≡ carried → (trace : List Item) →
            Comes T.tells trace (goes self.old left) (goes self.old (frame_list frame carried ++ left) (instance_of self.old trace)) teller.old result self.new.globals self.new.memory self.new.current teller.new }
        ensures same { IsSame self.old self.new }
        ensures live { result ≡ CameEnded → self.new.live ≡ true }
    {
        self.given
            .write_block(&mut self.runner, streams, frame, count);
        call_frames(
            &mut self.runner,
            count,
            frame,
            &mut self.outputs,
            teller,
            self.steps,
        )
    }

    /// The endpoints, in declaration order. It takes no memory.
    pub fn slots(&self) -> &Slots
        ensures { result.now ≡ self.now.of.section.slots }
    {
        self.given.slots()
    }

    /// How many frames a call takes at most, and 1 for interface 1. It takes no memory.
    pub fn block(&self) -> u32
        ensures same { result ≡ block_length self.now.of.section.interface }
        ensures some { 1 ≤ result }
    {
        let _given = &self.given;
        self.runner.block()
    }

    /// The interface: 1 or 2. It takes no memory.
    pub fn interface(&self) -> u32
        ensures { result ≡ interface_number self.now.of.section.interface }
    {
        self.runner.interface()
    }
}
