// The host of a call.

ghost use Rattle.std.specs.Prelude.{◌≡◌, ◌+◌, ◌<◌, ◌^◌, pos, negsuc};
ghost use Rattle.module_player.specs.Emitting.{Emits};

use crate::outputs::Outputs;
use crate::teller::Teller;
use wasm_runner::{Host, HostAnswer};

/// The host of one call: the number of the frame, how many marks may still come and how many came, what it reads, and who is
/// told.
#[derive(Drop)]
pub struct Telling<'a, T> {
    pub frame: u32,
    pub marks: u32,
    pub entry: u32,
    pub outputs: &'a mut Outputs,
    pub teller: &'a mut T,
    ghost frames: { frame + marks < 2 ^ 32 },
    ghost entries: { entry + marks < 2 ^ 32 },
}

impl<'a, T: Teller> Telling<'a, T> {
    // `emit` with a number from 0 on.
    fn event(&mut self, number: u32, memory: &[u8]) -> HostAnswer
        ensures emits { Emits T.tells self.old.outputs.now (record { frame = self.old.frame; marks = self.old.marks; entry = self.old.entry }) self.old.teller.now (pos number) memory.now result (record { frame = self.new.frame; marks = self.new.marks; entry = self.new.entry }) self.new.teller.now }
        ensures slots { self.new.outputs.now ≡ self.old.outputs.now }
        ensures outputs { self.new.outputs.ghost_name ≡ self.old.outputs.ghost_name }
        ensures teller { self.new.teller.ghost_name ≡ self.old.teller.ghost_name }
    {
        if !self.outputs.sends(number) {
            return HostAnswer::Trap;
        }
        if self
            .outputs
            .tell_event(number, self.frame, memory, self.teller)
        {
            HostAnswer::Go
        } else {
            HostAnswer::Stop
        }
    }

    // `emit` with -1 where a mark may come.
    fn mark(&mut self, memory: &[u8]) -> HostAnswer
        requires { 0 < self.old.marks }
        ensures emits { Emits T.tells self.old.outputs.now (record { frame = self.old.frame; marks = self.old.marks; entry = self.old.entry }) self.old.teller.now (negsuc 0) memory.now result (record { frame = self.new.frame; marks = self.new.marks; entry = self.new.entry }) self.new.teller.now }
        ensures slots { self.new.outputs.now ≡ self.old.outputs.now }
        ensures outputs { self.new.outputs.ghost_name ≡ self.old.outputs.ghost_name }
        ensures teller { self.new.teller.ghost_name ≡ self.old.teller.ghost_name }
    {
        let on = self
            .outputs
            .tell_frame(self.entry, self.frame, memory, self.teller);
        self.frame += 1;
        self.marks -= 1;
        self.entry += 1;
        if on {
            HostAnswer::Fresh
        } else {
            HostAnswer::Stop
        }
    }
}

impl<'a, T: Teller> Host for Telling<'a, T> {
    ghost use Rattle.std.specs.Prelude.{◌≡◌};
    ghost use Rattle.module_player.specs.Emitting.{Emits};

    ghost emits = { λ h number memory answer k. (k.teller.ghost_name ≡ h.teller.ghost_name) × (k.outputs.ghost_name ≡ h.outputs.ghost_name) × (k.outputs.now ≡ h.outputs.now) × Emits T.tells h.outputs.now (record { frame = h.frame; marks = h.marks; entry = h.entry }) h.teller.now number memory answer (record { frame = k.frame; marks = k.marks; entry = k.entry }) k.teller.now };

    ghost renewable = { λ h. h.marks };

    fn emit(&mut self, number: i32, memory: &[u8]) -> HostAnswer {
        if number >= 0 {
            return self.event(number.cast_unsigned(), memory);
        }
        if number == -1 && self.marks > 0 {
            return self.mark(memory);
        }
        HostAnswer::Trap
    }
}
