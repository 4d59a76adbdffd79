ghost use Rattle.std.specs.Prelude.{◌≡◌, ℕ, true, length, map, min, slice_get, IfOk};
ghost use Rattle.std.specs.Option.{IfSome};
ghost use Rattle.cm_base.specs.Scripts.{HasShape};
ghost use Rattle.wasm_tree.specs.Slots.{read_slot as read_of, write_slot as write_of};
ghost use Rattle.wasm_runner.specs.Entries.{HasEntry};
ghost use Rattle.wasm_tree.specs.Instance.{funcs_of, begun_at, call_of, exported_as, first_globals, first_memory};
ghost use Rattle.wasm_tree.specs.Reduce.{exec};
ghost use Rattle.wasm_tree.specs.Section.{block_length};
ghost use Rattle.wasm_valid.specs.Views.{interface_number};
ghost use Rattle.wasm_runner.specs.declared.host.Ended.TheVariants.{Done};
ghost use Rattle.wasm_runner.specs.Exporting.{name_of, given_to, Offers};
ghost use Rattle.wasm_tree.specs.Stopped.{kept_globals, restored_globals};
ghost use Rattle.wasm_tree.specs.Valid.{memory_size};
ghost use Rattle.wasm_sound.specs.Kinds.{AreOf};
ghost use Rattle.wasm_runner.specs.Snapshots.{Fits, kept_types};
ghost use Rattle.wasm_runner.specs.Following.{Follows};
ghost use Rattle.wasm_runner.specs.Prepared.{arguments_of};
ghost use Rattle.wasm_runner.specs.Running.{running, Takes};

use crate::call::call_function;
use crate::export::{Export, event_name, export_number};
use crate::function::Function;
use crate::host::{Ended, Host};
use crate::instance::{are_bytes, globals_of, memory_of};
use crate::kept::{count_mutable, put_kept};
use crate::place::{Block, Caller};
use crate::prepare::prepare;
use crate::slots::{read_at, write_at};
use crate::snapshot::restored;
use cm_base::{NoMemory, Scalars, Snapshot};
use std::alloc::Global;
use std::marker::Model;
use wasm_valid::Valid;

/// An instance of a valid module, with all that its calls need. Contracts see it as the module, its globals, its memory,
/// and whether each call so far returned.
#[derive(Drop)]
pub struct Runner {
    valid: Valid,
    functions: Vec<Function>,
    cells: Vec<u64>,
    blocks: Vec<Block>,
    callers: Vec<Caller>,
    globals: Vec<u64>,
    memory: Vec<u8>,
    live: bool,
}

impl Model for Runner {
    ghost use Rattle.std.specs.Prelude.{length};
    ghost use Rattle.wasm_runner.specs.Running.{Running, running, CanRun};

    ghost Value = { Running };

    ghost view = { λ r. running r.valid r.globals.items r.memory.items r.live };

    ghost invariant = { λ r. CanRun (running r.valid r.globals.items r.memory.items r.live) r.functions.items (length r.cells.items) (length r.blocks.items) (length r.callers.items) };
}

impl Runner {
    // An instance of the module with these globals and this memory.
    fn with(
        alloc: Global,
        valid: Valid,
        globals: Vec<u64>,
        memory: Vec<u8>,
    ) -> Result<Runner, NoMemory>
        requires typed { AreOf (map (λ global. global.ty) valid.of.globals) globals.items }
        requires long { length memory.items ≡ memory_size valid.of.memory }
        ensures { IfOk result (λ runner. runner ≡ running valid globals.items memory.items true) }
    {
        are_bytes(memory.as_slice());
        let functions = prepare(alloc, valid.module())?;
        let cells = vec![in alloc; 0; valid.stack() as usize]?;
        let marks = valid.marks() as usize;
        let blocks = vec![in alloc; Block {
            arity: 0,
            target: 0,
            height: 0
        }; marks]?;
        let callers = vec![in alloc; Caller {
            function: 0,
            back: 0,
            base: 0,
            floor: 0,
            arity: 0
        }; marks]?;
        Ok(Runner {
            valid,
            functions,
            cells,
            blocks,
            callers,
            globals,
            memory,
            live: true,
        })
    }

    /// An instance of the module, with its first globals and its segments in memory.
    pub fn start(alloc: Global, valid: Valid) -> Result<Runner, NoMemory>
        ensures { IfOk result (λ runner. runner ≡ running valid (first_globals valid.of) (first_memory valid.of) true) }
    {
        let globals = globals_of(alloc, valid.module())?;
        let memory = memory_of(alloc, valid.module())?;
        Runner::with(alloc, valid, globals, memory)
    }

    /// An instance of the module with the memory of a snapshot, its mutable globals, and the first values of the others.
    /// `fits` tells whether the snapshot is of the module.
    pub fn resume(alloc: Global, valid: Valid, snapshot: &Snapshot) -> Result<Runner, NoMemory>
        requires { Fits valid.of valid.section snapshot.now }
        ensures { IfOk result (λ runner. runner ≡ running valid (restored_globals valid.of.globals snapshot.now.globals) snapshot.now.memory true) }
    {
        let vars = valid.module().globals.as_slice();
        let globals = restored(alloc, vars, snapshot.globals.as_slice())?;
        let memory = Vec::from_slice(alloc, snapshot.memory.as_slice())?;
        Runner::with(alloc, valid, globals, memory)
    }

    /// Calls an exported function by its number, with at most `steps` reductions from its begin and from each answer
    /// `Fresh`. It takes no memory.
    pub fn call_number<H: Host>(
        &mut self,
        number: u32,
        argument: Option<u32>,
        host: &mut H,
        steps: u64,
    ) -> Ended
        requires live { self.old.live ≡ true }
        requires takes { Takes self.old.of.of number (arguments_of argument) }
        ensures follows { Follows H.emits (funcs_of self.old.of.of) steps (exec (funcs_of self.old.of.of) steps (begun_at (funcs_of self.old.of.of) number (arguments_of argument) self.old.globals self.old.memory)) host.old result self.new.globals self.new.memory host.new }
        ensures same { self.new.of ≡ self.old.of }
        ensures live { self.new.live ≡ true → result ≡ Done }
        ensures dead { result ≡ Done → self.new.live ≡ true }
    {
        let ended = call_function(
            self.valid.module(),
            &self.functions,
            &mut self.cells,
            &mut self.blocks,
            &mut self.callers,
            &mut self.globals,
            &mut self.memory,
            host,
            number,
            argument,
            steps,
        );
        self.live = matches!(ended, Ended::Done);
        ended
    }

    /// Calls the function that is exported under a name, with at most `steps` reductions from its begin and from each answer
    /// `Fresh`. It takes no memory.
    pub fn call_named<H: Host>(
        &mut self,
        name: &[u8],
        argument: Option<u32>,
        host: &mut H,
        steps: u64,
    ) -> Ended
        requires live { self.old.live ≡ true }
        requires takes { Takes self.old.of.of (exported_as name.now self.old.of.of.exports) (arguments_of argument) }
        ensures follows { Follows H.emits (funcs_of self.old.of.of) steps (exec (funcs_of self.old.of.of) steps (call_of self.old.of.of name.now (arguments_of argument) self.old.globals self.old.memory)) host.old result self.new.globals self.new.memory host.new }
        ensures same { self.new.of ≡ self.old.of }
        ensures live { self.new.live ≡ true → result ≡ Done }
        ensures dead { result ≡ Done → self.new.live ≡ true }
    {
        let number = export_number(self.valid.module().exports.as_slice(), name);
        self.call_number(number, argument, host, steps)
    }

    /// Calls what the module exports, with at most `steps` reductions from its begin and from each answer `Fresh`. It takes
    /// no memory. `Frame` is for interface 1, and `Frames` for interface 2, with a count of 1 to the block's length.
    pub fn call<H: Host>(&mut self, export: Export, host: &mut H, steps: u64) -> Ended
        requires live { self.old.live ≡ true }
        requires offers { Offers self.old.of.section export }
        ensures follows { Follows H.emits (funcs_of self.old.of.of) steps (exec (funcs_of self.old.of.of) steps (call_of self.old.of.of (name_of export) (given_to export) self.old.globals self.old.memory)) host.old result self.new.globals self.new.memory host.new }
        ensures same { self.new.of ≡ self.old.of }
        ensures live { self.new.live ≡ true → result ≡ Done }
        ensures dead { result ≡ Done → self.new.live ≡ true }
    {
        let _module = self.valid.module();
        match export {
            Export::Init => self.call_named(b"init", None, host, steps),
            Export::Frame => self.call_named(b"frame", None, host, steps),
            Export::Event(number) => {
                let mut bytes = [0u8; 11];
                let name = event_name(number, &mut bytes);
                self.call_named(name, None, host, steps)
            }
            Export::Frames(count) => self.call_named(b"frames", Some(count), host, steps),
        }
    }

    /// Whether each call so far returned. It takes no memory.
    pub fn live(&self) -> bool
        ensures { result ≡ self.now.live }
    {
        self.live
    }

    /// How many frames a call takes at most: the block length of interface 2, and 1 for interface 1. It takes no memory.
    pub fn block(&self) -> u32
        ensures { result ≡ block_length self.now.of.section.interface }
    {
        self.valid.block()
    }

    /// The interface: 1 for a call of each frame, 2 for a call of each block of frames. It takes no memory.
    pub fn interface(&self) -> u32
        ensures { result ≡ interface_number self.now.of.section.interface }
    {
        self.valid.interface()
    }

    /// Reads an entry of the slot of an endpoint, which are numbered in declaration order: the slot of a stream has an entry
    /// for each frame of a block, and another slot has one. It takes no memory.
    pub fn read_slot(&self, end: u32, entry: u32, into: &mut Scalars)
        requires entry { HasEntry self.now.of.section end entry }
        requires long { IfSome (slice_get self.now.of.section.slots end) (λ slot. length into.old ≡ length slot.end.shape) }
        ensures { IfSome (slice_get self.now.of.section.slots end) (λ slot. into.new ≡ read_of slot entry self.now.memory) }
    {
        let _module = self.valid.module();
        read_at(self.valid.table(), end, entry, self.memory.as_slice(), into);
    }

    /// Writes an entry of the slot of an endpoint. It takes no memory.
    pub fn write_slot(&mut self, end: u32, entry: u32, from: &Scalars)
        requires entry { HasEntry self.old.of.section end entry }
        requires shaped { IfSome (slice_get self.old.of.section.slots end) (λ slot. HasShape slot.end.shape from.now) }
        ensures memory { IfSome (slice_get self.old.of.section.slots end) (λ slot. self.new.memory ≡ write_of slot entry from.now self.old.memory) }
        ensures same { self.new ≡ running self.old.of self.old.globals self.new.memory self.old.live }
    {
        let _module = self.valid.module();
        write_at(self.valid.table(), end, entry, from, &mut self.memory);
    }

    /// The memory. It takes no memory of its own.
    pub fn memory(&self) -> &[u8]
        ensures { result.now ≡ self.now.memory }
    {
        self.memory.as_slice()
    }

    /// How many of the module's globals are mutable, and the greatest number where there are more. It takes no memory.
    pub fn global_count(&self) -> u32
        ensures { result ≡ min (length (kept_types self.now.of.of.globals)) 4294967295 }
    {
        count_mutable(self.valid.module().globals.as_slice())
    }

    /// Writes the mutable globals, in order, as signed numbers. It takes no memory.
    pub fn globals(&self, into: &mut Scalars)
        requires live { self.now.live ≡ true }
        requires long { length into.old ≡ length (kept_types self.now.of.of.globals) }
        ensures { into.new ≡ kept_globals self.now.of.of.globals self.now.globals }
    {
        let vars = self.valid.module().globals.as_slice();
        put_kept(vars, self.globals.as_slice(), into);
    }
}
