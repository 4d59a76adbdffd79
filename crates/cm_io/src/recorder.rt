ghost use Rattle.std.specs.Prelude.{◌≡◌, ◌↔◌, [], ◌∷◌, ◌++◌, IfOk, OnOk, OnErr, Contains, Some};
ghost use Rattle.cm_io.specs.Listener.{OnHeard};
ghost use Rattle.cm_io.specs.Memory.{RecorderState, hear_leaves};

use crate::calls::{CallList, has_call, raised};
use crate::listener::{Heard, Listener};
use cm_base::{Item, Items};
use std::alloc::{AllocError, Global};
use std::marker::Model;

/// A listener in memory, which tells the items that it heard.
#[derive(Drop)]
pub struct Recorder {
    alloc: Global,
    heard: Items<Item>,
    count: u64,
    failing: CallList,
    refusing: CallList,
    calls: u64,
    faults: u64,
    refusals: u64,
}

impl Model for Recorder {
    ghost use Rattle.cm_io.specs.Memory.{RecorderState};

    ghost Value = { RecorderState };

    ghost view = { λ r. record { heard = r.heard; count = r.count; failing = r.failing; refusing = r.refusing; calls = r.calls; faults = r.faults; refusals = r.refusals } };
}

impl Recorder {
    /// A recorder that heard nothing. Calls of `hear` are counted from 0. Those in `failing` fail. The
    /// others in `refusing` answer that there is no memory.
    pub fn new(alloc: Global, failing: CallList, refusing: CallList) -> Recorder
        ensures { result ≡ record { heard = []; count = 0; failing = failing; refusing = refusing; calls = 0; faults = 0; refusals = 0 } }
    {
        Recorder {
            alloc,
            heard: Items::new(alloc),
            count: 0,
            failing,
            refusing,
            calls: 0,
            faults: 0,
            refusals: 0,
        }
    }

    /// All items that were heard. This counts as no call.
    pub fn heard(&self) -> &[Item]
        ensures { result.now ≡ self.now.heard }
    {
        self.heard.as_slice()
    }
}

impl Listener for Recorder {
    ghost heard = { λ recorder. Some recorder.heard };

    ghost count = { λ recorder. recorder.count };

    ghost faults = { λ recorder. recorder.faults };

    ghost refusals = { λ recorder. recorder.refusals };

    fn hear(&mut self, item: &Item) -> Heard
        ensures leaves { self.new ≡ hear_leaves self.old item.now result }
        ensures on_refusing { OnHeard result (¬ Contains self.old.refusing self.old.calls) }
        ensures failed { (result ≡ Heard.Failed) ↔ Contains self.old.failing self.old.calls }
    {
        let failing = has_call(&self.failing, self.calls);
        let refusing = has_call(&self.refusing, self.calls);
        self.calls = raised(self.calls);
        if failing {
            self.faults = raised(self.faults);
            return Heard::Failed;
        }
        if refusing || keep_item(self.alloc, &mut self.heard, item).is_err() {
            self.refusals = raised(self.refusals);
            return Heard::NoMemory;
        }
        self.count = raised(self.count);
        Heard::On
    }

    fn count(&self) -> u64
        ensures { result ≡ self.now.count }
    {
        self.count
    }
}

/// Puts a copy of the item behind the others. Without memory they stay as they are.
fn keep_item(alloc: Global, items: &mut Items<Item>, item: &Item) -> Result<(), AllocError>
    ensures ok { OnOk result (items.new ≡ items.old ++ item.now ∷ []) }
    ensures err { OnErr result (items.new ≡ items.old) }
{
    items.push(copied(alloc, item)?)
}

/// A copy of the item.
fn copied(alloc: Global, item: &Item) -> Result<Item, AllocError>
    ensures { IfOk result (λ copy. copy ≡ item.now) }
{
    Ok(match item {
        Item::Event {
            frame,
            endpoint,
            value,
        } => Item::Event {
            frame: *frame,
            endpoint: *endpoint,
            value: Items::from_slice(alloc, value.as_slice())?,
        },
        Item::Frame { frame, values } => Item::Frame {
            frame: *frame,
            values: Items::from_slice(alloc, values.as_slice())?,
        },
    })
}
