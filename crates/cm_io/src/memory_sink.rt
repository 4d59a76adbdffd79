ghost use Rattle.std.specs.Prelude.{◌≡◌, [], Contains, Some};
ghost use Rattle.cm_io.specs.Sink.{OnPut, OnPutFailed};
ghost use Rattle.cm_io.specs.Memory.{SinkState, put_leaves};

use crate::calls::{CallList, has_call, raised};
use crate::piece::front;
use crate::sink::{Put, Sink};
use std::alloc::Global;
use std::marker::Model;

/// A sink in memory, which tells what was written.
#[derive(Drop)]
pub struct MemorySink {
    written: Vec<u8>,
    failing: CallList,
    refusing: CallList,
    kept: u32,
    calls: u64,
    faults: u64,
    refusals: u64,
}

impl Model for MemorySink {
    ghost use Rattle.cm_io.specs.Memory.{SinkState};

    ghost Value = { SinkState };

    ghost view = { λ s. record { written = s.written.items; failing = s.failing; refusing = s.refusing; kept = s.kept; calls = s.calls; faults = s.faults; refusals = s.refusals } };
}

impl MemorySink {
    /// An empty sink. Calls of `put` are counted from 0. Those in `failing` fail, and write the first
    /// `kept` bytes of their piece. The others in `refusing` answer that there is no memory.
    pub fn new(alloc: Global, failing: CallList, refusing: CallList, kept: u32) -> MemorySink
        ensures { result ≡ record { written = []; failing = failing; refusing = refusing; kept = kept; calls = 0; faults = 0; refusals = 0 } }
    {
        MemorySink {
            written: Vec::new(alloc),
            failing,
            refusing,
            kept,
            calls: 0,
            faults: 0,
            refusals: 0,
        }
    }

    /// All that was written. This counts as no call.
    pub fn written(&self) -> &[u8]
        ensures { result.now ≡ self.now.written }
    {
        self.written.as_slice()
    }
}

impl Sink for MemorySink {
    ghost written = { λ sink. Some sink.written };

    ghost faults = { λ sink. sink.faults };

    ghost refusals = { λ sink. sink.refusals };

    fn put(&mut self, piece: &[u8]) -> Put
        ensures leaves { self.new ≡ put_leaves self.old piece.now result }
        ensures ok_failing { OnPut result (¬ Contains self.old.failing self.old.calls) }
        ensures ok_refusing { OnPut result (¬ Contains self.old.refusing self.old.calls) }
        ensures failed { OnPutFailed result (Contains self.old.failing self.old.calls) }
    {
        let failing = has_call(&self.failing, self.calls);
        let refusing = !failing && has_call(&self.refusing, self.calls);
        self.calls = raised(self.calls);
        let part = if failing {
            front(piece, u64::from(self.kept))
        } else {
            piece
        };
        if refusing || self.written.extend_from_slice(part).is_err() {
            self.refusals = raised(self.refusals);
            return Put::NoMemory;
        }
        if failing {
            self.faults = raised(self.faults);
            return Put::Failed;
        }
        Put::Ok
    }
}
