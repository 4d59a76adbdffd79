ghost use Rattle.std.specs.Prelude.{◌≡◌, ℕ, ◌≤◌, List, Option};
ghost use Rattle.cm_io.specs.Count.{Rose};
ghost use Rattle.cm_io.specs.Told.{appended, AppendsPrefix};
ghost use Rattle.cm_io.specs.Sink.{OnPut, OnPutFailed, OnPutNoMemory};

/// What becomes of a piece of output.
#[derive(Clone, Copy, Debug, PartialEq, Eq)]
pub enum Put {
    Ok,
    /// The piece couldn't be written, or not whole.
    Failed,
    NoMemory,
}

/// Where output goes, piece by piece. A sink in memory tells what was written. Any other tells nothing,
/// and its two counts are the only evidence that a call failed.
pub trait Sink {
    /// What the sink tells of the bytes that were written.
    ghost written: { Self → Option (List ℕ) };

    /// How many pieces failed.
    ghost faults: { Self → ℕ };

    /// How many pieces found no memory.
    ghost refusals: { Self → ℕ };

    /// Writes a piece behind those before.
    fn put(&mut self, piece: &[u8]) -> Put
        ensures faults_stay { faults self.old ≤ faults self.new }
        ensures refusals_stay { refusals self.old ≤ refusals self.new }
        ensures ok { OnPut result (written self.new ≡ appended (written self.old) piece.now) }
        ensures failed_counted { OnPutFailed result (Rose (faults self.old) (faults self.new)) }
        ensures failed_prefix { OnPutFailed result (AppendsPrefix (written self.old) (written self.new) piece.now) }
        ensures no_memory_counted { OnPutNoMemory result (Rose (refusals self.old) (refusals self.new)) }
        ensures no_memory_same { OnPutNoMemory result (written self.new ≡ written self.old) };
}
