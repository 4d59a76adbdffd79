ghost use Rattle.std.specs.Prelude.{◌≡◌, ℕ, ◌≤◌, List, [], ◌∷◌, Option};
ghost use Rattle.cm_io.specs.Count.{Rose, raised};
ghost use Rattle.cm_io.specs.Listener.{OnHeard, OnHearFailed, OnHearNoMemory};
ghost use Rattle.cm_io.specs.Told.{appended};
ghost use Rattle.cm_base.specs.declared.play.Item.{Item};

use cm_base::Item;

/// What becomes of an item that a listener is told.
#[derive(Clone, Copy, Debug, PartialEq, Eq)]
pub enum Heard {
    On,
    /// The item couldn't be taken.
    Failed,
    NoMemory,
}

/// Who is told the items of a trace, one after another.
pub trait Listener: Drop {
    /// What the listener tells of the items that it heard.
    ghost heard: { Self → Option (List Item) };

    /// How many items were heard.
    ghost count: { Self → ℕ };

    /// How many items failed.
    ghost faults: { Self → ℕ };

    /// How many items found no memory.
    ghost refusals: { Self → ℕ };

    /// Tells the next item.
    fn hear(&mut self, item: &Item) -> Heard
        ensures faults_stay { faults self.old ≤ faults self.new }
        ensures refusals_stay { refusals self.old ≤ refusals self.new }
        ensures on_counted { OnHeard result (count self.new ≡ raised (count self.old)) }
        ensures on_heard { OnHeard result (heard self.new ≡ appended (heard self.old) (item.now ∷ [])) }
        ensures failed_counted { OnHearFailed result (Rose (faults self.old) (faults self.new)) }
        ensures failed_heard { OnHearFailed result (heard self.new ≡ heard self.old) }
        ensures failed_count { OnHearFailed result (count self.new ≡ count self.old) }
        ensures no_memory_counted { OnHearNoMemory result (Rose (refusals self.old) (refusals self.new)) }
        ensures no_memory_heard { OnHearNoMemory result (heard self.new ≡ heard self.old) }
        ensures no_memory_count { OnHearNoMemory result (count self.new ≡ count self.old) };

    /// How many items were heard, up to the greatest number of 64 bits.
    fn count(&self) -> u64
        ensures { result ≡ count self.now };
}
