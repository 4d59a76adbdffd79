ghost use Rattle.std.specs.Prelude.{◌≡◌, ◌≤◌, ◌+◌, ℕ, ℤ, List, length};
ghost use Rattle.std.specs.List.{AllByRecursion};
ghost use Rattle.cm_base.specs.HostEnds.{IsLawfulScalar};
ghost use Rattle.cm_base.specs.Scripts.{HasShape};
ghost use Rattle.wasm_tree.specs.Section.{Slot, shape_size};
ghost use Rattle.wasm_tree.specs.Slots.{entry_address, read_slot, write_slot};

/// A law of slots: what was written to an entry is read from it.
pub fn written_is_read()
    ensures { (slot : Slot) (entry : ℕ) (values : List ℤ) (memory : List ℕ) → AllByRecursion IsLawfulScalar slot.end.shape → HasShape slot.end.shape values →
        entry_address slot entry + shape_size slot.end.shape ≤ length memory → read_slot slot entry (write_slot slot entry values memory) ≡ values }
{}
