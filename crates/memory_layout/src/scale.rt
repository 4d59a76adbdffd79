ghost use Rattle.std.specs.Prelude.{◌≡◌, [], map};
ghost use Rattle.cm_core.specs.Types.{counts_after};
ghost use Rattle.memory_layout.specs.Held.{held};

use cm_core::{StructType, Unit};

/// What the code of a unit is measured in: the structs, and how many scalars each has; the unit; the sizes of the bodies of
/// its functions from the function `first` on; what a write of each of its endpoints counts for its chains, and what one of an endpoint `beyond` these does. All numbers
/// are held at 2^64 - 1.
#[derive(Clone, Copy)]
pub struct Scale<'a> {
    pub structs: &'a [StructType],
    pub known: &'a [u64],
    pub unit: &'a Unit,
    pub first: u32,
    pub bodies: &'a [u64],
    pub chains: &'a [u64],
    pub beyond: u64,
    ghost counted: { known.now ≡ map held (counts_after [] structs.now) },
}
