ghost use Rattle.std.specs.Prelude.{◌≡◌};
ghost use Rattle.memory_code.specs.Parts.{is_wide, load_of, store_of, part_size, part_type};
ghost use Rattle.memory_code.specs.Views.{wide_of};

use wasm_tree::{LoadOp, StoreOp, ValType};

/// The parts by which memory is copied: of 8 bytes, or of 4.
#[derive(Clone, Copy, Debug, PartialEq, Eq)]
pub enum Part {
    Wide,
    Narrow,
}

impl Part {
    /// That of memory of this width.
    pub fn of_width(width: u32) -> Part
        ensures { wide_of result ≡ is_wide width }
    {
        if width.is_multiple_of(8) {
            Part::Wide
        } else {
            Part::Narrow
        }
    }

    /// Its bytes.
    pub fn size(self) -> u32
        ensures { result ≡ part_size (wide_of self) }
    {
        match self {
            Part::Wide => 8,
            Part::Narrow => 4,
        }
    }

    /// The type of the number that it is loaded as.
    pub fn value_type(self) -> ValType
        ensures { result ≡ part_type (wide_of self) }
    {
        match self {
            Part::Wide => ValType::I64,
            Part::Narrow => ValType::I32,
        }
    }

    pub fn load(self) -> LoadOp
        ensures { result ≡ load_of (wide_of self) }
    {
        match self {
            Part::Wide => LoadOp::I64,
            Part::Narrow => LoadOp::I32,
        }
    }

    pub fn store(self) -> StoreOp
        ensures { result ≡ store_of (wide_of self) }
    {
        match self {
            Part::Wide => StoreOp::I64,
            Part::Narrow => StoreOp::I32,
        }
    }
}
