ghost use Rattle.std.specs.Prelude.{◌≡◌};
ghost use Rattle.wasm_tree.specs.Spelled.{is_cmajor};

use crate::module::{ExportEntry, FuncBody, FuncType, GlobalVar, Import, Limits, Segment};
use cm_base::Name;

/// The bytes that a module begins with: `\0asm`, and version 1 (Core Specification 1.0, 5.5.15).
pub const HEADER: [u8; 8] = [0x00, 0x61, 0x73, 0x6D, 0x01, 0x00, 0x00, 0x00];

/// The id of custom sections (5.5.3).
pub const CUSTOM_ID: u8 = 0;

/// The name of the custom section that tells a host of the endpoints: docs/MODULE.md, "The section".
pub const CMAJOR: &[u8] = b"cmajor";

/// Whether a custom section of this name tells a host of the endpoints.
pub fn is_cmajor(name: &Name) -> bool
    ensures { result ≡ is_cmajor name.now }
{
    name.as_bytes() == CMAJOR
}

/// What a section other than a custom one lists, with the section's id (5.5.2).
pub trait Listed {
    ghost use Rattle.std.specs.Prelude.{ℕ};

    ghost ID: { ℕ };

    const ID: u8;
}

impl Listed for FuncType {
    ghost ID = { 1 };

    const ID: u8 = 1;
}

impl Listed for Import {
    ghost ID = { 2 };

    const ID: u8 = 2;
}

/// The numbers of the functions' types.
impl Listed for u32 {
    ghost ID = { 3 };

    const ID: u8 = 3;
}

impl Listed for Limits {
    ghost ID = { 5 };

    const ID: u8 = 5;
}

impl Listed for GlobalVar {
    ghost ID = { 6 };

    const ID: u8 = 6;
}

impl Listed for ExportEntry {
    ghost ID = { 7 };

    const ID: u8 = 7;
}

impl Listed for FuncBody {
    ghost ID = { 10 };

    const ID: u8 = 10;
}

impl Listed for Segment {
    ghost ID = { 11 };

    const ID: u8 = 11;
}
