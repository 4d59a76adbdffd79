// What a host calls, and the functions that a module exports, by their names.

ghost use Rattle.std.specs.Prelude.{◌≡◌, ◌++◌, length, codes};
ghost use Rattle.std.specs.Fmt.{decimal};
ghost use Rattle.wasm_tree.specs.Instance.{exported_as};

use itoa::write_digits;
use wasm_tree::{ExportEntry, ExportKind};

/// A function that a module exports to its host.
#[derive(Clone, Copy, Debug, PartialEq, Eq)]
pub enum Export {
    /// `init`, which comes before all other calls.
    Init,
    /// `frame` of interface 1: one frame.
    Frame,
    /// `e0`, `e1` and so on: an event to the input of this number among the event inputs.
    Event(u32),
    /// `frames` of interface 2: so many frames.
    Frames(u32),
}

/// The name of the function for the event input of this number, which is `e` and the number in decimal, at the end of
/// these bytes.
#[tactic(auto, using(crate::proofs::EventNames::short))]
pub fn event_name(number: u32, name: &mut [u8]) -> &[u8]
    requires { length name.old ≡ 11 }
    ensures { result.now ≡ codes "e" ++ decimal number }
{
    let first = write_digits(u64::from(number), name, 11);
    name[first - 1] = b'e';
    &name[first - 1..]
}

/// The number of the function that is exported under the name, and 0 where none is.
pub fn export_number(exports: &[ExportEntry], name: &[u8]) -> u32
    ensures { result ≡ exported_as name.now exports.now }
{
    for entry in exports {
        if entry.name.as_bytes() == name {
            return match entry.kind {
                ExportKind::Function(number) => number,
                ExportKind::Memory(_) => 0,
            };
        }
    }
    0
}
