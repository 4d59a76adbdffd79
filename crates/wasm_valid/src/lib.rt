//! Validation of modules of docs/MODULE.md. `validate` accepts just the valid modules (`Valid` of wasm_tree), and each
//! refusal names a rule that the module breaks and where (`IsRefusal`). One rule follows another, in three parts, each of
//! which is exact both ways and tells the part that breaks its rule (`specs/IsBroken`): `parts` has the rules on single parts
//! of a module, `described` and `exports` those on the section `cmajor` and on what a host calls, and `accept` those on code.
//! In `bodies` each function has a body of its type exactly where one pass over its code accepts it (`specs/Checking`), with a
//! stack of the open sequences and the types of their operands, without recursion, and with the most that stands there
//! (`Stays`). `calls` ranks the functions by their calls, or finds that one calls itself through others; with the ranks `rooms`
//! adds up what each function holds with all that it calls, and so what no call of an export exceeds (`AreBounds` of
//! wasm_sound). The offset of a refusal is found only then, by `refusal`. `valid_is_sound` is the law that a valid module's
//! functions are typed code. `Valid` is what a host and a runner are given of a module that was validated: the module, the
//! slots of its section `cmajor`, and the two bounds.
#![tactic(auto)]

mod accept;
mod acts;
mod bodies;
mod body;
mod broken;
mod calls;
mod described;
mod exports;
mod imports;
mod index;
mod indexed;
mod laws;
mod locals;
mod memory;
mod names;
mod operands;
mod parts;
mod refusal;
mod rooms;
mod rules;
mod scalars;
mod scope;
mod slots;
mod valid;
mod validation;

pub use laws::valid_is_sound;
pub use slots::{Addresses, Slots};
pub use valid::Valid;
pub use validation::validate;
