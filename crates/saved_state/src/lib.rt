//! State files: the parameters of a run, and from version 2 on the module and where its run stands
//! (docs/COMMANDS.md, "State file"). The layers above use the contract of `read_state`: it gives the state that
//! `IsState` of `specs/State` says, or a fault that `IsStateFault` says. A file of version 2 is defined by
//! `state_bytes` of `specs/Version2`, the bytes that a state is written as: `snapshot_text` writes them, and by
//! `reads_back` nothing but the same state is read from them. `apply` gives the values of parameters that `values_of` of
//! `specs/Applied` says, and by `applies_again` values that were saved are applied as they are. `restore` gives the parameters
//! with these values, as a run takes them, and `final_values` what they are at its end.
#![tactic(auto)]

mod applied;
mod cursor;
mod finals;
mod laws;
mod restored;
mod state;
mod version_1;
mod version_2;
mod written;

pub use applied::apply;
pub use finals::final_values;
pub use laws::{applies_again, reads_back};
pub use restored::{nothing_saved, restore};
pub use state::{State, Version2, most_bytes, read_state};
pub use written::snapshot_text;
