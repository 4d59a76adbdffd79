//! Plays modules: carries out the run of a valid module over a script (`HostRun` of wasm_tree) by calls of `Runner`, and
//! tells each item of the trace to a `Teller` as it comes. `Outputs` has room for each item, so a run takes no memory.
//! `call_part` is a call whose marks trap and `call_frames` one whose marks end frames; both follow the call's reduction
//! (`Follows` of wasm_runner) with the host `Telling`. `specs/Emitting` says what that host does at each `emit`,
//! `specs/Telling` how items are told, and `specs/Coming` how calls and pieces of a run come out.
//! `play` plays a whole run: `inputs` writes what the streams and values carry, `given` keeps the current values, `player`
//! carries out one part after another, `run` goes through the frames of a script and `played` through the starting values.
//! `Player::snapshot` gives what a stopped run keeps, and `Player::resume` the player that goes on from it.
//! The invariant is always `ComesTo` of `specs/Playing`: the run from the tasks that are left is the whole run.
#![tactic(auto)]

mod calls;
mod came;
mod given;
mod host;
mod inputs;
mod outputs;
mod played;
mod player;
mod run;
mod teller;

pub use calls::{call_frames, call_part};
pub use came::{At, Came};
pub use outputs::Outputs;
pub use played::{play, play_whole};
pub use player::Player;
pub use run::play_script;
pub use teller::Teller;
