//! The run of a module as its lines: `tell_run` plays a valid module over a script, puts the line of each item of the trace to
//! a sink, and has the listeners hear it. The commands that run a module use its contract: `RunTells` of `specs/Runs`. `Outlet`
//! is who `module_player` tells the items, and it has each of them told by `item_lines`.
#![tactic(auto)]

mod ending;
mod outlet;
mod run;

pub use ending::RunEnd;
pub use run::{tell_resumed, tell_run};
