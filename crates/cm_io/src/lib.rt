//! The outside of the program as traits: a folder of files, a sink of output and a listener of the items
//! of a trace. Code over them can't raise their counts itself, so a contract that says "only where the
//! count rose" refuses code that gives up. What such an object holds is stated where it tells it. The
//! forms in memory tell all that they hold, and fail at the calls that they are told to fail at.
//! The crates above use the clauses of the three traits, in the words of `specs/Count`, `specs/Files` and
//! `specs/Told`; tests also use those of the forms in memory, in the words of `specs/Memory`. `push_name` puts a
//! file's name into a line on the error stream, in the words of `specs/Lines`.
#![tactic(auto)]

mod calls;
mod files;
mod folder;
mod line;
mod listener;
mod memory_folder;
mod memory_sink;
mod meter;
mod piece;
mod recorder;
mod sink;
#[cfg(test)]
mod tests;

pub use calls::CallList;
pub use cm_base::Item;
pub use files::{FileList, has_distinct_names};
pub use folder::{Folder, Read, Wrote};
pub use line::push_name;
pub use listener::{Heard, Listener};
pub use memory_folder::MemoryFolder;
pub use memory_sink::MemorySink;
pub use meter::Meter;
pub use recorder::Recorder;
pub use sink::{Put, Sink};
