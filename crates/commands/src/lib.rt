//! The commands of the program: `run` carries out the words of a command line over a folder, two sinks and
//! listeners. Its contract is the headline: with `Ok` after `compile` the file that was asked for holds a valid
//! module that keeps the patch, after `render`, `play` and `resume` the lines of the patch's or the valid module's run were put,
//! and every other answer has its cause. The program itself, `render_program`, hands it the real files and streams. `told` puts a status's line on the
//! error stream.
#![tactic(auto)]

mod compile;
mod dispatch;
mod files;
mod patch;
mod play;
mod render;
mod report;
mod resume;
mod state;
mod status;
mod stop;
#[cfg(test)]
mod tests;
mod words;
mod written;

pub use dispatch::run;
pub use module_player::At;
pub use report::told;
pub use status::{FileRef, Status, Target};
