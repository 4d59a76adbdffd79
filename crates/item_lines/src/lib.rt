//! How the items of a run come out: an item's line (`push_item`) is put to a sink, and then the listeners hear the item, one
//! after another in their order (`tell`). The commands that run a module use the contract of `tell`: `Tells` of
//! `specs/Telling`, over the lines of `specs/Lines`.
#![tactic(auto)]

mod hearing;
mod line;
mod telling;
#[cfg(test)]
mod tests;

pub use line::push_item;
pub use telling::{Told, tell};
