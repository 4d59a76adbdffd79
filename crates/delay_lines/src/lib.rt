//! Code of delay lines. A ring in memory stands for the list of its last entries, as many as it has (`line_of` of
//! `specs/Rings`). `oldest_code` gives the code that copies the oldest of them to an address, and `push_code` the code
//! that drops it and appends the one at an address. The code of a frame puts them together. Their contracts say what
//! the code does by the standard's reduction, in how many reductions (`CopiesOldest` and `Pushes` of
//! `specs/Promises`), that it is typed from nothing to nothing in every function (`IsTyped`), that it opens no block and
//! calls nothing (`AreStraight` of `straight_code`), and that it names no local.
#![tactic(auto)]

mod code;
mod ring;

pub use code::{oldest_code, push_code};
pub use ring::RingPlace;

#[cfg(test)]
mod tests;
