//! The texts of rows: a program whose standard input has rows of texts and expected answers gives each line of a row to
//! `Text::take_line`, and reads the bytes once a line ends the row. `counted` and `numbered` read other lines that stand
//! for many, as a series of endpoints.
//!
//! Nothing is proved of texts but that reading them is safe.
#![tactic(auto)]

mod lines;
mod series;

pub use lines::Text;
pub use series::{counted, numbered};
