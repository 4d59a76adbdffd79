//! A cursor over the tokens of a file. In `specs/`, parsers as functions on token lists: `Parsers` has their form,
//! the next token, sequences and loops, `Lists` names and lists of parts. The grammar's parsers are put together
//! from these. The layers above use the contracts of `Cursor`, each of whose methods answers what its function on
//! lists answers (`Reads`) and stays at the refused token where that refuses; and the laws of `proofs/`, which are
//! made to be cited: `Loops` opens a loop turn by turn, `Inverses` says what is known of the parts where the whole
//! was read, and `Locality` that an answer rests on the tokens up to the one looked at alone.
#![tactic(auto)]

mod cursor;

pub use cursor::{Cursor, Stop};

#[cfg(test)]
mod tests;
