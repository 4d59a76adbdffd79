//! Cuts the text of a file into tokens. The layers above use the contract of `lex` alone: it gives the tokens of the file
//! (`IsTokens` of cm_tree's `specs/Tokens`), and there is one list of them at most; or it refuses the file, exactly where it has a
//! lexing fault (`IsLexFault`), with the cause and the place of one. Inside, each function is proved equal to a function on lists of
//! `specs/Scan`, and laws about these tie them to the definition: what they find is the longest piece at its place. The public
//! laws say that each text has either one list of tokens or a fault. Each byte is looked at a bounded number of times.
#![tactic(auto)]

mod bytes;
mod comment;
mod cut;
mod laws;
mod number;
mod pen;
mod piece;
mod quoted;
mod sign;
mod table;
mod word;

pub use cut::lex;
pub use laws::{no_fault_beside_tokens, tokens_are_unique, tokens_or_fault};
