//! Worked runs of patches, given as the text of their one file: what each tells over a script, with so many turns for each part; and
//! the sizes of such patches. Each contract states a result that was worked out by hand from docs/LANGUAGE.md, so a change of a
//! definition of `cm_meaning` or `patch_sizes` that moves one of them fails here. Where a wrong reading of a rule would give another
//! result, the line above says which.
//!
//! A result is there only where the text is a file with right names and types (`specs/Faultless`). `reading` proves that texts are
//! read as the definitions of tokens and files say, and `programs` has runs of specialised programs. The functions do nothing, and
//! nothing is built on them.
#![tactic(auto)]

pub mod events;
pub mod graphs;
pub mod programs;
pub mod reading;
pub mod sizes;
pub mod statements;
pub mod streams;
pub mod turns;
