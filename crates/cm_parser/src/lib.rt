//! Statements, declarations and files. A recursive-descent parser over a cursor of `token_reader`, each of whose
//! functions answers what its function on token lists in `file_grammar/specs` answers: the tree and the tokens that are
//! left, or a refusal at the token where the list function refuses. Calls are nested down the height of the tree, which
//! `room` bounds.
#![tactic(auto)]

mod decl_starts;
mod decls;
mod ends;
mod file;
mod indices;
mod keys;
mod lists;
mod members;
mod names;
mod nodes;
mod parts;
mod shared;
mod simples;
mod starts;
mod stmts;
mod targets;
mod units;
mod words;

pub use file::parse;
