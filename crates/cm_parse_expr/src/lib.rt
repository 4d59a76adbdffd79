//! Expressions and types. A recursive-descent parser over a cursor of `token_reader`, each of whose functions answers
//! what its function on token lists in `specs/Reading` answers: the tree and the tokens that are left, or a refusal at
//! the token where the list function refuses. `parse_expr` states what that means by the grammar of
//! `cm_tree/specs/Spelling` alone; the parser of files uses `read_expr`, `read_type`, `read_arg`, `read_args` and
//! `read_path`. Calls are nested down the height of the tree, which `room` bounds.
#![tactic(auto)]

mod base;
mod exprs;
mod fields;
mod grammar;
mod numbers;
mod operators;
mod parse;
mod paths;
mod start;
mod tall;
mod written;

pub use parse::{parse_expr, read_args, read_expr};
pub use paths::path as read_path;
pub use written::{read_arg, read_type};
