//! The walk over the trees of a patch as a list of steps: each place with a rule, by its role, where scopes begin and end, and
//! what is declared in them, in the order of the text. `Reads` and `Walks` of `specs/Steps` say that the steps of a part come to the
//! sites that `cm_meaning` says it has. Who looks names up or applies rules goes through the steps alone, in one loop.
#![tactic(auto)]

mod exprs;
mod simple;
mod steps;
mod stmts;

pub use exprs::{
    name_alone, walk_base, walk_call, walk_expr, walk_exprs, walk_optional, walk_type,
};
pub use simple::{walk_local, walk_simple};
pub use steps::{Declaration, Part, Step, Steps, UnitKind};
pub use stmts::{walk_block, walk_stmt};
