//! The walk over a whole patch as a list of the steps of `scope_walk`: `walk_patch` says that going along the steps comes to exactly
//! the sites that `cm_meaning` says the patch has. The names of a processor, a graph or a function are declared in a scope of
//! their own before its parts are walked, the last one first.
#![tactic(auto)]

mod functions;
mod members;
mod names;
mod nodes;
mod patch;
mod shared;
mod units;

pub use functions::{walk_function, walk_handler};
pub use members::{walk_keys, walk_member, walk_members};
pub use nodes::{walk_link, walk_node};
pub use patch::{walk_decls, walk_patch};
pub use shared::walk_shared;
pub use units::walk_unit;
