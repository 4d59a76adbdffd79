//! Flattening a program: `flatten` gives its leaves and its chains (`flat_of` of `cm_core/specs/Routes`), and then
//! nothing is wrong with its graphs; or it refuses the program with a fault of `GraphFaults` that it has. The crates
//! above use this contract. docs/LANGUAGE.md, "Graphs", has the rules.
//!
//! The leaves of the tree of instances come first (`leaf_nodes`), then the connections between single endpoints that
//! the written ones stand for (`connections`). These are made ready for a search (`Wires`): a loop of them is refused,
//! and the routes are counted without a walk, so that too many are refused at once. The search takes steps in number
//! of the chains that it finds, since it jumps over endpoints with one way on.
#![tactic(auto)]

mod chains;
mod ends;
mod expanding;
mod finding;
mod flattening;
mod leaves;
mod links;
mod looping;
mod paths;
mod preparing;
mod searching;
mod sharing;
mod sides;
mod wires;

pub use expanding::connections;
pub use flattening::flatten;
pub use leaves::leaf_nodes;
