//! Whether the parts of a program fit together: `is_consistent` tests at run time what `flatten` and the crates above
//! ask for. It takes a few passes over instances, endpoints, groups and connections. The instances form a tree where
//! none stands in two graphs and numbers fall from each graph to its instances (`ranks` of `graph_search`).
#![tactic(auto)]

mod consistent;
mod distinct;
mod ends;
mod grouped;
mod groups;
mod host;
mod links;
mod misfit;
mod nodes;
mod owners;
mod parents;
mod same;
mod tree;

pub use consistent::is_consistent;
