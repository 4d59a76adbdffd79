//! The order in which the leaves of a flat graph take their turns. `order` gives it to the crates that lay a patch
//! out and make the code of its frames, or refuses the patch with a cycle of leaves. `specs/Before` says which leaf is
//! before which, `Order` what the order is, and `Cycle` what a cycle is and how a patch is refused by one. `order`
//! requires that the leaves of all chains are leaves of the graph, which `names_leaves` tests. There is one order at
//! most, by `order_is_unique`. The search is `graph_search::order`, over an edge for each undelayed chain between
//! leaves.
#![tactic(auto)]

mod edges;
mod laws;
mod naming;
mod ordering;
mod refusal;

pub use laws::order_is_unique;
pub use naming::names_leaves;
pub use ordering::order;

#[cfg(test)]
mod tests;
