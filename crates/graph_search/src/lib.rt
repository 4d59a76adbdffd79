//! Searches over the edges of a directed graph, generic in what a node is: a node is a number below a count, and
//! the caller says what it names, as a leaf, a point of a wire, a function or a type. The layers above use three
//! contracts. `order` gives the one order (`IsOrder` of `specs/Orders`) in which the least node is placed next of
//! those whose predecessors are all placed, and then there is no cycle; or a cycle of the edges (`IsCycle`), and
//! then there is no such order. `ranks` gives numbers that fall along every edge (`IsRanking`), for inductions and
//! bounded recursions over the nodes. `path_counts` gives for each node how many paths lead from it to the ends
//! (`path_count` of `specs/Paths`), held at a limit, so that a search that lists paths can be refused beforehand.
//! The laws say that the order is unique, and what cycles and rankings mean for paths from a node back to itself.
//! All three searches require that both ends of each edge are below the count, which `are_within` tests. Each takes
//! a few passes over nodes and edges, and one insertion of each node into an ordered set.
#![tactic(auto)]

mod counting;
mod edges;
mod failure;
mod laws;
mod placing;
mod ranking;
mod search;
mod walking;

use cm_base::Items;
pub use counting::path_counts;
pub use edges::{Edge, are_within};
pub use failure::SearchFail;
pub use laws::{cycle_leads_back, order_is_unique, ordered_is_acyclic, ranked_never_leads_back};
pub use ranking::ranks;
pub use search::order;

/// Numbers of nodes.
pub type Indices = Items<u32>;

/// A count for each node.
pub type Counts = Items<u64>;

#[cfg(test)]
mod tests;
