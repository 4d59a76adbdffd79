//! The extra delays that make streams of one moment meet again behind leaves of different latency. `fill` gives the
//! arrival of each leaf, the latency of the patch and the extra delay of each chain, for the crates that lay a patch
//! out and make its code. `specs/Walks` says what an arrival is, by walks along undelayed chains of streams, and
//! `Fills` what the extra delays are, that they make arrivals equal, and that no smaller arrivals can be made equal.
//! `fill` requires the order of the leaves, which `graph_order::order` gives, and limits that `is_small` tests.
#![tactic(auto)]

mod arrivals;
mod chains;
mod extras;
mod filling;
mod small;

pub use filling::fill;
pub use small::is_small;

#[cfg(test)]
mod tests;
