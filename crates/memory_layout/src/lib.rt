//! How large programs are, by docs/LANGUAGE.md, "Sizes". `measure` gives the sizes of a whole program, and stands on those of
//! its parts: a leaf and the bodies of its handlers (`unit_sizes`), the split points of a `main` (`main_splits`), and the bytes
//! of its state (`state_bytes`). Each equals its definition in `cm_core/specs`, `Sizes` for code and `Measures` for units and
//! programs, held at 2^64 - 1: a function that calls another twice doubles its size, so that sizes have no bound. What a write
//! counts for the chains of its endpoint is given to `unit_sizes`, since it rests on the other leaves: `leaves` goes through a
//! graph's leaves from the last in their order to the first, so that the handlers that events of a leaf come to are known, and
//! `handlers_settle` says that events which go forward count in full, and `orders_lead_on` that they do in the order of
//! `graph_order`.
#![tactic(auto)]

mod bodies;
mod bytes;
mod calls;
mod events;
mod exprs;
mod forms;
mod graph;
mod laws;
mod leaves;
mod measured;
mod measuring;
mod names;
mod program;
mod rings;
mod scale;
mod splits;
mod stmts;
mod structs;
mod totals;
mod type_view;
mod units;
mod used;

pub use bytes::{bytes_of, state_bytes};
pub use laws::{handlers_settle, orders_lead_on};
pub use measured::Measure;
pub use program::measure;
pub use splits::main_splits;
pub use structs::struct_counts;
pub use units::{UnitSizes, unit_sizes};
