//! Plain types that every crate of the compiler shares: places in files, causes of refusals, numbers of
//! nodes and endpoints, host endpoints, items of a trace, scripts, saved parameters and the limits by name.
//! The crates above rely on the conversions of `Fail` and on `IsLawful` of `specs/HostEnds`, which says
//! when a list of host endpoints can belong to a patch. In `specs/`, `Parts`, `Players`, `Tasks` and `Scripts`
//! say what a run is, for patches and modules alike; `tasks_fit` has their law.
#![tactic(auto)]

mod cause;
mod failure;
mod forms;
mod host;
mod laws;
pub mod limits;
mod name;
mod place;
mod play;

pub use cause::Cause;
pub use failure::{Fail, NoMemory, Refused};
pub use forms::{FormFail, FormFault, FormPart, FormRule};
pub use host::{Flow, HostEnd, HostEnds, Kind, Range, Scalar, Shape};
pub use laws::tasks_fit;
pub use name::Name;
pub use place::{EndId, EndIds, LeafId, LeafIds, NodeId, NodeIds, Place};
pub use play::{Item, Saved, SavedList, Script, Setting, Settings, Snapshot, Streams};
pub use sqlite_items::{Boxed, Items};

/// Bytes of a file or of a piece of output.
pub type Bytes = Items<u8>;

/// Names in an order that matters.
pub type Names = Items<Name>;

/// Scalars of endpoints, one number for each: 0 or 1 for a truth value.
pub type Scalars = Items<i64>;
