//! The manifest of a patch: its identifier and the paths of its source files.
//! The layers above use the contract of `read_manifest`: it gives what `IsManifest` of `specs/Manifest`
//! says, and it refuses only for a fault that `HasFault` lists, which no manifest that it accepts has.
//! `source_name` gives the name of a source file, `file_name` of `specs/SourceName`.
#![tactic(auto)]

mod manifest;
mod naming;
mod properties;

pub use manifest::{Manifest, read_manifest};
pub use naming::source_name;
