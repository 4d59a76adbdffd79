//! Where the scalars of a type stand in bytes, one after another without gaps (docs/LANGUAGE.md, "Sizes"): how many bytes a
//! value has, where a field of a struct begins, and what the fields and elements of a type are. A type is looked at where it
//! stands in the program (`TypeView`), without a copy, and `Places` has the structs with their bytes. Its contracts have the
//! bytes of the scalars that `cm_core/specs/Types` gives a type (`specs/Places`), held at 2^64 - 1, since unused types have no
//! bound.
#![tactic(auto)]

mod laws;
mod places;
mod type_view;
mod widths;

pub use laws::widths_are_of_shapes;
pub use places::Places;
pub use type_view::TypeView;
pub use widths::{scalar_bytes, struct_bytes};
