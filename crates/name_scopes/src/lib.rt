//! Scopes of a patch. `Scopes::build` is refused exactly where `cm_meaning` has a name that stands twice in a namespace, a
//! processor or a graph. Below it, names are numbered by their texts (`Names`), and namespaces by the one that they stand in and
//! their name (`Spaces`). `Members` has the declarations of all namespaces, with an index from a namespace and a name to the
//! first of them, and `walk` adds those of the files in the order of the text. A table of scopes (`Table`) has a stack for each
//! name and a log of what was opened and declared, so that a look-up takes constant time and a scope is left in the time of its
//! declarations. `check_apart` and `check_unit` refuse names that stand twice, exactly as `cm_meaning` says of a list of words
//! and of the members of a processor or a graph.
#![tactic(auto)]

mod apart;
mod members;
mod named;
mod names;
mod scopes;
mod spaces;
mod table;
#[cfg(test)]
mod tests;
mod walk;

pub use apart::{check_apart, check_unit};
pub use members::Members;
pub use named::{Member, Named};
pub use names::Names;
pub use scopes::Scopes;
pub use spaces::Spaces;
pub use table::{Entry, Table};
