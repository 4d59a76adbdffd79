//! What each path of a patch stands for: the walk over the patch (`declaration_walk`) is followed step by step, with numbers for
//! names, namespaces and declarations (`name_scopes`), and each path on the way is looked up where it stands. What is found is
//! what `cm_meaning` says is found at the path's site.
#![tactic(auto)]

mod id;
mod local;
mod look;
mod patch;
mod path_names;
mod rising;
mod walk;

pub use id::{DeclId, Use};
pub use local::Local;
pub use patch::find_paths;
pub use path_names::PathNames;
pub use rising::{are_rising, use_at};
