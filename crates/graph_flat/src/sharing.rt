ghost use Rattle.std.specs.Prelude.{◌≡◌, ◌<◌, length, All, IfOk, MatchOption};
ghost use Rattle.cm_core.specs.Consistent.{IsConsistent};
ghost use Rattle.graph_flat.specs.Shared.{is_value, AreApart, AreShared};

use crate::paths::Path;
use cm_base::{Kind, Place};
use cm_core::Program;
use std::alloc::{AllocError, Global};

/// Whether an endpoint is for values.
fn is_value(kind: Kind) -> bool
    ensures { result ≡ is_value kind }
{
    match kind {
        Kind::Value => true,
        Kind::Stream => false,
        Kind::Event => false,
    }
}

/// The place of the last connection of a path that ends at the endpoint for values at which another ends.
pub fn shared_value(
    alloc: Global,
    program: &Program,
    paths: &[Path],
) -> Result<Option<Place>, AllocError>
    requires { All (λ x. x.to.0 < length program.now.ends) paths.now }
    ensures { IfOk result (λ found. MatchOption found (AreApart program.now paths.now) (AreShared program.now paths.now)) }
{
    let mut taken = vec![in alloc; false; program.ends.len()]?;
    for path in paths {
        let end = path.to.0 as usize;
        if is_value(program.end(path.to).kind) {
            if taken[end] {
                return Ok(Some(path.last));
            }
            taken[end] = true;
        }
    }
    Ok(None)
}
