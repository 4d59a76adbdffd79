ghost use Rattle.std.specs.Prelude.{◌≡◌, ◌<◌, ◌+◌, ◌^◌};
ghost use Rattle.graph_flat.specs.Paths.{first_path, joined};

use cm_base::{EndId, Place};
use cm_core::Connection;

/// Connections of which each starts where the one before ended: where they start and end, the sum of their delays, and
/// the places of the first and the last.
#[derive(Clone, Copy, Debug, PartialEq, Eq)]
pub struct Path {
    pub from: EndId,
    pub to: EndId,
    pub delay: u64,
    pub first: Place,
    pub last: Place,
}

/// A connection alone.
pub fn first_path(connection: &Connection) -> Path
    ensures path { result ≡ first_path connection.now }
    ensures delay { result.delay < 2 ^ 32 }
{
    Path {
        from: connection.from,
        to: connection.to,
        delay: connection.delay as u64,
        first: connection.place,
        last: connection.place,
    }
}

/// A path, and one that goes on where it ends.
pub fn joined(path: &Path, more: &Path) -> Path
    requires { path.now.delay + more.now.delay < 2 ^ 64 }
    ensures { result ≡ joined path.now more.now }
{
    Path {
        from: path.from,
        to: more.to,
        delay: path.delay + more.delay,
        first: path.first,
        last: more.last,
    }
}
