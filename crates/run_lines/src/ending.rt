// How runs end.

ghost use Rattle.std.specs.Prelude.{◌≡◌};
ghost use Rattle.run_lines.specs.Runs.{end_by, end_at as the_end_at};

use item_lines::Told;
use module_player::{At, Came};

/// How the run of a module ended whose items were told.
#[derive(Clone, Copy, Debug, PartialEq, Eq)]
pub enum RunEnd {
    /// It came to its end.
    Ended,
    /// The reductions of this part were spent.
    StepsSpent(At),
    /// This part trapped.
    Trapped(At),
    /// The put of a line failed.
    PutFailed,
    /// The listener at this position failed.
    ListenerFailed(u32),
    /// Memory was lacking.
    NoMemory,
}

// How a run ends at an item that isn't heard.
fn end_at(last: Told) -> RunEnd
    ensures { result ≡ the_end_at last }
{
    match last {
        Told::Heard => RunEnd::Ended,
        Told::PutFailed => RunEnd::PutFailed,
        Told::PutLacksMemory => RunEnd::NoMemory,
        Told::LineLacksMemory => RunEnd::NoMemory,
        Told::ListenerFailed(number) => RunEnd::ListenerFailed(number),
        Told::ListenerLacksMemory(_) => RunEnd::NoMemory,
    }
}

/// How a run ends that came out so, where this became of its last item.
pub fn run_end(came: Came, last: Told) -> RunEnd
    ensures { result ≡ end_by came last }
{
    match came {
        Came::Ended => RunEnd::Ended,
        Came::StepsSpent(at) => RunEnd::StepsSpent(at),
        Came::Trapped(at) => RunEnd::Trapped(at),
        Came::Stopped => end_at(last),
    }
}
