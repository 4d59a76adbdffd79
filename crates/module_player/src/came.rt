// What a run comes to.

ghost use Rattle.std.specs.Prelude.{◌≡◌, ◌<◌, ◌+◌};
ghost use Rattle.module_player.specs.Coming.{part_came, part_frame as the_part_frame, block_came as the_block_came};

use wasm_runner::Ended;

/// The part in which a run stops early: the call of `init`, or a frame with the events that are delivered before it.
#[derive(Clone, Copy, Debug, PartialEq, Eq)]
pub enum At {
    Init,
    Frame(u32),
}

/// How a run, or a piece of it, came out.
#[derive(Clone, Copy, Debug, PartialEq, Eq)]
pub enum Came {
    /// It ended.
    Ended,
    /// The budget of reductions was spent in this part.
    StepsSpent(At),
    /// This part trapped.
    Trapped(At),
    /// The teller stopped it.
    Stopped,
}

/// What a call that is a part comes to.
pub fn came_of(ended: Ended, at: At) -> Came
    ensures { result ≡ part_came ended at }
{
    match ended {
        Ended::Done => Came::Ended,
        Ended::StepsSpent => Came::StepsSpent(at),
        Ended::Trapped => Came::Trapped(at),
        Ended::Stopped => Came::Stopped,
    }
}

// The frame to whose part the end of a call of `frames` belongs.
fn part_frame(marks: u32, frame: u32) -> u32
    requires { 0 < marks + frame }
    ensures { result ≡ the_part_frame marks frame }
{
    if marks == 0 { frame - 1 } else { frame }
}

/// What a call of `frames` comes to, by how many marks may still come and the number of the next frame.
pub fn block_came(ended: Ended, marks: u32, frame: u32) -> Came
    requires { 0 < marks + frame }
    ensures { result ≡ the_block_came ended marks frame }
{
    let at = At::Frame(part_frame(marks, frame));
    match ended {
        Ended::Done => {
            if marks == 0 {
                Came::Ended
            } else {
                Came::Trapped(at)
            }
        }
        Ended::StepsSpent => Came::StepsSpent(at),
        Ended::Trapped => Came::Trapped(at),
        Ended::Stopped => Came::Stopped,
    }
}
