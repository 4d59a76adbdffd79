//! What ends a command before its work is done.

ghost use Rattle.std.specs.Prelude.{◌≡◌, ◌⊎◌, Ok, Err, MatchResult};
ghost use Rattle.commands.specs.Steps.{ended};

use crate::report::told;
use crate::status::Status;
use cm_base::{Name, NoMemory};
use cm_io::Sink;
use std::alloc::{AllocError, Global};

/// Why a command ended before its work was done.
#[derive(Debug, Drop)]
pub struct Stop {
    pub status: Status,
    /// The file that the status's line on the error stream names, where it names one.
    pub about: Option<Name>,
}

impl Stop {
    /// Puts the line of the status on the error stream, and gives the status.
    pub fn report<E: Sink>(self, alloc: Global, err: &mut E) -> Status
        ensures { result ≡ self.status }
    {
        let Stop { status, about } = self;
        let about = about.as_ref().map_or("", |name| name.as_str());
        told(alloc, err, status, about)
    }
}

impl From<NoMemory> for Stop {
    ghost use Rattle.std.specs.Prelude.{◌≡◌};
    ghost use Rattle.commands.specs.declared.status.Status.TheVariants.{NoMemory as LacksMemory};

    ghost from_gives = { λ _ stop. stop.status ≡ LacksMemory };

    fn from(_error: NoMemory) -> Stop {
        Stop {
            status: Status::NoMemory,
            about: None,
        }
    }
}

impl From<AllocError> for Stop {
    ghost use Rattle.std.specs.Prelude.{◌≡◌};
    ghost use Rattle.commands.specs.declared.status.Status.TheVariants.{NoMemory as LacksMemory};

    ghost from_gives = { λ _ stop. stop.status ≡ LacksMemory };

    fn from(_error: AllocError) -> Stop {
        Stop::from(NoMemory)
    }
}

/// The end of a command whose run has this status.
pub fn ended_with(status: Status) -> Result<(), Stop>
    ensures { ended result ≡ status }
{
    match status {
        Status::Ok => Ok(()),
        status => Err(Stop {
            status,
            about: None,
        }),
    }
}

/// The result of a step that works on the file of this name. Without memory for the name the status of a step
/// that fails is `NoMemory`.
pub fn about<T>(alloc: Global, name: &str, step: Result<T, Status>) -> Result<T, Stop>
    ensures { MatchResult result (λ value. step ≡ Ok value) (λ stop. (step ≡ Err stop.status) ⊎ (stop.status ≡ Status.NoMemory)) }
{
    match step {
        Ok(value) => Ok(value),
        Err(status) => {
            let about = Some(Name::from_str(alloc, name)?);
            Err(Stop { status, about })
        }
    }
}
