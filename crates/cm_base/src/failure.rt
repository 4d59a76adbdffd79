ghost use Rattle.std.specs.Prelude.{◌≡◌};
ghost use Rattle.cm_base.specs.Answers.{refusal};
ghost use Rattle.cm_base.specs.declared.failure.Fail.TheVariants.{Refused as IsRefused};

use crate::cause::Cause;
use crate::name::Name;
use crate::place::Place;
use sqlite_items::Items;
use std::alloc::{AllocError, AllocFailed, Global};
use thiserror::Error;

/// Why a patch is refused, and where. `cycle` has the paths of the leaves of a cycle, each before the
/// next and the last before the first, and is empty unless the cause is `Cycle`.
#[derive(Debug, Drop)]
pub struct Refused {
    pub cause: Cause,
    pub place: Place,
    pub cycle: Items<Name>,
}

/// Memory ran out.
#[derive(Clone, Copy, Debug, PartialEq, Eq)]
pub struct NoMemory;

impl From<AllocError> for NoMemory {
    fn from(_error: AllocError) -> NoMemory {
        NoMemory
    }
}

impl<T: Drop> From<AllocFailed<T>> for NoMemory {
    fn from(_error: AllocFailed<T>) -> NoMemory {
        NoMemory
    }
}

/// Why a phase gives no result.
#[derive(Debug, Drop, Error)]
pub enum Fail {
    #[error("the patch is refused")]
    Refused(Refused),
    #[error("out of memory")]
    NoMemory,
}

impl Fail {
    /// The refusal of a patch for this cause at this place, without a cycle.
    pub fn refused(alloc: Global, cause: Cause, place: Place) -> Fail
        ensures { result ≡ IsRefused (refusal cause place) }
    {
        Fail::Refused(Refused {
            cause,
            place,
            cycle: Items::new(alloc),
        })
    }
}

impl From<NoMemory> for Fail {
    ghost use Rattle.std.specs.Prelude.{◌≡◌};
    ghost use Rattle.cm_base.specs.declared.failure.Fail.TheVariants.{NoMemory as LacksMemory};

    ghost from_gives = { λ _ e. e ≡ LacksMemory };

    fn from(_error: NoMemory) -> Fail {
        Fail::NoMemory
    }
}

impl From<AllocError> for Fail {
    ghost use Rattle.std.specs.Prelude.{◌≡◌};
    ghost use Rattle.cm_base.specs.declared.failure.Fail.TheVariants.{NoMemory as LacksMemory};

    ghost from_gives = { λ _ e. e ≡ LacksMemory };

    fn from(_error: AllocError) -> Fail {
        Fail::NoMemory
    }
}

impl<T: Drop> From<AllocFailed<T>> for Fail {
    ghost use Rattle.std.specs.Prelude.{◌≡◌};
    ghost use Rattle.cm_base.specs.declared.failure.Fail.TheVariants.{NoMemory as LacksMemory};

    ghost from_gives = { λ _ e. e ≡ LacksMemory };

    fn from(_error: AllocFailed<T>) -> Fail {
        Fail::NoMemory
    }
}
