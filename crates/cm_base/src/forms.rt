use std::alloc::{AllocError, AllocFailed};
use thiserror::Error;

/// The rule of a script or a state file that fails.
#[derive(Clone, Copy, Debug, PartialEq, Eq)]
pub enum FormRule {
    /// It is no JSON value.
    Json,
    /// It isn't the object, array or member that the form asks for.
    Shape,
    Version,
    /// The count of frames is out of its range.
    Frames,
    /// There is no input of that name and kind.
    Endpoint,
    /// The frame isn't below the count of frames, or it falls.
    Frame,
    /// There are too many or too few scalars or values.
    Count,
    /// A scalar is no integer of 64 bits, or for a truth value none of `true` and `false` either.
    Scalar,
    /// There are too many events in one frame.
    EventLimit,
    /// The saved memory doesn't belong to the module beside it.
    Snapshot,
}

/// The member of a script or a state file in which a rule fails.
#[derive(Clone, Copy, Debug, PartialEq, Eq)]
pub enum FormPart {
    Whole,
    Frames,
    Streams,
    Values,
    Events,
    Parameters,
}

/// A rule that fails, and where: the index is that of an entry in its array, or of a name among the names
/// of its object in the order of their bytes, else 0.
#[derive(Clone, Copy, Debug, PartialEq, Eq)]
pub struct FormFault {
    pub rule: FormRule,
    pub part: FormPart,
    pub index: u32,
}

/// Why a script or a state file isn't read.
#[derive(Debug, Drop, Error)]
pub enum FormFail {
    #[error("the file isn't of its form")]
    Refused(FormFault),
    #[error("out of memory")]
    NoMemory,
}

impl From<AllocError> for FormFail {
    ghost use Rattle.std.specs.Prelude.{◌≡◌};
    ghost use Rattle.cm_base.specs.declared.forms.FormFail.TheVariants.{NoMemory as LacksMemory};

    ghost from_gives = { λ _ e. e ≡ LacksMemory };

    fn from(_error: AllocError) -> FormFail {
        FormFail::NoMemory
    }
}

impl<T: Drop> From<AllocFailed<T>> for FormFail {
    ghost use Rattle.std.specs.Prelude.{◌≡◌};
    ghost use Rattle.cm_base.specs.declared.forms.FormFail.TheVariants.{NoMemory as LacksMemory};

    ghost from_gives = { λ _ e. e ≡ LacksMemory };

    fn from(_error: AllocFailed<T>) -> FormFail {
        FormFail::NoMemory
    }
}
