use cm_base::NoMemory;
use std::alloc::{AllocError, AllocFailed};

/// What is wrong with a line of rows.
#[derive(Clone, Copy, Debug, PartialEq, Eq)]
pub enum Slip {
    /// It is no row and no declaration, or has too many or too few words.
    Line,
    /// A number isn't one, or not in its range.
    Number,
    /// A type isn't one that a patch can have, or isn't declared above.
    Type,
    /// A value isn't one of its type, or isn't declared above.
    Value,
    /// An operator isn't one.
    Operator,
    /// An expression is no expression.
    Expression,
}

/// Why a row isn't answered.
#[derive(Clone, Copy, Debug, PartialEq, Eq)]
pub enum Halt {
    Slip(Slip),
    NoMemory,
}

impl From<AllocError> for Halt {
    fn from(_error: AllocError) -> Halt {
        Halt::NoMemory
    }
}

impl From<NoMemory> for Halt {
    fn from(_error: NoMemory) -> Halt {
        Halt::NoMemory
    }
}

impl<T: Drop> From<AllocFailed<T>> for Halt {
    fn from(_error: AllocFailed<T>) -> Halt {
        Halt::NoMemory
    }
}
