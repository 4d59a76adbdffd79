use std::alloc::{AllocError, AllocFailed};

/// What is wrong with a line of rows.
#[derive(Clone, Copy, Debug, PartialEq, Eq)]
pub enum Slip {
    /// It begins with no word of the notation, or stands outside a row.
    Line,
    /// A number isn't one, or not in its range.
    Number,
    /// A type isn't one, or has too many scalars.
    Type,
    /// An endpoint isn't written as one.
    Endpoint,
    /// A declaration isn't written as one.
    Declaration,
    /// A node isn't written as one, or stands outside a graph.
    Node,
    /// A connection isn't written as one, or stands outside a graph.
    Connection,
    /// Nothing of this name is declared above.
    Name,
    /// A change isn't written as one.
    Change,
    /// What is changed isn't there.
    Part,
    /// Nothing is generated under this name.
    Generator,
    /// There are more instances than rows need.
    Size,
}

/// Why a line isn't read or a program isn't built.
#[derive(Clone, Copy, Debug, PartialEq, Eq)]
pub enum Halt {
    Slip(Slip),
    NoMemory,
}

impl From<AllocError> for Halt {
    fn from(_error: AllocError) -> Halt {
        Halt::NoMemory
    }
}

impl<T: Drop> From<AllocFailed<T>> for Halt {
    fn from(_error: AllocFailed<T>) -> Halt {
        Halt::NoMemory
    }
}
