use crate::name::Name;
use sqlite_items::Items;

/// Whether an endpoint is read or written by the processor that has it.
#[derive(Clone, Copy, Debug, PartialEq, Eq)]
pub enum Flow {
    Input,
    Output,
}

/// What an endpoint carries: a value a frame, a value that stays until it is set, or events.
#[derive(Clone, Copy, Debug, PartialEq, Eq)]
pub enum Kind {
    Stream,
    Value,
    Event,
}

/// The kind of one scalar. `Wrap` and `Clamp` have the count of their values, which are those from 0.
#[derive(Clone, Copy, Debug, PartialEq, Eq)]
pub enum Scalar {
    Int32,
    Int64,
    Bool,
    Wrap(u32),
    Clamp(u32),
}

/// The kinds of the scalars of a type, from left to right.
pub type Shape = Items<Scalar>;

/// The range of a parameter, and the value that it starts with.
#[derive(Clone, Copy, Debug, PartialEq, Eq)]
pub struct Range {
    pub min: i32,
    pub max: i32,
    pub init: i32,
}

/// An endpoint between a patch and its host.
#[derive(Debug, Drop)]
pub struct HostEnd {
    pub flow: Flow,
    pub kind: Kind,
    pub name: Name,
    pub shape: Shape,
    pub parameter: Option<Range>,
}

/// The endpoints of a patch, in declaration order.
pub type HostEnds = Items<HostEnd>;
