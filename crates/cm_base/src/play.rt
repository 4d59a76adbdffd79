use crate::name::Name;
use sqlite_items::Items;

/// One entry of a trace. An event has the number of its output endpoint among all endpoints of the host,
/// and the scalars that were sent. A frame has the scalars of all stream and value outputs of the host,
/// in declaration order.
#[derive(Debug, Drop)]
pub enum Item {
    Event {
        frame: u32,
        endpoint: u32,
        value: Items<i64>,
    },
    Frame {
        frame: u32,
        values: Items<i64>,
    },
}

/// What a script sets or sends: to the endpoint of this number, at this frame.
#[derive(Debug, Drop)]
pub struct Setting {
    pub frame: u32,
    pub endpoint: u32,
    pub value: Items<i64>,
}

pub type Settings = Items<Setting>;

/// The streams of a script: for each endpoint of the host the scalars of the frames that are given, one
/// frame after another, and nothing for an endpoint that no stream is given for.
pub type Streams = Items<Items<i64>>;

/// The input of a run: values are set and events are delivered in the order of the two lists, whose
/// frames don't fall.
#[derive(Debug, Drop)]
pub struct Script {
    pub frames: u32,
    pub streams: Streams,
    pub values: Settings,
    pub events: Settings,
}

/// A parameter's name and its saved value.
#[derive(Debug, Drop)]
pub struct Saved {
    pub name: Name,
    pub value: i64,
}

pub type SavedList = Items<Saved>;

/// The memory of a module, its mutable globals and the current values of the value inputs, between two
/// frames of a run.
#[derive(Debug, Drop)]
pub struct Snapshot {
    pub memory: Items<u8>,
    pub globals: Items<i64>,
    pub current: Items<i64>,
}
