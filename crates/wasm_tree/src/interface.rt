/// How a host asks a module for frames: docs/MODULE.md, "Imports and exports".
#[derive(Clone, Copy, Debug, PartialEq, Eq)]
pub enum Interface {
    /// Interface 1: a call of `frame` for each frame.
    Single,
    /// Interface 2: a call of `frames` for up to so many frames, 1 to 256.
    Blocks(u32),
}
