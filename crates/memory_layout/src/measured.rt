/// The sizes of a program: its expanded size, the most split points of a leaf, the bytes of memory that it may use, and how
/// many reductions a turn is worth. Each is held at 2^64 - 1.
#[derive(Clone, Copy, Debug, PartialEq, Eq)]
pub struct Measure {
    pub size: u64,
    pub splits: u64,
    pub bytes: u64,
    pub cost: u64,
}
