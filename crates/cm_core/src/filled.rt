use crate::Counts;

/// The latencies of a patch in frames: the extra delay of each chain, the arrival of each leaf, and the latency of the
/// patch (docs/LANGUAGE.md, "Graphs").
#[derive(Debug, Drop)]
pub struct Filled {
    pub extra: Counts,
    pub arrive: Counts,
    pub latency: u32,
}
