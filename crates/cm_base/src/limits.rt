//! The limits of files, patches, modules and runs. A file is read with one byte more than its limit.

/// Bytes of a manifest.
pub const MANIFEST_BYTES: u64 = 1_048_576;

/// Source files of a patch.
pub const SOURCES: u32 = 64;

/// Bytes of all source files of a patch together.
pub const SOURCE_BYTES: u64 = 1_048_576;

/// The height of a syntax tree.
pub const TREE_HEIGHT: u32 = 256;

/// Nodes in the tree of instances, graphs and leaves together.
pub const NODES: u32 = 16_384;

/// Written connections, counted once in each instance of their graph.
pub const LINKS: u32 = 262_144;

pub const LEAVES: u32 = 4_096;

/// Connections between single nodes, after node arrays are expanded.
pub const CONNECTIONS: u32 = 262_144;

pub const CHAINS: u32 = 65_536;

/// Frames of one delay.
pub const DELAY: u32 = 1_048_576;

/// Frames of one stated latency.
pub const LATENCY: u32 = 65_536;

/// Scalars of one type, and of all endpoints of a module.
pub const SCALARS: u32 = 1_048_576;

/// Bytes of a module's memory.
pub const MEMORY_BYTES: u32 = 16_777_216;

/// Pages of a module's memory, of 65,536 bytes each.
pub const MEMORY_PAGES: u32 = 256;

pub const EXPANDED_SIZE: u32 = 262_144;

pub const SPLIT_POINTS: u32 = 1_024;

/// The factor of an oversampled node.
pub const FACTOR: u32 = 512;

pub const SCRIPT_BYTES: u64 = 8_388_608;

/// Bytes of a state file of version 1.
pub const STATE_BYTES: u64 = 1_048_576;

/// Bytes of a state file of version 2.
pub const STATE_2_BYTES: u64 = 67_108_864;

pub const MODULE_BYTES: u64 = 33_554_432;

/// Frames of one script.
pub const FRAMES: u32 = 1_048_576;

/// Events of one frame.
pub const EVENTS: u32 = 1_024;

/// Turns of one part of a run.
pub const TURNS: u64 = 1_048_576;

/// Reductions of one call of a module.
pub const STEPS: u64 = 72_057_594_037_927_936;

/// The number of a generated patch.
pub const NUMBER: u64 = 4_294_967_295;

/// Declared locals of a function of a module.
pub const LOCALS: u64 = 65_536;

/// Blocks that stand inside one another in a function of a module.
pub const NESTING: u32 = 4_096;

/// Frames that a module of interface 2 takes in one call.
pub const BLOCK_LENGTH: u32 = 256;
