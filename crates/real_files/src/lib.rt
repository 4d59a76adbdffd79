//! The traits of `cm_io` over real files and streams. What a file or a stream holds is outside every proof, so these
//! objects tell no content and count their errors. What they read from a reader and write to a writer is proved for every
//! one that tells what it has: `read_front` gives its first bytes, as many as were asked for, `write_each` writes a piece
//! whole or a front of it, and a call that a signal interrupts is made again. A regular file is written beside itself and
//! renamed, so that what it held is lost only when the new bytes are whole.
#![tactic(auto)]

mod outside;
mod whole_file;

pub use outside::{Disk, Stream};
