//! Rows for the readers of JSON files, as data: `json_rows` reads rows from standard input (`stdin` has them, and says
//! what a line means), reads the text of each row as a script, a state file or a manifest, prints each answer that isn't
//! the expected one, and at the end how many rows there are and how many differ. It shows what no contract can: that
//! `read_script`, `read_state`, `apply`, `snapshot_text`, `read_manifest` and `source_name` answer otherwise than by want
//! of memory, and in a time that doesn't outgrow the text. The expected answers were found by hand from docs/COMMANDS.md.
//!
//! Nothing is proved of the rows but that reading them is safe, and that each call is given what it requires: `lawful`
//! tests the endpoints that rows declare.
#![tactic(auto)]

mod cuts;
mod ends;
mod faults;
mod lawful;
mod manifests;
mod reports;
mod rows;
mod runs;
mod scripts;
mod states;
mod writing;

use rows::Rows;
use std::alloc::AllocError;
use std::io;

/// Prints what differs in the rows of standard input, and the counts.
fn run<R: Input + Print + AllocGlobal>(rt: &R) -> io::Result<()> {
    let mut rows = Rows::new(rt.alloc());
    for line in rt.lines(rt.alloc()) {
        let line = line?;
        match rows.take_line(rt.alloc(), line.as_str()) {
            Ok(None) => {}
            Ok(Some(text)) => println!(rt; "{text}")?,
            Err(_) => return Err(io::Error::from(AllocError)),
        }
    }
    let (count, differing) = (rows.count(), rows.differing());
    println!(rt; "{count} rows, {differing} differ")
}

fn main(rt: HostRuntime) -> io::Result<()> {
    run(&rt)
}
