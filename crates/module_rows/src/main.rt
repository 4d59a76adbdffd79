//! Rows for validation, as data: `module_rows` reads rows from standard input (`stdin` has them, and says what a line means),
//! reads and validates the module of each row with `read_module` and `validate`, prints each answer that isn't the expected
//! one, and at the end how many rows there are and how many answers differ. It passes over the lines on calls. It shows what
//! no contract can: that these calls answer otherwise than by want of memory, and that refusals are those that are due.
//!
//! Nothing is proved of the rows but that reading them is safe, and that each call is given what it requires.
#![tactic(auto)]

mod modules;
mod row;
mod rows;
mod words;

use rows::Rows;
use std::alloc::AllocError;
use std::io;

/// Prints what differs in the rows of standard input, and the counts.
fn run<R: Input + Print + AllocGlobal>(rt: &R) -> io::Result<()> {
    let mut rows = Rows::new(rt.alloc());
    for line in rt.lines(rt.alloc()) {
        let line = line?;
        match rows.take_line(rt.alloc(), line.as_str()) {
            Ok(None) => {}
            Ok(Some(text)) => println!(rt; "{text}")?,
            Err(_) => return Err(io::Error::from(AllocError)),
        }
    }
    let (count, differing) = (rows.count(), rows.differing());
    println!(rt; "{count} rows, {differing} differ")
}

fn main(rt: HostRuntime) -> io::Result<()> {
    run(&rt)
}
