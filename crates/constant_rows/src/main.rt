//! Rows for the rules of types and the values of constants, as data: `constant_rows` reads rows from standard input (`stdin`
//! has them, and says what a line means), asks `type_rules`, `cm_const` and `const_values`, prints each answer that isn't the
//! expected one, and at the end how many rows there are and how many differ. It shows what no contract can: that these calls
//! answer otherwise than by want of memory. The expected answers were found by hand from docs/LANGUAGE.md, "Types" to
//! "Operators".
//!
//! A call that asks something of its arguments is made where a test has shown it (`sound`), and nothing else is proved of the
//! rows but that reading them is safe.
#![tactic(auto)]

mod constants;
mod declared;
mod halt;
mod kinds;
mod names;
mod operations;
mod operators;
mod rows;
mod rules;
mod sound;
mod types;
mod values;
mod words;
mod written;

use rows::Rows;
use std::alloc::AllocError;
use std::io;

/// Prints what differs in the rows of standard input, and the counts.
fn run<R: Input + Print + AllocGlobal>(rt: &R) -> io::Result<()> {
    let mut rows = Rows::new(rt.alloc());
    for line in rt.lines(rt.alloc()) {
        let line = line?;
        match rows.take_line(rt.alloc(), line.as_str()) {
            Ok(None) => {}
            Ok(Some(text)) => println!(rt; "{text}")?,
            Err(_) => return Err(io::Error::from(AllocError)),
        }
    }
    let (count, differing) = (rows.count(), rows.differing());
    println!(rt; "{count} rows, {differing} differ")
}

fn main(rt: HostRuntime) -> io::Result<()> {
    run(&rt)
}
