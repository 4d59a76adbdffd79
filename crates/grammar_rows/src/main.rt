//! Rows for the lexer and the parsers, as data: `grammar_rows` reads rows from standard input (`stdin` has them, and says
//! what a line means), cuts the text of each row into tokens with `lex`, reads the tokens with `parse` as a file or with
//! `parse_expr` as an expression, judges the names of a file by `Scopes::build`, `check_unit` and `check_apart`, walks over it
//! by `walk_patch`, prints each answer that isn't the expected one, and at the end how many rows there are and how many
//! differ. It shows what no contract can: that these calls answer otherwise than by want of memory. The expected
//! answers were found by hand from the rules of docs/LANGUAGE.md, "Tokens", "Grammar" and "Names".
//!
//! Nothing is proved of the rows but that reading them is safe.
#![tactic(auto)]

mod answers;
mod names;
mod rows;
mod written;

use rows::Rows;
use std::alloc::AllocError;
use std::io;

/// Prints what differs in the rows of standard input, and the counts.
fn run<R: Input + Print + AllocGlobal>(rt: &R) -> io::Result<()> {
    let mut rows = Rows::new(rt.alloc());
    for line in rt.lines(rt.alloc()) {
        let line = line?;
        match rows.take_line(rt.alloc(), line.as_str()) {
            Ok(None) => {}
            Ok(Some(text)) => println!(rt; "{text}")?,
            Err(_) => return Err(io::Error::from(AllocError)),
        }
    }
    let (count, differing) = (rows.count(), rows.differing());
    println!(rt; "{count} rows, {differing} differ")
}

fn main(rt: HostRuntime) -> io::Result<()> {
    run(&rt)
}
