//! Rows of programs with the leaves, chains, order and latencies that they have, or the cause and the place of their
//! refusal. Without words the rows on standard input are tried, one line tells what comes out otherwise than a row
//! expects, and the last line has the counts; the status is 1 where a row differs. With the words `NAME COUNT` the
//! program of that generator is answered in brief, for benchmarks.
//!
//! It calls `is_consistent`, `flatten`, `order` and `fill` as the compiler does, over small programs that were worked
//! out by hand and over programs at the limits. So it shows that these calls succeed where memory is there, which no
//! contract can say. `stdin` begins with the notation of rows.
#![tactic(auto)]

mod answers;
mod building;
mod changing;
mod declared;
mod ends;
mod generating;
mod halt;
mod lines;
mod parts;
mod paths;
mod points;
mod report;
mod row;
mod types;
mod words;

use halt::Halt;
use report::{generated_answer, report_of};
use std::alloc::Global;
use std::env;
use std::io::{self, Read};
use std::process::ExitCode;
use std::rt::Env;

/// The words behind the program's name, with spaces between them.
fn words_of<R: Env + AllocGlobal>(rt: &R) -> io::Result<String> {
    let mut text = String::new(rt.alloc());
    for word in env::args(rt)?.skip(1) {
        if !text.is_empty() {
            text.push(' ')?;
        }
        text.push_str(word.as_str())?;
    }
    Ok(text)
}

/// Answers the program of a generator.
fn print_generated<R: Print + AllocGlobal>(rt: &R, words: &str) -> io::Result<bool> {
    match generated_answer(rt.alloc(), words) {
        Ok(lines) => {
            for line in lines.as_slice() {
                println!(rt; "{line}")?;
            }
            Ok(true)
        }
        Err(Halt::Slip(slip)) => {
            println!(rt; "no program: {slip:?}")?;
            Ok(false)
        }
        Err(Halt::NoMemory) => {
            println!(rt; "no memory")?;
            Ok(false)
        }
    }
}

/// Tries the rows on standard input.
fn print_rows<R: Print + Input + AllocGlobal>(rt: &R) -> io::Result<bool> {
    let text = io::read_to_string(rt.alloc(), rt.reader())?;
    match report_of(rt.alloc(), text.as_str()) {
        Ok(report) => {
            let (rows, differing) = (report.rows, report.differing);
            rt.print(report.text.as_str())?;
            println!(rt; "{rows} rows, {differing} differ")?;
            Ok(differing == 0)
        }
        Err(_) => {
            println!(rt; "no memory")?;
            Ok(false)
        }
    }
}

fn run<R: Print + Input + Env + AllocGlobal>(rt: &R) -> io::Result<bool> {
    let words = words_of(rt)?;
    if words.is_empty() {
        print_rows(rt)
    } else {
        print_generated(rt, words.as_str())
    }
}

fn main(rt: HostRuntime) -> ExitCode {
    match run(&rt) {
        Ok(true) => ExitCode::from(0),
        _ => ExitCode::from(1),
    }
}
