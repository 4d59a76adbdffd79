//! Why nothing is copied, and the line on standard error that says it. Names in it are put so that it stays one
//! line.

use cm_io::push_name;
use std::alloc::{AllocError, Global};
use wasm_tree::ModuleFail;

/// Why nothing is copied.
#[derive(Drop)]
pub enum Stop {
    /// The words aren't one name, two, or two and `check`.
    Usage,
    /// A word isn't UTF-8.
    NotText,
    CannotRead,
    TooBig,
    NoMemory,
    Module(ModuleFail),
    CannotWrite,
}

/// The line of it. `from` and `to` are the names of the files.
pub fn line_of(alloc: Global, stop: &Stop, from: &str, to: &str) -> Result<Vec<u8>, AllocError> {
    match stop {
        Stop::Usage => words_line(alloc, "usage: wasm_copy IN [OUT [check]]", ""),
        Stop::NotText => words_line(alloc, "a name isn't UTF-8", ""),
        Stop::CannotRead => words_line(alloc, "can't read ", from),
        Stop::TooBig => words_line(alloc, "too big ", from),
        Stop::NoMemory | Stop::Module(ModuleFail::NoMemory) => words_line(alloc, "no memory", ""),
        Stop::Module(ModuleFail::Refused(refused)) => {
            let (rule, offset) = (refused.rule, refused.offset);
            let words = format!(in alloc; "refused {rule:?} {offset}")?;
            words_line(alloc, words.as_str(), "")
        }
        Stop::CannotWrite => words_line(alloc, "can't write ", to),
    }
}

fn words_line(alloc: Global, words: &str, name: &str) -> Result<Vec<u8>, AllocError> {
    let mut line = Vec::from_slice(alloc, words.as_bytes())?;
    push_name(&mut line, name)?;
    line.push(b'\n')?;
    Ok(line)
}
