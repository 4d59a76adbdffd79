use crate::halt::{Halt, Slip};
use std::alloc::{AllocError, Global};

/// The number of 32 bits that a word is.
pub fn small(word: &str) -> Result<u32, Halt> {
    match word.parse::<u32>() {
        Ok(found) => Ok(found),
        Err(_) => Err(Halt::Slip(Slip::Number)),
    }
}

/// The number that a word is, which may be negative.
pub fn number(word: &str) -> Result<i64, Halt> {
    match word.parse::<i64>() {
        Ok(found) => Ok(found),
        Err(_) => Err(Halt::Slip(Slip::Number)),
    }
}

/// The one word of a text.
pub fn one(text: &str) -> Result<&str, Halt> {
    if text.is_empty() || text.contains(' ') {
        Err(Halt::Slip(Slip::Line))
    } else {
        Ok(text)
    }
}

/// The first word of a text, and what stands behind the space after it.
pub fn first(text: &str) -> Result<(&str, &str), Halt> {
    match text.split_once(' ') {
        Some(found) => Ok(found),
        None => Err(Halt::Slip(Slip::Line)),
    }
}

/// `yes` or `no`.
pub fn told(alloc: Global, is_so: bool) -> Result<String, AllocError> {
    String::from_str(alloc, if is_so { "yes" } else { "no" })
}

/// A number, or `none`.
pub fn number_text(alloc: Global, found: Option<i64>) -> Result<String, AllocError> {
    match found {
        Some(number) => format!(in alloc; "{number}"),
        None => String::from_str(alloc, "none"),
    }
}
