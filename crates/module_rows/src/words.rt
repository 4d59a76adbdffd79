// Bytes and numbers in the words of rows.

use cm_base::NoMemory;
use hex::{FromHexError, decode};
use std::alloc::Global;

/// A word as an answer.
pub fn told(alloc: Global, word: &str) -> Result<Option<String>, NoMemory> {
    Ok(Some(String::from_str(alloc, word)?))
}

/// The bytes that hexadecimal digits spell, if they do.
pub fn bytes_of(alloc: Global, text: &str) -> Result<Option<Vec<u8>>, NoMemory> {
    match decode(alloc, text) {
        Ok(bytes) => Ok(Some(bytes)),
        Err(FromHexError::OutOfMemory) => Err(NoMemory),
        Err(_) => Ok(None),
    }
}

/// The two numbers before and behind the first space, if there are such.
pub fn pair_of(text: &str) -> Option<(u32, u32)> {
    let (first, second) = text.split_once(' ')?;
    match (first.parse::<u32>(), second.parse::<u32>()) {
        (Ok(first), Ok(second)) => Some((first, second)),
        _ => None,
    }
}
