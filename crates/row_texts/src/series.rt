// Counts and numbers in the lines of rows.

use std::alloc::{AllocError, Global};

/// The count before the first space and the text behind it, as in `250 (`; `None` where there is no space, or no `u32`
/// before it.
pub fn counted(text: &str) -> Option<(u32, &str)> {
    let (word, piece) = text.split_once(' ')?;
    match word.parse::<u32>() {
        Ok(count) => Some((count, piece)),
        Err(_) => None,
    }
}

/// The text in which the number stands in place of each `@`. It fails for want of memory alone.
pub fn numbered(alloc: Global, piece: &str, number: u32) -> Result<String, AllocError> {
    let mut line = String::new(alloc);
    let mut is_behind = false;
    for part in piece.split('@') {
        if is_behind {
            write!(line, "{number}")?;
        }
        is_behind = true;
        line.push_str(part)?;
    }
    Ok(line)
}

/// Bytes that are written as decimal numbers, or `None` where a word is none.
pub(crate) fn numbers(alloc: Global, text: &str) -> Result<Option<Vec<u8>>, AllocError> {
    let mut bytes = Vec::new(alloc);
    for word in text.split_ascii_whitespace() {
        match word.parse::<u8>() {
            Ok(byte) => bytes.push(byte)?,
            Err(_) => return Ok(None),
        }
    }
    Ok(Some(bytes))
}
