use crate::halt::{Halt, Slip};

/// The number that a word is.
pub fn number(word: &str) -> Result<u32, Halt> {
    match word.parse::<u32>() {
        Ok(found) => Ok(found),
        Err(_) => Err(Halt::Slip(Slip::Number)),
    }
}

/// The number that a word is, which may be negative.
pub fn signed(word: &str) -> Result<i64, Halt> {
    match word.parse::<i64>() {
        Ok(found) => Ok(found),
        Err(_) => Err(Halt::Slip(Slip::Number)),
    }
}

/// A number of parts, as 32 bits.
pub fn small(count: usize) -> Result<u32, Halt> {
    match u32::try_from(count) {
        Ok(found) => Ok(found),
        Err(_) => Err(Halt::Slip(Slip::Size)),
    }
}

/// The text in front of a part in brackets at the end, and the number in it, if there is such a part.
pub fn indexed(text: &str) -> Result<(&str, Option<i64>), Halt> {
    let Some((name, rest)) = text.split_once('[') else {
        return Ok((text, None));
    };
    match rest.strip_suffix(']') {
        Some(word) => match signed(word) {
            Ok(index) => Ok((name, Some(index))),
            Err(halt) => Err(halt),
        },
        None => Err(Halt::Slip(Slip::Number)),
    }
}
