use crate::reserved::Reserved;
use crate::sign::Sign;
use cm_base::{Bytes, Name, Place};

/// What a token is: docs/LANGUAGE.md, "Tokens".
#[derive(Debug, Drop)]
pub enum TokenKind {
    /// A name, with its text.
    Word(Name),
    /// A number with its value, and whether its type is `int64`; else it is `int32`.
    Number { value: i64, wide: bool },
    /// A string as it stands in the file, with its quotes and escapes.
    Text(Bytes),
    Reserved(Reserved),
    Sign(Sign),
}

/// A token, which is the bytes from `start` up to `end` of its file, and the place of its first byte.
#[derive(Debug, Drop)]
pub struct Token {
    pub kind: TokenKind,
    pub start: u32,
    pub end: u32,
    pub place: Place,
}
