ghost use Rattle.std.specs.Prelude.{◌≡◌};
ghost use Rattle.cm_parse_expr.specs.Starts as spec;

use cm_tree::{Reserved, Sign, TokenKind};

/// What an atom begins with.
#[derive(Clone, Copy, Debug)]
pub enum Start {
    Number,
    Truth(bool),
    /// A base type.
    Base,
    Path,
    Parenthesis,
}

/// The word that a base type begins with.
#[derive(Clone, Copy, Debug)]
pub enum BaseWord {
    Plain(Plain),
    Counted(Counted),
}

/// A base type that is one word.
#[derive(Clone, Copy, Debug)]
pub enum Plain {
    Bool,
    Int,
    Int32,
    Int64,
}

/// The word of a base type with the count of its values.
#[derive(Clone, Copy, Debug)]
pub enum Counted {
    Wrap,
    Clamp,
}

/// What an atom that begins with this token is, if one does.
pub fn start_of(kind: &TokenKind) -> Option<Start>
    ensures { result ≡ spec.start_of kind.now }
{
    match kind {
        TokenKind::Number { .. } => Some(Start::Number),
        TokenKind::Reserved(Reserved::True) => Some(Start::Truth(true)),
        TokenKind::Reserved(Reserved::False) => Some(Start::Truth(false)),
        TokenKind::Reserved(
            Reserved::Bool
            | Reserved::Int
            | Reserved::Int32
            | Reserved::Int64
            | Reserved::Wrap
            | Reserved::Clamp,
        ) => Some(Start::Base),
        TokenKind::Word(_) => Some(Start::Path),
        TokenKind::Sign(Sign::LeftParenthesis) => Some(Start::Parenthesis),
        _ => None,
    }
}

/// The word of a base type that this token is, if it is one.
pub fn base_word_of(kind: &TokenKind) -> Option<BaseWord>
    ensures { result ≡ spec.base_word_of kind.now }
{
    match kind {
        TokenKind::Reserved(Reserved::Bool) => Some(BaseWord::Plain(Plain::Bool)),
        TokenKind::Reserved(Reserved::Int) => Some(BaseWord::Plain(Plain::Int)),
        TokenKind::Reserved(Reserved::Int32) => Some(BaseWord::Plain(Plain::Int32)),
        TokenKind::Reserved(Reserved::Int64) => Some(BaseWord::Plain(Plain::Int64)),
        TokenKind::Reserved(Reserved::Wrap) => Some(BaseWord::Counted(Counted::Wrap)),
        TokenKind::Reserved(Reserved::Clamp) => Some(BaseWord::Counted(Counted::Clamp)),
        _ => None,
    }
}
