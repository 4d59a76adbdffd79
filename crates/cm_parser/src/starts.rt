ghost use Rattle.std.specs.Prelude.{◌≡◌};
ghost use Rattle.cm_parser.specs.StmtStarts as spec;

use cm_tree::{Reserved, Sign, TokenKind};

/// What a statement begins with.
#[derive(Clone, Copy, Debug)]
pub enum StmtStart {
    /// `++` or `--`
    Step,
    /// A base type.
    Base,
    Name,
    Opening(Opening),
}

/// The word or the sign that tells what a statement is.
#[derive(Clone, Copy, Debug)]
pub enum Opening {
    Block,
    Empty,
    Let,
    Var,
    Assert,
    If,
    Loop,
    While,
    For,
    Break,
    Continue,
    Return,
    Advance,
}

fn reserved_start(word: Reserved) -> Option<StmtStart>
    ensures { result ≡ spec.reserved_start word }
{
    match word {
        Reserved::Bool
        | Reserved::Int
        | Reserved::Int32
        | Reserved::Int64
        | Reserved::Wrap
        | Reserved::Clamp => Some(StmtStart::Base),
        Reserved::Let => Some(StmtStart::Opening(Opening::Let)),
        Reserved::Var => Some(StmtStart::Opening(Opening::Var)),
        Reserved::StaticAssert => Some(StmtStart::Opening(Opening::Assert)),
        Reserved::If => Some(StmtStart::Opening(Opening::If)),
        Reserved::Loop => Some(StmtStart::Opening(Opening::Loop)),
        Reserved::While => Some(StmtStart::Opening(Opening::While)),
        Reserved::For => Some(StmtStart::Opening(Opening::For)),
        Reserved::Break => Some(StmtStart::Opening(Opening::Break)),
        Reserved::Continue => Some(StmtStart::Opening(Opening::Continue)),
        Reserved::Return => Some(StmtStart::Opening(Opening::Return)),
        Reserved::Advance => Some(StmtStart::Opening(Opening::Advance)),
        _ => None,
    }
}

/// What a statement that begins with this token begins with, if one does.
pub fn stmt_start(kind: &TokenKind) -> Option<StmtStart>
    ensures { result ≡ spec.stmt_start kind.now }
{
    match kind {
        TokenKind::Sign(Sign::LeftBrace) => Some(StmtStart::Opening(Opening::Block)),
        TokenKind::Sign(Sign::Semicolon) => Some(StmtStart::Opening(Opening::Empty)),
        TokenKind::Sign(Sign::PlusPlus | Sign::MinusMinus) => Some(StmtStart::Step),
        TokenKind::Reserved(word) => reserved_start(*word),
        TokenKind::Word(_) => Some(StmtStart::Name),
        _ => None,
    }
}
