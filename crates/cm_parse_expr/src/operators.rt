ghost use Rattle.std.specs.Prelude.{◌≡◌, ◌≤◌, Ok};
ghost use Rattle.cm_tree.specs.Levels.{binds};
ghost use Rattle.token_reader.specs.Parsers.{see};
ghost use Rattle.cm_parse_expr.specs.Reading as spec;

use crate::start::base_word_of;
use cm_tree::{Binary, Sign, TokenKind, Unary};
use token_reader::Cursor;

/// How tightly an operator binds: docs/LANGUAGE.md, "Expressions".
pub fn binds(operator: Binary) -> u8
    ensures level { result ≡ binds operator }
    ensures few { result ≤ 10 }
{
    match operator {
        Binary::Or => 1,
        Binary::And => 2,
        Binary::BitOr => 3,
        Binary::BitXor => 4,
        Binary::BitAnd => 5,
        Binary::Equal | Binary::NotEqual => 6,
        Binary::Less | Binary::LessEqual | Binary::Greater | Binary::GreaterEqual => 7,
        Binary::ShiftLeft | Binary::ShiftRight | Binary::ShiftRightZero => 8,
        Binary::Add | Binary::Subtract => 9,
        Binary::Multiply | Binary::Divide | Binary::Remainder => 10,
    }
}

/// The operator before an operand that this token is, if it is one.
pub fn unary_of(kind: &TokenKind) -> Option<Unary>
    ensures { result ≡ spec.unary_of kind.now }
{
    match kind {
        TokenKind::Sign(Sign::Minus) => Some(Unary::Minus),
        TokenKind::Sign(Sign::Exclamation) => Some(Unary::Not),
        TokenKind::Sign(Sign::Tilde) => Some(Unary::Complement),
        _ => None,
    }
}

fn operator_of(kind: &TokenKind) -> Option<Binary>
    ensures { result ≡ spec.operator_of kind.now }
{
    match kind {
        TokenKind::Sign(Sign::Or) => Some(Binary::Or),
        TokenKind::Sign(Sign::And) => Some(Binary::And),
        TokenKind::Sign(Sign::Bar) => Some(Binary::BitOr),
        TokenKind::Sign(Sign::Caret) => Some(Binary::BitXor),
        TokenKind::Sign(Sign::Ampersand) => Some(Binary::BitAnd),
        TokenKind::Sign(Sign::Equal) => Some(Binary::Equal),
        TokenKind::Sign(Sign::NotEqual) => Some(Binary::NotEqual),
        TokenKind::Sign(Sign::Less) => Some(Binary::Less),
        TokenKind::Sign(Sign::LessEqual) => Some(Binary::LessEqual),
        TokenKind::Sign(Sign::Greater) => Some(Binary::Greater),
        TokenKind::Sign(Sign::GreaterEqual) => Some(Binary::GreaterEqual),
        TokenKind::Sign(Sign::ShiftLeft) => Some(Binary::ShiftLeft),
        TokenKind::Sign(Sign::ShiftRight) => Some(Binary::ShiftRight),
        TokenKind::Sign(Sign::ShiftRightZero) => Some(Binary::ShiftRightZero),
        TokenKind::Sign(Sign::Plus) => Some(Binary::Add),
        TokenKind::Sign(Sign::Minus) => Some(Binary::Subtract),
        TokenKind::Sign(Sign::Star) => Some(Binary::Multiply),
        TokenKind::Sign(Sign::Slash) => Some(Binary::Divide),
        TokenKind::Sign(Sign::Percent) => Some(Binary::Remainder),
        _ => None,
    }
}

/// The operator between operands that the next token is, if it is one.
#[tactic(auto, unfolding(crate::specs::Reading::operator))]
pub fn operator(tokens: &Cursor<'_>) -> Option<Binary>
    ensures { result ≡ spec.operator tokens.now }
{
    match tokens.peek() {
        Some(token) => operator_of(&token.kind),
        None => None,
    }
}

/// Whether the next token begins a base type.
#[tactic(auto, unfolding(token_reader::specs::Parsers::sees, token_reader::specs::Parsers::see))]
pub fn sees_base(tokens: &Cursor<'_>) -> bool
    ensures { see spec.begins_base tokens.now ≡ Ok (result, tokens.now) }
{
    match tokens.peek() {
        Some(token) => base_word_of(&token.kind).is_some(),
        None => false,
    }
}
