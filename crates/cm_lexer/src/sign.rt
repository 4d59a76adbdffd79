ghost use Rattle.std.specs.Prelude.{◌≡◌, ℕ, List, length, take, map, None, Some, MatchOption};
ghost use Rattle.std.specs.Str.{bytes_eq};
ghost use Rattle.cm_lexer.specs.Scan as spec;
ghost use Rattle.cm_lexer.specs.Found.{Gives};

use crate::piece::Piece;
use cm_base::Cause;
use cm_tree::{Sign, TokenKind};

/// The signs, each behind the longer ones that begin with it.
const SIGNS: [(&[u8], Sign); 49] = [
    (b">>>=", Sign::ShiftRightZeroAssign),
    (b"<<=", Sign::ShiftLeftAssign),
    (b">>=", Sign::ShiftRightAssign),
    (b">>>", Sign::ShiftRightZero),
    (b"::", Sign::DoubleColon),
    (b"->", Sign::Arrow),
    (b"<-", Sign::LeftArrow),
    (b"+=", Sign::PlusAssign),
    (b"-=", Sign::MinusAssign),
    (b"*=", Sign::StarAssign),
    (b"/=", Sign::SlashAssign),
    (b"%=", Sign::PercentAssign),
    (b"&=", Sign::AmpersandAssign),
    (b"|=", Sign::BarAssign),
    (b"^=", Sign::CaretAssign),
    (b"==", Sign::Equal),
    (b"!=", Sign::NotEqual),
    (b"<=", Sign::LessEqual),
    (b">=", Sign::GreaterEqual),
    (b"<<", Sign::ShiftLeft),
    (b">>", Sign::ShiftRight),
    (b"&&", Sign::And),
    (b"||", Sign::Or),
    (b"++", Sign::PlusPlus),
    (b"--", Sign::MinusMinus),
    (b"{", Sign::LeftBrace),
    (b"}", Sign::RightBrace),
    (b"(", Sign::LeftParenthesis),
    (b")", Sign::RightParenthesis),
    (b"[", Sign::LeftBracket),
    (b"]", Sign::RightBracket),
    (b",", Sign::Comma),
    (b";", Sign::Semicolon),
    (b":", Sign::Colon),
    (b".", Sign::Dot),
    (b"?", Sign::Question),
    (b"+", Sign::Plus),
    (b"-", Sign::Minus),
    (b"*", Sign::Star),
    (b"/", Sign::Slash),
    (b"%", Sign::Percent),
    (b"&", Sign::Ampersand),
    (b"|", Sign::Bar),
    (b"^", Sign::Caret),
    (b"~", Sign::Tilde),
    (b"!", Sign::Exclamation),
    (b"=", Sign::Assign),
    (b"<", Sign::Less),
    (b">", Sign::Greater),
];

/// Whether a sign stands at the front of a text. The first byte rules out most, at the cost of one comparison.
fn begins(sign: &[u8], text: &[u8]) -> bool
    ensures { result ≡ bytes_eq sign.now (take (length sign.now) text.now) }
{
    let [first, ..] = sign else {
        return true;
    };
    let [byte, ..] = text else {
        return false;
    };
    first == byte && text.starts_with(sign)
}

/// The first entry of the table whose text stands at the front: how long it is, and its sign.
fn begun_by(mut table: &[(&[u8], Sign)], text: &[u8]) -> Option<(usize, Sign)>
    ensures { MatchOption result (spec.begun_by (map (λ e. (e.0.now, e.1)) table.entry.now) text.now ≡ None)
        (λ found. (sign : List ℕ) × (spec.begun_by (map (λ e. (e.0.now, e.1)) table.entry.now) text.now ≡ Some (sign, found.1)) × (found.0 ≡ length sign)) }
{
    while let [first, others @ ..] = table {
        if begins(first.0, text) {
            return Some((first.0.len(), first.1));
        }
        table = others;
    }
    None
}

/// The longest sign at the front of a text.
#[tactic(auto, unfolding(crate::specs::Scan::scan_sign, cm_tree::specs::Pieces::signs))]
pub fn scan_sign(text: &[u8]) -> Piece
    ensures { Gives result (spec.scan_sign text.now) }
{
    match begun_by(&SIGNS, text) {
        Some((len, sign)) => Piece::Token(TokenKind::Sign(sign), len),
        None => Piece::Fault(Cause::BadByte, 0),
    }
}
