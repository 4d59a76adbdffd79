ghost use Rattle.std.specs.Prelude.{◌≡◌, ◌≤◌, ◌<◌, ◌+◌, ◌^◌, length, nat_lt, pos, Some, None, true, false, if◌then◌else◌};
ghost use Rattle.std.specs.Str.Parse.{digits_value};
ghost use Rattle.cm_tree.specs.Pieces as piece;
ghost use Rattle.cm_lexer.specs.Scan as spec;
ghost use Rattle.cm_lexer.specs.Found.{Gives, suffix_of};

use crate::bytes::{byte_at, digit_value, digits_len, word_len};
use crate::piece::Piece;
use crate::table::entry;
use cm_base::Cause;
use cm_number::{wrap32, wrap64};
use cm_tree::TokenKind;

/// What a suffix says of the type of a number: nothing, `int32` or `int64`.
#[derive(Clone, Copy, Debug)]
pub enum Suffix {
    Unmarked,
    Narrow,
    Wide,
}

const SUFFIXES: [(&[u8], Suffix); 7] = [
    (b"", Suffix::Unmarked),
    (b"L", Suffix::Wide),
    (b"_L", Suffix::Wide),
    (b"i64", Suffix::Wide),
    (b"_i64", Suffix::Wide),
    (b"i32", Suffix::Narrow),
    (b"_i32", Suffix::Narrow),
];

/// The value of the digits, where it is below 2^64.
fn value(radix: u64, digits: &[u8]) -> Option<u64>
    requires { 0 < radix }
    ensures { result ≡ (if nat_lt (digits_value radix digits.now) (2 ^ 64) then Some (digits_value radix digits.now) else None) }
{
    let mut value: u64 = 0;
    for digit in digits {
        value = value.checked_mul(radix)?.checked_add(digit_value(*digit))?;
    }
    Some(value)
}

/// The values of numbers are below this.
fn limit(radix: u64, suffix: Suffix) -> u128
    ensures { result ≡ piece.limit radix (suffix_of suffix) }
{
    match suffix {
        Suffix::Narrow => 1 << 32,
        _ if radix == 10 => (1 << 63) + 1,
        _ => 1 << 64,
    }
}

/// Whether the type of a number is `int64`.
fn is_wide(radix: u64, value: u64, suffix: Suffix) -> bool
    ensures { result ≡ piece.is_wide radix value (suffix_of suffix) }
{
    match suffix {
        Suffix::Narrow => false,
        Suffix::Wide => true,
        Suffix::Unmarked if radix == 10 => 1 << 31 <= value,
        Suffix::Unmarked => 1 << 32 <= value,
    }
}

fn number(wide: bool, value: u64) -> TokenKind
    ensures { result ≡ piece.number wide value }
{
    let value = i128::from(value);
    TokenKind::Number {
        value: if wide {
            wrap64(value)
        } else {
            i64::from(wrap32(value))
        },
        wide,
    }
}

/// The number, where its value isn't too large.
fn sized(radix: u64, digits: &[u8], suffix: Suffix) -> Option<TokenKind>
    requires { 0 < radix }
    ensures { result ≡ spec.sized (record { radix = radix; value = digits_value radix digits.now; suffix = suffix_of suffix }) }
{
    let value = value(radix, digits)?;
    (u128::from(value) < limit(radix, suffix)).then(|| number(is_wide(radix, value, suffix), value))
}

/// The number of a text that is a letter, digits and `_` from a digit on.
#[tactic(auto, unfolding(crate::specs::Scan::literal_piece, cm_tree::specs::Pieces::suffixes))]
fn literal(radix: u64, digits_on: &[u8], len: usize) -> Piece
    requires { 0 < radix }
    ensures { Gives result (record { piece = spec.literal_piece radix digits_on.now; len = len }) }
{
    let (digits, after) = digits_on.split_at(digits_len(radix, digits_on));
    if digits.is_empty() {
        return Piece::Fault(Cause::BadLiteral, 0);
    }
    match entry(&SUFFIXES, after) {
        Some(suffix) => match sized(radix, digits, suffix) {
            Some(kind) => Piece::Token(kind, len),
            None => Piece::Fault(Cause::LiteralSize, 0),
        },
        None => Piece::Fault(Cause::BadLiteral, 0),
    }
}

/// The number of a text of letters, digits and `_` that begins with a digit.
#[tactic(auto, unfolding(crate::specs::Scan::word_literal))]
fn word_literal(word: &[u8]) -> Piece
    ensures { Gives result (record { piece = spec.word_literal word.now; len = length word.now }) }
{
    match word {
        [b'0', b'x', digits_on @ ..] => literal(16, digits_on, word.len()),
        [b'0', b'b', digits_on @ ..] => literal(2, digits_on, word.len()),
        _ => literal(10, word, word.len()),
    }
}

/// How long what makes a floating-point number is behind its digits, or 0 where it is none.
#[tactic(auto, unfolding(crate::specs::Scan::tail_len))]
fn tail_len(text: &[u8]) -> usize
    ensures value { result ≡ spec.tail_len text.now }
    ensures within { result ≤ length text.now }
{
    match text {
        [b'.', digit, ..] if digit.is_ascii_digit() => 2,
        [b'e' | b'E', digit, ..] if digit.is_ascii_digit() => 2,
        [b'e' | b'E', b'+' | b'-', digit, ..] if digit.is_ascii_digit() => 3,
        [b'f', ..] => 1,
        [b'_', b'f', ..] => 2,
        _ => 0,
    }
}

/// The number at the front of a text that begins with a digit.
#[tactic(auto, unfolding(crate::specs::Scan::scan_number))]
pub fn scan_number(text: &[u8]) -> Piece
    ensures { Gives result (spec.scan_number text.now) }
{
    let digits = digits_len(10, text);
    if tail_len(&text[digits..]) > 0 {
        return Piece::Fault(Cause::Float, 0);
    }
    word_literal(&text[..word_len(text)])
}
