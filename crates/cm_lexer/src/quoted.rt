ghost use Rattle.std.specs.Prelude.{◌≡◌, ◌≤◌, ◌<◌, ◌^◌, length, IfOk};
ghost use Rattle.cm_tree.specs.Pieces as piece;
ghost use Rattle.cm_lexer.specs.Scan as spec;
ghost use Rattle.cm_lexer.specs.Found.{Gives};

use crate::bytes::byte_at;
use crate::piece::Piece;
use cm_base::{Bytes, Cause, NoMemory};
use cm_tree::TokenKind;
use std::alloc::Global;

fn is_plain(byte: u8) -> bool
    ensures { result ≡ piece.is_plain byte }
{
    byte != b'"' && byte != b'\\' && byte != b'\n'
}

fn is_escape(byte: u8) -> bool
    ensures { result ≡ piece.is_escape byte }
{
    byte == b'"' || byte == b'\\' || byte == b'n' || byte == b't'
}

/// How long the plain byte or the escape at the front is, or 0 where there is none.
#[tactic(auto, unfolding(crate::specs::Scan::item_len))]
fn item_len(text: &[u8]) -> usize
    ensures value { result ≡ spec.item_len text.now }
    ensures within { result ≤ length text.now }
{
    match text {
        [byte, ..] if is_plain(*byte) => 1,
        [b'\\', byte, ..] if is_escape(*byte) => 2,
        _ => 0,
    }
}

/// How long the plain bytes and escapes at the front are.
fn body_len(mut text: &[u8]) -> usize
    requires { length text.now < 2 ^ 31 }
    ensures value { result ≡ spec.body_len text.entry.now }
    ensures within { result ≤ length text.entry.now }
{
    let mut len = 0;
    let mut item = item_len(text);
    while item > 0 {
        len += item;
        let (_item, others) = text.split_at(item);
        text = others;
        item = item_len(text);
    }
    len
}

/// The string at the front of a text that begins with `"`.
#[tactic(auto, unfolding(crate::specs::Scan::scan_quoted))]
pub fn scan_quoted(alloc: Global, text: &[u8]) -> Result<Piece, NoMemory>
    requires some { 0 < length text.now }
    requires room { length text.now < 2 ^ 31 }
    ensures { IfOk result (λ piece. Gives piece (spec.scan_quoted text.now)) }
{
    let body = body_len(&text[1..]);
    match byte_at(text, body + 1) {
        b'"' => {
            let quoted = Bytes::from_slice(alloc, &text[..body + 2])?;
            Ok(Piece::Token(TokenKind::Text(quoted), body + 2))
        }
        b'\\' => Ok(Piece::Fault(Cause::BadEscape, body + 1)),
        _ => Ok(Piece::Fault(Cause::OpenString, 0)),
    }
}
