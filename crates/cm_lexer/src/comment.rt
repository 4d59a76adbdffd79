ghost use Rattle.std.specs.Prelude.{◌≡◌, ◌≤◌, ◌<◌, ◌+◌, ◌^◌, ◌==◌, ◌&&◌, length, slice_index, IfSome};
ghost use Rattle.cm_lexer.specs.Scan as spec;
ghost use Rattle.cm_lexer.specs.Found.{Gives};

use crate::bytes::{byte_at, line_len};
use crate::piece::Piece;
use crate::sign::scan_sign;
use cm_base::Cause;

/// Whether `*/` stands at this index.
fn closes_at(text: &[u8], at: usize) -> bool
    requires { at < length text.now }
    ensures { result ≡ (slice_index text.now at == 42 && slice_index text.now (at + 1) == 47) }
{
    text[at] == b'*' && byte_at(text, at + 1) == b'/'
}

/// How many bytes there are up to the first `*/`, with it.
fn close_len(text: &[u8]) -> Option<usize>
    requires { length text.now < 2 ^ 31 }
    ensures value { result ≡ spec.close_len text.now }
    ensures within { IfSome result (λ len. len ≤ length text.now) }
{
    for at in 0..text.len() {
        if closes_at(text, at) {
            return Some(at + 2);
        }
    }
    None
}

/// The comment at the front of a text that begins with `/`, or else the sign.
#[tactic(auto, unfolding(crate::specs::Scan::scan_slash))]
pub fn scan_slash(text: &[u8]) -> Piece
    requires some { 0 < length text.now }
    requires room { length text.now < 2 ^ 31 }
    ensures { Gives result (spec.scan_slash text.now) }
{
    match byte_at(text, 1) {
        b'/' => Piece::Gap(line_len(text)),
        b'*' => match close_len(&text[2..]) {
            Some(len) => Piece::Gap(len + 2),
            None => Piece::Fault(Cause::OpenComment, 0),
        },
        _ => scan_sign(text),
    }
}
