ghost use Rattle.std.specs.Prelude.{◌≡◌, ◌<◌, ◌^◌, length, IfOk};
ghost use Rattle.cm_lexer.specs.Scan as spec;
ghost use Rattle.cm_lexer.specs.Found.{Gives, FitsIn};

use crate::bytes::{byte_at, digit_value, is_letter, is_space};
use crate::comment::scan_slash;
use crate::number::scan_number;
use crate::quoted::scan_quoted;
use crate::sign::scan_sign;
use crate::word::scan_word;
use cm_base::{Cause, NoMemory};
use cm_tree::TokenKind;
use std::alloc::Global;

/// What stands at the front of a text: a gap or a token with its length, or a fault with the count of its bytes before
/// the place.
#[derive(Debug, Drop)]
pub enum Piece {
    Gap(usize),
    Token(TokenKind, usize),
    Fault(Cause, usize),
}

#[tactic(auto, unfolding(crate::specs::Scan::scan))]
fn scan_by_first(alloc: Global, text: &[u8]) -> Result<Piece, NoMemory>
    requires some { 0 < length text.now }
    requires room { length text.now < 2 ^ 31 }
    ensures { IfOk result (λ piece. Gives piece (spec.scan text.now)) }
{
    let byte = byte_at(text, 0);
    if is_space(byte) {
        Ok(Piece::Gap(1))
    } else if byte == b'/' {
        Ok(scan_slash(text))
    } else if is_letter(byte) {
        scan_word(alloc, text)
    } else if digit_value(byte) < 10 {
        Ok(scan_number(text))
    } else if byte == b'"' {
        scan_quoted(alloc, text)
    } else {
        Ok(scan_sign(text))
    }
}

/// The longest piece at the front of a text.
#[tactic(auto, using(crate::proofs::Fitting::gives_fits))]
pub fn scan(alloc: Global, text: &[u8]) -> Result<Piece, NoMemory>
    requires some { 0 < length text.now }
    requires room { length text.now < 2 ^ 31 }
    ensures value { IfOk result (λ piece. Gives piece (spec.scan text.now)) }
    ensures fits { IfOk result (λ piece. FitsIn piece (length text.now)) }
{
    scan_by_first(alloc, text)
}
