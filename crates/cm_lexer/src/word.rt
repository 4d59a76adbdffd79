ghost use Rattle.std.specs.Prelude.{◌≡◌, IfOk};
ghost use Rattle.cm_tree.specs.Pieces.{Passes, is_word_byte};
ghost use Rattle.cm_lexer.specs.Scan as spec;
ghost use Rattle.cm_lexer.specs.Found.{Gives};

use crate::bytes::word_len;
use crate::piece::Piece;
use crate::table::entry;
use cm_base::{Cause, Name, NoMemory};
use cm_tree::{Reserved, TokenKind};
use std::alloc::Global;

const RESERVED: [(&[u8], Reserved); 31] = [
    (b"namespace", Reserved::Namespace),
    (b"processor", Reserved::Processor),
    (b"graph", Reserved::Graph),
    (b"struct", Reserved::Struct),
    (b"using", Reserved::Using),
    (b"let", Reserved::Let),
    (b"var", Reserved::Var),
    (b"input", Reserved::Input),
    (b"output", Reserved::Output),
    (b"event", Reserved::Event),
    (b"node", Reserved::Node),
    (b"connection", Reserved::Connection),
    (b"if", Reserved::If),
    (b"else", Reserved::Else),
    (b"loop", Reserved::Loop),
    (b"while", Reserved::While),
    (b"for", Reserved::For),
    (b"break", Reserved::Break),
    (b"continue", Reserved::Continue),
    (b"return", Reserved::Return),
    (b"advance", Reserved::Advance),
    (b"void", Reserved::Void),
    (b"bool", Reserved::Bool),
    (b"int", Reserved::Int),
    (b"int32", Reserved::Int32),
    (b"int64", Reserved::Int64),
    (b"wrap", Reserved::Wrap),
    (b"clamp", Reserved::Clamp),
    (b"true", Reserved::True),
    (b"false", Reserved::False),
    (b"static_assert", Reserved::StaticAssert),
];

const REFUSED: [(&[u8], Cause); 11] = [
    (b"float", Cause::Float),
    (b"float32", Cause::Float),
    (b"float64", Cause::Float),
    (b"complex", Cause::Float),
    (b"complex32", Cause::Float),
    (b"complex64", Cause::Float),
    (b"string", Cause::OutOfProfile),
    (b"enum", Cause::OutOfProfile),
    (b"external", Cause::OutOfProfile),
    (b"const", Cause::OutOfProfile),
    (b"import", Cause::OutOfProfile),
];

#[tactic(auto, using(crate::proofs::Texts::word_utf8))]
fn name_of(alloc: Global, word: &[u8]) -> Result<Name, NoMemory>
    requires { Passes is_word_byte word.now }
    ensures { IfOk result (λ name. name ≡ word.now) }
{
    match std::str::from_utf8(word) {
        Ok(text) => Ok(Name::from_str(alloc, text)?),
        Err(_) => unreachable!(),
    }
}

/// The word at the front of a text that begins with a letter or `_`.
#[tactic(auto, unfolding(crate::specs::Scan::scan_word, cm_tree::specs::Pieces::reserved_words, cm_tree::specs::Pieces::refused_words))]
pub fn scan_word(alloc: Global, text: &[u8]) -> Result<Piece, NoMemory>
    ensures { IfOk result (λ piece. Gives piece (spec.scan_word text.now)) }
{
    let len = word_len(text);
    let word = &text[..len];
    if let Some(reserved) = entry(&RESERVED, word) {
        return Ok(Piece::Token(TokenKind::Reserved(reserved), len));
    }
    if let Some(cause) = entry(&REFUSED, word) {
        return Ok(Piece::Fault(cause, 0));
    }
    Ok(Piece::Token(TokenKind::Word(name_of(alloc, word)?), len))
}
