ghost use Rattle.std.specs.Prelude.{◌≡◌, [], ◌<◌, ◌+◌, ◌≤◌, ◌^◌, length, fold, take, IfOk};
ghost use Rattle.std.specs.Str.{IsUtf8};
ghost use Rattle.cm_tree.specs.Spans.{AreSpans};
ghost use Rattle.cm_tree.specs.Tokens.{IsTokens, IsLexFault};
ghost use Rattle.cm_base.specs.Answers.{IfRefused, IsOkUnlessMemory};
ghost use Rattle.cm_lexer.specs.Answer.{IsLexRefusal, HasNoFault};
ghost use Rattle.cm_lexer.specs.Moving.{moved};

use crate::pen::Pen;
use crate::piece::{Piece, scan};
use cm_base::{Cause, Fail, Items};
use cm_tree::{Token, Tokens};
use std::alloc::Global;

/// The tokens of a text that is UTF-8.
fn cut(alloc: Global, file: u32, bytes: &[u8]) -> Result<Tokens, Fail>
    requires room { length bytes.now < 2 ^ 31 }
    requires utf8 { IsUtf8 bytes.now }
    ensures found { IfOk result (λ tokens. IsTokens file bytes.now tokens) }
    ensures refused { IfRefused result (IsLexRefusal file bytes.now) }
{
    let mut list = Items::new(alloc);
    let mut rest = bytes;
    let mut pen = Pen::new(file);
    while !rest.is_empty() {
        let len = match scan(alloc, rest)? {
            Piece::Gap(len) => len,
            Piece::Token(kind, len) => {
                list.push(Token {
                    kind,
                    start: pen.offset,
                    end: pen.offset + len as u32,
                    place: pen.place,
                })?;
                len
            }
            Piece::Fault(cause, at) => {
                let (before, _after) = rest.split_at(at);
                return Err(Fail::refused(alloc, cause, pen.past(before).place));
            }
        };
        let (front, others) = rest.split_at(len);
        pen = pen.past(front);
        rest = others;
    }
    Ok(Tokens {
        list,
        last: pen.place,
    })
}

/// The tokens of the file with this number, in their order: each with its kind, its place and where it begins and ends. A name
/// or a string has the bytes from its beginning to its end. A file with a lexing fault is refused, with the cause and the place of
/// one: docs/LANGUAGE.md, "Tokens".
pub fn lex(alloc: Global, file: u32, bytes: &[u8]) -> Result<Tokens, Fail>
    requires { length bytes.now < 2 ^ 31 }
    ensures found { IfOk result (λ tokens. IsTokens file bytes.now tokens) }
    // The tokens of the file are found, and there is no other list of them.
    ensures only { (tokens : Tokens) → IsTokens file bytes.now tokens → IsOkUnlessMemory result (λ found. found ≡ tokens) }
    ensures spans { IfOk result (λ tokens. AreSpans bytes.now tokens.list) }
    ensures refused { IfRefused result (IsLexRefusal file bytes.now) }
    ensures no_fault { IfOk result (λ _. HasNoFault file bytes.now) }
{
    match std::str::from_utf8(bytes) {
        Ok(_) => cut(alloc, file, bytes),
        Err(error) => {
            let (valid, _invalid) = bytes.split_at(error.valid_up_to());
            Err(Fail::refused(alloc, Cause::BadByte, Pen::new(file).past(valid).place))
        }
    }
}
