// What lexer and parsers answer, in the words of rows.

use crate::written::push_expr;
use cm_base::{Fail, NoMemory};
use cm_lexer::lex;
use cm_parse_expr::parse_expr;
use cm_parser::parse;
use cm_tree::{Expr, File, Token, TokenKind, Tokens};
use std::alloc::{AllocError, Global};

/// The cause and the place of a refusal, as `Grammar 2:29`.
pub fn refusal_of(alloc: Global, fail: &Fail) -> Result<String, AllocError> {
    match fail {
        Fail::Refused(refused) => {
            let cause = refused.cause;
            let (line, column) = (refused.place.line, refused.place.column);
            format!(in alloc; "{cause:?} {line}:{column}")
        }
        Fail::NoMemory => String::from_str(alloc, "no memory"),
    }
}

/// The tokens of a text, or the answer of its refusal.
pub fn tokens_of(alloc: Global, bytes: &[u8]) -> Result<Tokens, Fail> {
    if bytes.len() < 1 << 31 {
        lex(alloc, 1, bytes)
    } else {
        Err(Fail::from(NoMemory))
    }
}

/// The file that the tokens spell.
pub fn read(alloc: Global, tokens: &Tokens) -> Result<File, Fail> {
    if tokens.list.len() < 1 << 31 {
        parse(alloc, tokens)
    } else {
        Err(Fail::from(NoMemory))
    }
}

/// `file` where the text is one, and else the cause and the place of its refusal.
pub fn file_answer(alloc: Global, bytes: &[u8]) -> Result<String, AllocError> {
    let tokens = match tokens_of(alloc, bytes) {
        Ok(tokens) => tokens,
        Err(fail) => return refusal_of(alloc, &fail),
    };
    match read(alloc, &tokens) {
        Ok(_) => String::from_str(alloc, "file"),
        Err(fail) => refusal_of(alloc, &fail),
    }
}

/// Appends the piece of the text that a token is.
fn push_piece(line: &mut String, token: &Token, bytes: &[u8]) -> Result<(), AllocError> {
    let piece = bytes.get(token.start as usize..token.end as usize);
    match std::str::from_utf8(piece.unwrap_or(b"?")) {
        Ok(text) => line.push_str(text),
        Err(_) => line.push('?'),
    }
}

/// Appends a token: a name, a string or a sign as it stands in the text, a number by its value, with an `L` behind it where it is an
/// `int64`, and a reserved word by its variant with an `@` before it.
fn push_token(line: &mut String, token: &Token, bytes: &[u8]) -> Result<(), AllocError> {
    match &token.kind {
        TokenKind::Number { value, wide } => {
            let suffix = if *wide { "L" } else { "" };
            write!(line, "{value}{suffix}")
        }
        TokenKind::Reserved(word) => write!(line, "@{word:?}"),
        _ => push_piece(line, token, bytes),
    }
}

/// The tokens of the text with spaces between them, `nothing` where there are none, or the cause and the place of its refusal.
pub fn tokens_answer(alloc: Global, bytes: &[u8]) -> Result<String, AllocError> {
    let tokens = match tokens_of(alloc, bytes) {
        Ok(tokens) => tokens,
        Err(fail) => return refusal_of(alloc, &fail),
    };
    if tokens.list.is_empty() {
        return String::from_str(alloc, "nothing");
    }
    let mut line = String::new(alloc);
    for token in tokens.list.as_slice() {
        if !line.is_empty() {
            line.push(' ')?;
        }
        push_token(&mut line, token, bytes)?;
    }
    Ok(line)
}

/// The expression that the tokens begin with, and how many tokens stand behind it.
fn read_expression(alloc: Global, tokens: &Tokens) -> Result<(Expr, usize), Fail> {
    let count = tokens.list.len();
    if count < 1 << 31 {
        let (expr, end) = parse_expr(alloc, tokens, 0)?;
        Ok((expr, count.saturating_sub(end as usize)))
    } else {
        Err(Fail::from(NoMemory))
    }
}

/// The expression that the text begins with, and how many tokens stand behind it where some do, or the cause and the place of
/// its refusal.
pub fn expression_answer(alloc: Global, bytes: &[u8]) -> Result<String, AllocError> {
    let tokens = match tokens_of(alloc, bytes) {
        Ok(tokens) => tokens,
        Err(fail) => return refusal_of(alloc, &fail),
    };
    let (expr, left) = match read_expression(alloc, &tokens) {
        Ok(found) => found,
        Err(fail) => return refusal_of(alloc, &fail),
    };
    let mut line = String::new(alloc);
    push_expr(&mut line, &expr)?;
    if left > 0 {
        write!(line, " then {left}")?;
    }
    Ok(line)
}

/// How many tokens the expression has that is the whole text, or the cause and the place of its refusal.
pub fn extent_answer(alloc: Global, bytes: &[u8]) -> Result<String, AllocError> {
    let tokens = match tokens_of(alloc, bytes) {
        Ok(tokens) => tokens,
        Err(fail) => return refusal_of(alloc, &fail),
    };
    match read_expression(alloc, &tokens) {
        Ok((_expr, left)) => {
            let count = tokens.list.len().saturating_sub(left);
            format!(in alloc; "{count}")
        }
        Err(fail) => refusal_of(alloc, &fail),
    }
}
