// Rows that ask for the value of an expression.

use crate::halt::{Halt, Slip};
use crate::names::Names;
use crate::words::told;
use crate::written::value_text;
use cm_base::{Fail, Refused};
use cm_lexer::lex;
use cm_parse_expr::parse_expr;
use cm_tree::{Expr, Tokens};
use const_values::{Env, constant, is_constant};
use std::alloc::{AllocError, Global};

/// The tokens of a text.
fn tokens_of(alloc: Global, text: &str) -> Result<Tokens, Halt> {
    let bytes = text.as_bytes();
    if bytes.len() >= 1 << 31 {
        return Err(Halt::Slip(Slip::Expression));
    }
    match lex(alloc, 1, bytes) {
        Ok(tokens) => Ok(tokens),
        Err(Fail::Refused(_)) => Err(Halt::Slip(Slip::Expression)),
        Err(Fail::NoMemory) => Err(Halt::NoMemory),
    }
}

/// The expression that a text is.
fn expression_of(alloc: Global, text: &str) -> Result<Expr, Halt> {
    let tokens = tokens_of(alloc, text)?;
    if tokens.list.len() >= 1 << 31 {
        return Err(Halt::Slip(Slip::Expression));
    }
    match parse_expr(alloc, &tokens, 0) {
        Ok((expr, end)) => if end as usize == tokens.list.len() {
            Ok(expr)
        } else {
            Err(Halt::Slip(Slip::Expression))
        },
        Err(Fail::Refused(_)) => Err(Halt::Slip(Slip::Expression)),
        Err(Fail::NoMemory) => Err(Halt::NoMemory),
    }
}

/// The cause and the place of a refusal, as `TypeMismatch 1:5`.
fn refusal_text(alloc: Global, refused: &Refused) -> Result<String, AllocError> {
    let cause = refused.cause;
    let (line, column) = (refused.place.line, refused.place.column);
    format!(in alloc; "{cause:?} {line}:{column}")
}

/// `constant EXPRESSION`
fn constant_row(alloc: Global, names: &Names, text: &str) -> Result<String, Halt> {
    let expr = expression_of(alloc, text)?;
    let env = Env::none(alloc);
    match constant(alloc, &expr, &env, names) {
        Ok(found) => Ok(value_text(alloc, &found.ty, &found.value)?),
        Err(Fail::Refused(refused)) => Ok(refusal_text(alloc, &refused)?),
        Err(Fail::NoMemory) => Err(Halt::NoMemory),
    }
}

/// `form EXPRESSION`
fn form_row(alloc: Global, names: &Names, text: &str) -> Result<String, Halt> {
    let expr = expression_of(alloc, text)?;
    let env = Env::none(alloc);
    let is_so = is_constant(&expr, &env, names);
    Ok(told(alloc, is_so)?)
}

/// The answer of a row that asks for the value of an expression, by its first word and the others.
pub fn constant_answer(
    alloc: Global,
    names: &Names,
    word: &str,
    text: &str,
) -> Result<Option<String>, Halt> {
    if word == "constant" {
        return Ok(Some(constant_row(alloc, names, text)?));
    }
    if word == "form" {
        return Ok(Some(form_row(alloc, names, text)?));
    }
    Ok(None)
}
