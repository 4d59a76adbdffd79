ghost use Rattle.std.specs.Prelude.{◌≡◌, [], ◌≤◌, ◌<◌, ◌^◌, ℕ, length, drop, IfOk};
ghost use Rattle.cm_tree.specs.declared.expr.Expr.{Expr as Tree};
ghost use Rattle.token_reader.specs.Parsers.{Reads};
ghost use Rattle.cm_parse_expr.specs.Reading as spec;
ghost use Rattle.cm_base.specs.Answers.{IfRefused, IsOkUnlessMemory};
ghost use Rattle.cm_parse_expr.specs.Answer.{IsExprAt, IsExprRefusal};

use crate::grammar::{args, expr};
use cm_base::{Cause, Fail, Items};
use cm_tree::{Expr, Tokens};
use std::alloc::Global;
use token_reader::{Cursor, Stop};

/// How high a tree may be: docs/LANGUAGE.md, "Limits".
const MAX_HEIGHT: u16 = 256;

/// An expression that is no higher than `room`: docs/LANGUAGE.md, "Expressions".
pub fn read_expr(tokens: &mut Cursor<'_>, room: u16) -> Result<Expr, Stop>
    ensures { Reads (spec.expr room tokens.old) result tokens.new }
{
    let found = expr(tokens, room)?;
    Ok(found.into_tree())
}

/// Values in parentheses, each no higher than `room`.
pub fn read_args(tokens: &mut Cursor<'_>, room: u16) -> Result<Items<Expr>, Stop>
    ensures { Reads (spec.args (spec.expr room) (spec.binary room) tokens.old) result tokens.new }
{
    let found = args(tokens, room)?;
    Ok(found.into_list())
}

/// The expression that begins at a token and that the next token doesn't continue, and the position after it. It is
/// refused where there is none of height 256 at most, with the cause `Grammar` and a place through which no such
/// expression begins: docs/LANGUAGE.md, "Faults of the grammar".
pub fn parse_expr(alloc: Global, tokens: &Tokens, from: u32) -> Result<(Expr, u32), Fail>
    requires few { length tokens.now.list < 2 ^ 31 }
    requires from { from ≤ length tokens.now.list }
    ensures found { IfOk result (IsExprAt tokens.now.list from) }
    // The expression is found, and there is no other one.
    ensures only { (whole : Tree × ℕ) → IsExprAt tokens.now.list from whole → IsOkUnlessMemory result (λ found. found ≡ whole) }
    ensures refused { IfRefused result (IsExprRefusal (drop from tokens.now.list) tokens.now.last) }
{
    let list = tokens.list.as_slice();
    let (_before, rest) = list.split_at(from as usize);
    let mut cursor = Cursor::new(alloc, rest);
    match read_expr(&mut cursor, MAX_HEIGHT) {
        Ok(found) => Ok((found, (list.len() - cursor.left()) as u32)),
        Err(Stop::Here) => Err(Fail::refused(alloc, Cause::Grammar, cursor.place_or(tokens.last))),
        Err(Stop::NoMemory) => Err(Fail::NoMemory),
    }
}
