ghost use Rattle.std.specs.Prelude.{◌≡◌, true, false};
ghost use Rattle.cm_tree.specs.declared.sign.Sign.TheVariants.{Comma};
ghost use Rattle.token_reader.specs.Parsers.{Reads, is_sign};
ghost use Rattle.token_reader.specs.Lists.{optional};
ghost use Rattle.file_grammar.specs.Stmts as spec;
ghost use Rattle.file_grammar.specs.declared.begun.Begun.TheVariants as begun;

use crate::simples::{change_target, simple_stmt, typed_local};
use crate::targets::begun_by_name;
use cm_base::{Boxed, Bytes, Place};
use cm_parse_expr::{read_expr, read_type};
use cm_tree::{Assert, Expr, Sign, Simple, Stmt, Target, TypeExpr};
use file_grammar::Begun;
use token_reader::{Cursor, Stop};

#[tactic(auto, unfolding(token_reader::specs::Lists::optional))]
fn optional_text(tokens: &mut Cursor<'_>) -> Result<Option<Bytes>, Stop>
    ensures { Reads (optional (is_sign Comma) spec.then_text tokens.old) result tokens.new }
{
    if !tokens.sees(Sign::Comma) {
        return Ok(None);
    }
    tokens.expect(Sign::Comma)?;
    let (_place, text) = tokens.text()?;
    Ok(Some(text))
}

/// What stands after `static_assert`, which stands at the place.
#[tactic(auto, unfolding(file_grammar::specs::Stmts::assertion))]
pub fn assertion(tokens: &mut Cursor<'_>, room: u16, place: Place) -> Result<Assert, Stop>
    ensures { Reads (spec.assertion room place tokens.old) result tokens.new }
{
    tokens.expect(Sign::LeftParenthesis)?;
    let condition = read_expr(tokens, room)?;
    let text = optional_text(tokens)?;
    tokens.expect(Sign::RightParenthesis)?;
    tokens.expect(Sign::Semicolon)?;
    Ok(Assert {
        place,
        condition,
        text,
    })
}

/// A value that may be missing, up to `;`.
#[tactic(auto, unfolding(file_grammar::specs::Stmts::value_up_to))]
pub fn value_up_to(tokens: &mut Cursor<'_>, room: u16) -> Result<Option<Expr>, Stop>
    ensures { Reads (spec.value_up_to room tokens.old) result tokens.new }
{
    if tokens.sees(Sign::Semicolon) {
        tokens.skip();
        return Ok(None);
    }
    let value = read_expr(tokens, room)?;
    tokens.expect(Sign::Semicolon)?;
    Ok(Some(value))
}

fn may_write(target: &Target, arrow: bool) -> bool
    ensures { result ≡ spec.may_write target.now arrow }
{
    arrow && target.steps.is_empty()
}

#[tactic(auto, unfolding(file_grammar::specs::Stmts::semicolon))]
fn write(tokens: &mut Cursor<'_>, room: u16, target: Target) -> Result<Stmt, Stop>
    ensures { Reads (spec.write_if room target true tokens.old) result tokens.new }
{
    tokens.skip();
    let value = read_expr(tokens, room)?;
    tokens.expect(Sign::Semicolon)?;
    Ok(Stmt::Write(target.name, value))
}

#[tactic(auto, unfolding(file_grammar::specs::Stmts::semicolon))]
fn change(tokens: &mut Cursor<'_>, room: u16, target: Target) -> Result<Stmt, Stop>
    ensures { Reads (spec.write_if room target false tokens.old) result tokens.new }
{
    let simple = change_target(tokens, room, target)?;
    tokens.expect(Sign::Semicolon)?;
    Ok(Stmt::Simple(simple))
}

#[tactic(auto, unfolding(file_grammar::specs::Stmts::semicolon))]
fn declaration(tokens: &mut Cursor<'_>, room: u16, ty: TypeExpr) -> Result<Stmt, Stop>
    ensures { Reads (spec.begun_stmt room (begun.Type ty) tokens.old) result tokens.new }
{
    let local = typed_local(tokens, room, ty)?;
    tokens.expect(Sign::Semicolon)?;
    Ok(Stmt::Local(local))
}

#[tactic(auto, unfolding(file_grammar::specs::Stmts::semicolon))]
fn begun_stmt(tokens: &mut Cursor<'_>, room: u16, begun: Begun) -> Result<Stmt, Stop>
    ensures { Reads (spec.begun_stmt room begun tokens.old) result tokens.new }
{
    match begun {
        Begun::Type(ty) => declaration(tokens, room, ty),
        Begun::Target(target) => {
            if may_write(&target, tokens.sees(Sign::LeftArrow)) {
                write(tokens, room, target)
            } else {
                change(tokens, room, target)
            }
        }
        Begun::Call(path, args) => {
            tokens.expect(Sign::Semicolon)?;
            Ok(Stmt::Simple(Simple::Call(path, args)))
        }
    }
}

/// A statement that begins with a name.
#[inline(never)]
#[tactic(auto, unfolding(file_grammar::specs::Stmts::named_stmt))]
pub fn named_stmt(tokens: &mut Cursor<'_>, room: u16) -> Result<Boxed<Stmt>, Stop>
    ensures { Reads (spec.named_stmt room tokens.old) result tokens.new }
{
    let begun = begun_by_name(tokens, room)?;
    let stmt = begun_stmt(tokens, room, begun)?;
    Ok(Boxed::new(tokens.alloc, stmt)?)
}

/// A declaration by a base type.
#[inline(never)]
#[tactic(auto, unfolding(file_grammar::specs::Stmts::based_stmt))]
pub fn based_stmt(tokens: &mut Cursor<'_>, room: u16) -> Result<Boxed<Stmt>, Stop>
    ensures { Reads (spec.based_stmt room tokens.old) result tokens.new }
{
    let ty = read_type(tokens, room)?;
    let stmt = declaration(tokens, room, ty)?;
    Ok(Boxed::new(tokens.alloc, stmt)?)
}

/// The third part of the head of a `for`.
#[tactic(auto, unfolding(file_grammar::specs::Stmts::third))]
pub fn third(tokens: &mut Cursor<'_>, room: u16) -> Result<Option<Simple>, Stop>
    ensures { Reads (spec.third room tokens.old) result tokens.new }
{
    if tokens.sees(Sign::RightParenthesis) {
        return Ok(None);
    }
    let simple = simple_stmt(tokens, room)?;
    Ok(Some(simple))
}
