ghost use Rattle.std.specs.Prelude.{◌+◌, true, false};
ghost use Rattle.token_reader.specs.Parsers.{Reads};
ghost use Rattle.cm_parse_expr.specs.Reading as spec;

use crate::base::SizedBase;
use crate::grammar::{climb, construct_of, operation, sized_base, sizes, steps, tail};
use crate::operators::sees_base;
use crate::paths::path;
use cm_tree::{Arg, Sign, TypeExpr};
use token_reader::{Cursor, Stop};

fn named_type(tokens: &mut Cursor<'_>, room: u16) -> Result<TypeExpr, Stop>
    ensures { Reads (spec.named_type (spec.expr room) (spec.binary room) tokens.old) result tokens.new }
{
    let path = path(tokens)?;
    let sizes = sizes(tokens, room)?;
    Ok(TypeExpr::Named(path, sizes.into_list()))
}

fn base_type(tokens: &mut Cursor<'_>, room: u16) -> Result<TypeExpr, Stop>
    ensures { Reads (spec.base_type (spec.expr room) (spec.binary room) tokens.old) result tokens.new }
{
    let ty = sized_base(tokens, room)?;
    let (base, sizes) = ty.into_parts();
    Ok(TypeExpr::Base(base, sizes))
}

#[tactic(auto, unfolding(crate::specs::Reading::type_one))]
fn type_one(tokens: &mut Cursor<'_>, room: u16) -> Result<TypeExpr, Stop>
    ensures { Reads (spec.type_one (spec.expr room) (spec.binary room) tokens.old) result tokens.new }
{
    if sees_base(tokens) {
        base_type(tokens, room)
    } else {
        named_type(tokens, room)
    }
}

/// A type that is no higher than `room`: docs/LANGUAGE.md, "Grammar".
pub fn read_type(tokens: &mut Cursor<'_>, room: u16) -> Result<TypeExpr, Stop>
    ensures { Reads (spec.type_expr room tokens.old) result tokens.new }
{
    if room == 0 {
        return Err(Stop::Here);
    }
    type_one(tokens, room - 1)
}

// The values after a base type, and the rest of the expression that they begin.
fn value_of(tokens: &mut Cursor<'_>, room: u16, ty: SizedBase) -> Result<Arg, Stop>
    ensures { Reads (spec.value_if (spec.expr room) (spec.binary room) (room + 1) ty true tokens.old) result tokens.new }
{
    let left = construct_of(tokens, room, ty)?;
    let left = steps(tokens, room, left)?;
    let left = climb(tokens, room, 1, left)?;
    let whole = tail(tokens, room, left)?;
    Ok(Arg::Value(whole.into_tree()))
}

#[tactic(auto, unfolding(crate::specs::Reading::base_arg))]
fn base_arg(tokens: &mut Cursor<'_>, room: u16) -> Result<Arg, Stop>
    ensures { Reads (spec.base_arg (spec.expr room) (spec.binary room) (room + 1) tokens.old) result tokens.new }
{
    let ty = sized_base(tokens, room)?;
    if tokens.sees(Sign::LeftParenthesis) {
        return value_of(tokens, room, ty);
    }
    let (base, sizes) = ty.into_parts();
    Ok(Arg::Type(base, sizes))
}

fn value(tokens: &mut Cursor<'_>, room: u16) -> Result<Arg, Stop>
    ensures { Reads (spec.arg_if (spec.expr room) (spec.binary room) (room + 1) false tokens.old) result tokens.new }
{
    let left = operation(tokens, room, 1)?;
    let whole = tail(tokens, room, left)?;
    Ok(Arg::Value(whole.into_tree()))
}

#[tactic(auto, unfolding(crate::specs::Reading::arg_one))]
fn arg_one(tokens: &mut Cursor<'_>, room: u16) -> Result<Arg, Stop>
    ensures { Reads (spec.arg_one (spec.expr room) (spec.binary room) (room + 1) tokens.old) result tokens.new }
{
    if sees_base(tokens) {
        base_arg(tokens, room)
    } else {
        value(tokens, room)
    }
}

/// An argument of a node that is no higher than `room`: docs/LANGUAGE.md, "Grammar".
pub fn read_arg(tokens: &mut Cursor<'_>, room: u16) -> Result<Arg, Stop>
    ensures { Reads (spec.arg room tokens.old) result tokens.new }
{
    if room == 0 {
        return Err(Stop::Here);
    }
    arg_one(tokens, room - 1)
}
