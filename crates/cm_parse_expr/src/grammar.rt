ghost use Rattle.std.specs.Prelude.{◌+◌};
ghost use Rattle.cm_tree.specs.declared.sign.Sign.TheVariants.{Comma};
ghost use Rattle.token_reader.specs.Parsers.{Reads, is_sign};
ghost use Rattle.token_reader.specs.Lists.{separated};
ghost use Rattle.cm_parse_expr.specs.Reading as spec;

use crate::base::{SizedBase, TallBase};
use crate::exprs::Exprs;
use crate::fields::field;
use crate::numbers::number;
use crate::operators::{binds, operator, unary_of};
use crate::paths::path;
use crate::start::{BaseWord, Start, base_word_of, start_of};
use crate::tall::Tall;
use cm_base::Place;
use cm_tree::Sign;
use token_reader::{Cursor, Stop};

// The levels of a sum and of an operator before its operand: docs/LANGUAGE.md, "Expressions".
const SUM: u8 = 9;

const UNARY: u8 = 11;

// In each function `room` is how high the parts may be, one less than the whole. It is the whole's in `expr` and
// `binary`, which begin one level down: so the calls are nested no deeper than the height allows.

#[cycle(expr)]
#[tactic(auto, unfolding(crate::specs::Reading::bracketed))]
fn bracketed(tokens: &mut Cursor<'_>, room: u16) -> Result<Tall, Stop>
    ensures { Reads (spec.bracketed (spec.expr room) (spec.binary room) tokens.old) result tokens.new }
{
    tokens.expect(Sign::LeftBracket)?;
    let found = expr(tokens, room)?;
    tokens.expect(Sign::RightBracket)?;
    Ok(found)
}

#[cycle(expr)]
#[tactic(auto, unfolding(crate::specs::Reading::sizes))]
pub fn sizes(tokens: &mut Cursor<'_>, room: u16) -> Result<Exprs, Stop>
    ensures { Reads (spec.sizes (spec.expr room) (spec.binary room) tokens.old) result tokens.new }
{
    let mut found = Exprs::new(tokens.alloc);
    while tokens.sees(Sign::LeftBracket) {
        let size = bracketed(tokens, room)?;
        found.push(size)?;
    }
    Ok(found)
}

#[cycle(expr)]
fn values(tokens: &mut Cursor<'_>, room: u16) -> Result<Exprs, Stop>
    ensures { Reads (separated (is_sign Comma) (spec.expr room) tokens.old) result tokens.new }
{
    let mut found = Exprs::new(tokens.alloc);
    loop {
        let value = expr(tokens, room)?;
        found.push(value)?;
        if !tokens.sees(Sign::Comma) {
            return Ok(found);
        }
        tokens.skip();
    }
}

#[cycle(expr)]
#[tactic(auto, unfolding(crate::specs::Reading::args, token_reader::specs::Parsers::expect, token_reader::specs::Parsers::skip))]
pub fn args(tokens: &mut Cursor<'_>, room: u16) -> Result<Exprs, Stop>
    ensures { Reads (spec.args (spec.expr room) (spec.binary room) tokens.old) result tokens.new }
{
    tokens.expect(Sign::LeftParenthesis)?;
    if tokens.sees(Sign::RightParenthesis) {
        tokens.skip();
        return Ok(Exprs::new(tokens.alloc));
    }
    let found = values(tokens, room)?;
    tokens.expect(Sign::RightParenthesis)?;
    Ok(found)
}

#[cycle(expr)]
#[tactic(auto, unfolding(crate::specs::Reading::limit))]
fn limit(tokens: &mut Cursor<'_>, room: u16) -> Result<Tall, Stop>
    ensures { Reads (spec.limit (spec.expr room) (spec.binary room) tokens.old) result tokens.new }
{
    tokens.expect(Sign::Less)?;
    let found = binary(tokens, room, SUM)?;
    tokens.expect(Sign::Greater)?;
    Ok(found)
}

#[cycle(expr)]
fn base(tokens: &mut Cursor<'_>, room: u16) -> Result<TallBase, Stop>
    ensures { Reads (spec.base (spec.expr room) (spec.binary room) tokens.old) result tokens.new }
{
    let Some(token) = tokens.peek() else {
        return Err(Stop::Here);
    };
    let Some(word) = base_word_of(&token.kind) else {
        return Err(Stop::Here);
    };
    tokens.skip();
    match word {
        BaseWord::Plain(word) => Ok(TallBase::plain(token.place, word)),
        BaseWord::Counted(word) => {
            let count = limit(tokens, room)?;
            Ok(TallBase::counted(tokens.alloc, token.place, word, count)?)
        }
    }
}

#[cycle(expr)]
#[tactic(auto, unfolding(crate::specs::Reading::sized_base))]
pub fn sized_base(tokens: &mut Cursor<'_>, room: u16) -> Result<SizedBase, Stop>
    ensures { Reads (spec.sized_base (spec.expr room) (spec.binary room) tokens.old) result tokens.new }
{
    let base = base(tokens, room)?;
    let sizes = sizes(tokens, room)?;
    Ok(SizedBase::new(base, sizes))
}

#[cycle(expr)]
pub fn construct_of(tokens: &mut Cursor<'_>, room: u16, ty: SizedBase) -> Result<Tall, Stop>
    ensures { Reads (spec.construct_of (spec.expr room) (spec.binary room) (room + 1) ty tokens.old) result tokens.new }
{
    if ty.is_above(room) {
        return Err(Stop::Here);
    }
    let args = args(tokens, room)?;
    Ok(Tall::construct(ty, args))
}

#[cycle(expr)]
#[tactic(auto, unfolding(crate::specs::Reading::construct))]
fn construct(tokens: &mut Cursor<'_>, room: u16) -> Result<Tall, Stop>
    ensures { Reads (spec.construct (spec.expr room) (spec.binary room) (room + 1) tokens.old) result tokens.new }
{
    let ty = sized_base(tokens, room)?;
    construct_of(tokens, room, ty)
}

#[cycle(expr)]
#[tactic(auto, unfolding(crate::specs::Reading::named))]
fn named(tokens: &mut Cursor<'_>, room: u16) -> Result<Tall, Stop>
    ensures { Reads (spec.named (spec.expr room) (spec.binary room) (room + 1) tokens.old) result tokens.new }
{
    let path = path(tokens)?;
    if !tokens.sees(Sign::LeftParenthesis) {
        return Ok(Tall::name(path));
    }
    if room == 0 {
        return Err(Stop::Here);
    }
    let args = args(tokens, room)?;
    Ok(Tall::call(path, args))
}

#[cycle(expr)]
#[tactic(auto, unfolding(crate::specs::Reading::paren))]
fn paren(tokens: &mut Cursor<'_>, room: u16, place: Place) -> Result<Tall, Stop>
    ensures { Reads (spec.paren (spec.expr room) (spec.binary room) place tokens.old) result tokens.new }
{
    let inner = expr(tokens, room)?;
    tokens.expect(Sign::RightParenthesis)?;
    Ok(Tall::paren(tokens.alloc, place, inner)?)
}

#[cycle(expr)]
fn atom(tokens: &mut Cursor<'_>, room: u16) -> Result<Tall, Stop>
    ensures { Reads (spec.atom (spec.expr room) (spec.binary room) (room + 1) tokens.old) result tokens.new }
{
    let Some(token) = tokens.peek() else {
        return Err(Stop::Here);
    };
    match start_of(&token.kind) {
        Some(Start::Number) => number(tokens),
        Some(Start::Truth(value)) => {
            tokens.skip();
            Ok(Tall::truth(token.place, value))
        }
        Some(Start::Base) => construct(tokens, room),
        Some(Start::Path) => named(tokens, room),
        Some(Start::Parenthesis) => {
            tokens.skip();
            paren(tokens, room, token.place)
        }
        None => Err(Stop::Here),
    }
}

#[cycle(expr)]
#[tactic(auto, unfolding(crate::specs::Reading::index))]
fn index(tokens: &mut Cursor<'_>, room: u16, left: Tall) -> Result<Tall, Stop>
    ensures { Reads (spec.index (spec.expr room) (spec.binary room) left tokens.old) result tokens.new }
{
    let index = bracketed(tokens, room)?;
    Ok(Tall::index(tokens.alloc, left, index)?)
}

#[cycle(expr)]
pub fn steps(tokens: &mut Cursor<'_>, room: u16, mut left: Tall) -> Result<Tall, Stop>
    ensures { Reads (spec.steps (spec.expr room) (spec.binary room) (room + 1) left tokens.old) result tokens.new }
{
    loop {
        if tokens.sees(Sign::Dot) {
            if left.is_above(room) {
                return Err(Stop::Here);
            }
            left = field(tokens, left)?;
        } else if tokens.sees(Sign::LeftBracket) {
            if left.is_above(room) {
                return Err(Stop::Here);
            }
            left = index(tokens, room, left)?;
        } else {
            return Ok(left);
        }
    }
}

#[cycle(expr)]
#[tactic(auto, unfolding(crate::specs::Reading::post))]
fn post(tokens: &mut Cursor<'_>, room: u16) -> Result<Tall, Stop>
    ensures { Reads (spec.post (spec.expr room) (spec.binary room) (room + 1) tokens.old) result tokens.new }
{
    let left = atom(tokens, room)?;
    steps(tokens, room, left)
}

#[cycle(expr)]
fn operand(tokens: &mut Cursor<'_>, room: u16) -> Result<Tall, Stop>
    ensures { Reads (spec.operand (spec.expr room) (spec.binary room) (room + 1) tokens.old) result tokens.new }
{
    let Some(token) = tokens.peek() else {
        return Err(Stop::Here);
    };
    let Some(operator) = unary_of(&token.kind) else {
        return post(tokens, room);
    };
    tokens.skip();
    let inner = binary(tokens, room, UNARY)?;
    Ok(Tall::unary(tokens.alloc, token.place, operator, inner)?)
}

#[cycle(expr)]
pub fn climb(tokens: &mut Cursor<'_>, room: u16, least: u8, mut left: Tall) -> Result<Tall, Stop>
    ensures { Reads (spec.climb (spec.expr room) (spec.binary room) (room + 1) least left tokens.old) result tokens.new }
{
    loop {
        let Some(operator) = operator(tokens) else {
            return Ok(left);
        };
        let level = binds(operator);
        if level < least {
            return Ok(left);
        }
        if left.is_above(room) {
            return Err(Stop::Here);
        }
        tokens.skip();
        let right = binary(tokens, room, level + 1)?;
        left = Tall::binary(tokens.alloc, operator, left, right)?;
    }
}

#[cycle(expr)]
#[tactic(auto, unfolding(crate::specs::Reading::operation))]
pub fn operation(tokens: &mut Cursor<'_>, room: u16, least: u8) -> Result<Tall, Stop>
    ensures { Reads (spec.operation (spec.expr room) (spec.binary room) (room + 1) least tokens.old) result tokens.new }
{
    let left = operand(tokens, room)?;
    climb(tokens, room, least, left)
}

#[cycle(expr)]
fn binary(tokens: &mut Cursor<'_>, room: u16, least: u8) -> Result<Tall, Stop>
    ensures { Reads (spec.binary room least tokens.old) result tokens.new }
{
    if room == 0 {
        return Err(Stop::Here);
    }
    operation(tokens, room - 1, least)
}

#[cycle(expr)]
#[tactic(auto, unfolding(crate::specs::Reading::choice))]
fn choice(tokens: &mut Cursor<'_>, room: u16, test: Tall) -> Result<Tall, Stop>
    ensures { Reads (spec.choice (spec.expr room) (spec.binary room) test tokens.old) result tokens.new }
{
    tokens.expect(Sign::Question)?;
    let left = expr(tokens, room)?;
    tokens.expect(Sign::Colon)?;
    let right = expr(tokens, room)?;
    Ok(Tall::choice(tokens.alloc, test, left, right)?)
}

#[cycle(expr)]
#[tactic(auto, unfolding(crate::specs::Reading::tail))]
pub fn tail(tokens: &mut Cursor<'_>, room: u16, left: Tall) -> Result<Tall, Stop>
    ensures { Reads (spec.tail (spec.expr room) (spec.binary room) (room + 1) left tokens.old) result tokens.new }
{
    if !tokens.sees(Sign::Question) {
        return Ok(left);
    }
    if left.is_above(room) {
        return Err(Stop::Here);
    }
    choice(tokens, room, left)
}

/// An expression that is no higher than `room`.
#[cycle(expr)]
pub fn expr(tokens: &mut Cursor<'_>, room: u16) -> Result<Tall, Stop>
    ensures { Reads (spec.expr room tokens.old) result tokens.new }
{
    if room == 0 {
        return Err(Stop::Here);
    }
    let left = operation(tokens, room - 1, 1)?;
    tail(tokens, room - 1, left)
}
