ghost use Rattle.std.specs.Prelude.{◌≡◌};
ghost use Rattle.token_reader.specs.Parsers.{Reads};
ghost use Rattle.file_grammar.specs.Simples as spec;

use crate::names::{inits, vars};
use crate::targets::{begun_by_name, sees_name, target};
use cm_base::Place;
use cm_parse_expr::read_expr;
use cm_tree::{Assign, Change, Local, Sign, Simple, Target, TokenKind, TypeExpr};
use file_grammar::Begun;
use token_reader::{Cursor, Stop};

fn assign_of(kind: &TokenKind) -> Option<Assign>
    ensures { result ≡ spec.assign_of kind.now }
{
    match kind {
        TokenKind::Sign(Sign::Assign) => Some(Assign::Set),
        TokenKind::Sign(Sign::PlusAssign) => Some(Assign::Add),
        TokenKind::Sign(Sign::MinusAssign) => Some(Assign::Subtract),
        TokenKind::Sign(Sign::StarAssign) => Some(Assign::Multiply),
        TokenKind::Sign(Sign::SlashAssign) => Some(Assign::Divide),
        TokenKind::Sign(Sign::PercentAssign) => Some(Assign::Remainder),
        TokenKind::Sign(Sign::AmpersandAssign) => Some(Assign::BitAnd),
        TokenKind::Sign(Sign::BarAssign) => Some(Assign::BitOr),
        TokenKind::Sign(Sign::CaretAssign) => Some(Assign::BitXor),
        TokenKind::Sign(Sign::ShiftLeftAssign) => Some(Assign::ShiftLeft),
        TokenKind::Sign(Sign::ShiftRightAssign) => Some(Assign::ShiftRight),
        TokenKind::Sign(Sign::ShiftRightZeroAssign) => Some(Assign::ShiftRightZero),
        _ => None,
    }
}

fn change_of(kind: &TokenKind) -> Option<Change>
    ensures { result ≡ spec.change_of kind.now }
{
    match kind {
        TokenKind::Sign(Sign::PlusPlus) => Some(Change::Increase),
        TokenKind::Sign(Sign::MinusMinus) => Some(Change::Decrease),
        _ => None,
    }
}

/// What is done with what is assigned.
#[tactic(auto, unfolding(file_grammar::specs::Simples::change_target))]
pub fn change_target(tokens: &mut Cursor<'_>, room: u16, target: Target) -> Result<Simple, Stop>
    ensures { Reads (spec.change_target room target tokens.old) result tokens.new }
{
    let Some(token) = tokens.peek() else {
        return Err(Stop::Here);
    };
    if let Some(operator) = assign_of(&token.kind) {
        tokens.skip();
        let value = read_expr(tokens, room)?;
        return Ok(Simple::Assign(target, operator, value));
    }
    let Some(change) = change_of(&token.kind) else {
        return Err(Stop::Here);
    };
    tokens.skip();
    Ok(Simple::After(target, change))
}

/// `++a` or `--a`.
#[tactic(auto, unfolding(file_grammar::specs::Simples::before))]
pub fn before(tokens: &mut Cursor<'_>, room: u16) -> Result<Simple, Stop>
    ensures { Reads (spec.before room tokens.old) result tokens.new }
{
    let Some(token) = tokens.peek() else {
        return Err(Stop::Here);
    };
    let Some(change) = change_of(&token.kind) else {
        return Err(Stop::Here);
    };
    tokens.skip();
    let target = target(tokens, room)?;
    Ok(Simple::Before(token.place, change, target))
}

fn simple_by(tokens: &mut Cursor<'_>, room: u16, begun: Begun) -> Result<Simple, Stop>
    ensures { Reads (spec.simple_by room begun tokens.old) result tokens.new }
{
    match begun {
        Begun::Type(_ty) => Err(Stop::Here),
        Begun::Target(target) => change_target(tokens, room, target),
        Begun::Call(path, args) => Ok(Simple::Call(path, args)),
    }
}

/// A statement that may stand in the head of a `for`.
#[tactic(auto, unfolding(file_grammar::specs::Simples::simple_stmt))]
pub fn simple_stmt(tokens: &mut Cursor<'_>, room: u16) -> Result<Simple, Stop>
    ensures { Reads (spec.simple_stmt room tokens.old) result tokens.new }
{
    if !sees_name(tokens) {
        return before(tokens, room);
    }
    let begun = begun_by_name(tokens, room)?;
    simple_by(tokens, room, begun)
}

/// The declaration of names whose type was read.
#[tactic(auto, unfolding(file_grammar::specs::Simples::typed_local))]
pub fn typed_local(tokens: &mut Cursor<'_>, room: u16, ty: TypeExpr) -> Result<Local, Stop>
    ensures { Reads (spec.typed_local room ty tokens.old) result tokens.new }
{
    let names = vars(tokens, room)?;
    Ok(Local::Typed(ty, names))
}

/// What follows `let`, which stands at the place.
#[tactic(auto, unfolding(file_grammar::specs::Simples::let_local))]
pub fn let_local(tokens: &mut Cursor<'_>, room: u16, place: Place) -> Result<Local, Stop>
    ensures { Reads (spec.let_local room place tokens.old) result tokens.new }
{
    let names = inits(tokens, room)?;
    Ok(Local::Let(place, names))
}

/// What follows `var`, which stands at the place.
#[tactic(auto, unfolding(file_grammar::specs::Simples::var_local))]
pub fn var_local(tokens: &mut Cursor<'_>, room: u16, place: Place) -> Result<Local, Stop>
    ensures { Reads (spec.var_local room place tokens.old) result tokens.new }
{
    let names = inits(tokens, room)?;
    Ok(Local::Var(place, names))
}
