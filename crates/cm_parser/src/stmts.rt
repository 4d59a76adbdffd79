ghost use Rattle.std.specs.Prelude.{◌≡◌, [], ◌∷◌, ◌++◌, OnOk, IfOk};
ghost use Rattle.cm_tree.specs.declared.sign.Sign.TheVariants.{LeftParenthesis, RightBrace};
ghost use Rattle.cm_tree.specs.declared.stmt.Stmt.TheVariants as x;
ghost use Rattle.token_reader.specs.Parsers.{Reads, pure, is_sign, is_other};
ghost use Rattle.token_reader.specs.Lists.{while_sees, optional};
ghost use Rattle.file_grammar.specs.Words as words;
ghost use Rattle.file_grammar.specs.Stmts as spec;
ghost use Rattle.cm_parser.specs.StmtStarts as starts;

use crate::names::vars_of;
use crate::parts::{assertion, based_stmt, named_stmt, third, value_up_to};
use crate::simples::{before, change_target, let_local, var_local};
use crate::starts::{Opening, StmtStart, stmt_start};
use crate::targets::begun_by_name;
use crate::words::{condition, here, word};
use cm_base::{Boxed, Items, Place};
use cm_parse_expr::read_type;
use cm_tree::{Block, Expr, Local, Reserved, Sign, Simple, Start, Stmt, TypeExpr};
use file_grammar::Begun;
use std::alloc::{AllocError, Global};
use token_reader::{Cursor, Stop};

// In each function `room` is how high the parts may be, one less than the whole. It is the whole's in `stmt` and
// `body`, which begin one level down: so the calls are nested no deeper than the height allows.

// ---- statements that hold no others, from what follows their first word on

#[inline(never)]
#[tactic(auto, unfolding(file_grammar::specs::Stmts::return_stmt))]
fn return_stmt(tokens: &mut Cursor<'_>, room: u16, place: Place) -> Result<Boxed<Stmt>, Stop>
    ensures { Reads (spec.return_stmt room (spec.stmt room) place tokens.old) result tokens.new }
{
    let value = value_up_to(tokens, room)?;
    Ok(Boxed::new(tokens.alloc, Stmt::Return(place, value))?)
}

#[inline(never)]
#[tactic(auto, unfolding(file_grammar::specs::Stmts::advance_stmt, file_grammar::specs::Stmts::semicolon))]
fn advance_stmt(tokens: &mut Cursor<'_>, room: u16, place: Place) -> Result<Boxed<Stmt>, Stop>
    ensures { Reads (spec.advance_stmt room (spec.stmt room) place tokens.old) result tokens.new }
{
    tokens.expect(Sign::LeftParenthesis)?;
    tokens.expect(Sign::RightParenthesis)?;
    tokens.expect(Sign::Semicolon)?;
    Ok(Boxed::new(tokens.alloc, Stmt::Advance(place))?)
}

#[inline(never)]
#[tactic(auto, unfolding(file_grammar::specs::Stmts::let_stmt, file_grammar::specs::Stmts::semicolon))]
fn let_stmt(tokens: &mut Cursor<'_>, room: u16, place: Place) -> Result<Boxed<Stmt>, Stop>
    ensures { Reads (spec.let_stmt room (spec.stmt room) place tokens.old) result tokens.new }
{
    let local = let_local(tokens, room, place)?;
    tokens.expect(Sign::Semicolon)?;
    Ok(Boxed::new(tokens.alloc, Stmt::Local(local))?)
}

#[inline(never)]
#[tactic(auto, unfolding(file_grammar::specs::Stmts::var_stmt, file_grammar::specs::Stmts::semicolon))]
fn var_stmt(tokens: &mut Cursor<'_>, room: u16, place: Place) -> Result<Boxed<Stmt>, Stop>
    ensures { Reads (spec.var_stmt room (spec.stmt room) place tokens.old) result tokens.new }
{
    let local = var_local(tokens, room, place)?;
    tokens.expect(Sign::Semicolon)?;
    Ok(Boxed::new(tokens.alloc, Stmt::Local(local))?)
}

#[inline(never)]
#[tactic(auto, unfolding(file_grammar::specs::Stmts::step_stmt, file_grammar::specs::Stmts::semicolon))]
fn step_stmt(tokens: &mut Cursor<'_>, room: u16) -> Result<Boxed<Stmt>, Stop>
    ensures { Reads (spec.step_stmt room (spec.stmt room) tokens.old) result tokens.new }
{
    let step = before(tokens, room)?;
    tokens.expect(Sign::Semicolon)?;
    Ok(Boxed::new(tokens.alloc, Stmt::Simple(step))?)
}

#[inline(never)]
#[tactic(auto, unfolding(file_grammar::specs::Stmts::assert_stmt))]
fn assert_stmt(tokens: &mut Cursor<'_>, room: u16, place: Place) -> Result<Boxed<Stmt>, Stop>
    ensures { Reads (spec.assert_stmt room (spec.stmt room) place tokens.old) result tokens.new }
{
    let assert = assertion(tokens, room, place)?;
    Ok(Boxed::new(tokens.alloc, Stmt::Assert(assert))?)
}

#[tactic(auto, unfolding(token_reader::specs::Lists::optional))]
fn optional_condition(tokens: &mut Cursor<'_>, room: u16) -> Result<Option<Expr>, Stop>
    ensures { Reads (optional (is_sign LeftParenthesis) (words.condition room) tokens.old) result tokens.new }
{
    if !tokens.sees(Sign::LeftParenthesis) {
        return Ok(None);
    }
    let value = condition(tokens, room)?;
    Ok(Some(value))
}

#[inline(never)]
fn empty_stmt(tokens: &mut Cursor<'_>, place: Place) -> Result<Boxed<Stmt>, Stop>
    ensures { Reads (pure (x.Empty place) tokens.old) result tokens.new }
{
    Ok(Boxed::new(tokens.alloc, Stmt::Empty(place))?)
}

#[inline(never)]
#[tactic(auto, unfolding(file_grammar::specs::Stmts::semicolon))]
fn break_stmt(tokens: &mut Cursor<'_>, place: Place) -> Result<Boxed<Stmt>, Stop>
    ensures { Reads (spec.semicolon (x.Break place) tokens.old) result tokens.new }
{
    tokens.expect(Sign::Semicolon)?;
    Ok(Boxed::new(tokens.alloc, Stmt::Break(place))?)
}

#[inline(never)]
#[tactic(auto, unfolding(file_grammar::specs::Stmts::semicolon))]
fn continue_stmt(tokens: &mut Cursor<'_>, place: Place) -> Result<Boxed<Stmt>, Stop>
    ensures { Reads (spec.semicolon (x.Continue place) tokens.old) result tokens.new }
{
    tokens.expect(Sign::Semicolon)?;
    Ok(Boxed::new(tokens.alloc, Stmt::Continue(place))?)
}

// ---- statements that hold others

// Puts a statement behind the others.
#[inline(never)]
fn add(stmts: &mut Items<Stmt>, stmt: Boxed<Stmt>) -> Result<(), AllocError>
    ensures { OnOk result (stmts.new ≡ stmts.old ++ stmt ∷ []) }
{
    stmts.push(stmt.into_inner())
}

#[cycle(stmt)]
fn until_brace(tokens: &mut Cursor<'_>, room: u16) -> Result<Items<Stmt>, Stop>
    ensures { Reads (while_sees (is_other RightBrace) (spec.stmt room) [] tokens.old) result tokens.new }
{
    let mut found = Items::new(tokens.alloc);
    while tokens.sees_other(Sign::RightBrace) {
        let part = stmt(tokens, room)?;
        add(&mut found, part)?;
    }
    Ok(found)
}

#[cycle(stmt)]
#[tactic(auto, unfolding(file_grammar::specs::Stmts::stmts))]
fn stmts(tokens: &mut Cursor<'_>, room: u16) -> Result<Items<Stmt>, Stop>
    ensures { Reads (spec.stmts room (spec.stmt room) tokens.old) result tokens.new }
{
    let found = until_brace(tokens, room)?;
    tokens.expect(Sign::RightBrace)?;
    Ok(found)
}

#[cycle(stmt)]
#[tactic(auto, unfolding(file_grammar::specs::Stmts::block))]
fn block(tokens: &mut Cursor<'_>, room: u16, place: Place) -> Result<Boxed<Stmt>, Stop>
    ensures { Reads (spec.block room (spec.stmt room) place tokens.old) result tokens.new }
{
    let stmts = stmts(tokens, room)?;
    Ok(Boxed::new(tokens.alloc, Stmt::Block(place, stmts))?)
}

#[cycle(stmt)]
#[tactic(auto, unfolding(file_grammar::specs::Stmts::if_stmt))]
fn if_stmt(tokens: &mut Cursor<'_>, room: u16, place: Place) -> Result<Boxed<Stmt>, Stop>
    ensures { Reads (spec.if_stmt room (spec.stmt room) place tokens.old) result tokens.new }
{
    let test = condition(tokens, room)?;
    let inner = stmt(tokens, room)?;
    if !tokens.sees_reserved(Reserved::Else) {
        return Ok(Boxed::new(tokens.alloc, Stmt::If(place, test, inner))?);
    }
    tokens.skip();
    let other = stmt(tokens, room)?;
    Ok(Boxed::new(tokens.alloc, Stmt::IfElse(place, test, inner, other))?)
}

#[cycle(stmt)]
#[tactic(auto, unfolding(file_grammar::specs::Stmts::loop_stmt))]
fn loop_stmt(tokens: &mut Cursor<'_>, room: u16, place: Place) -> Result<Boxed<Stmt>, Stop>
    ensures { Reads (spec.loop_stmt room (spec.stmt room) place tokens.old) result tokens.new }
{
    let count = optional_condition(tokens, room)?;
    let inner = stmt(tokens, room)?;
    Ok(Boxed::new(tokens.alloc, Stmt::Loop(place, count, inner))?)
}

#[cycle(stmt)]
#[tactic(auto, unfolding(file_grammar::specs::Stmts::while_stmt))]
fn while_stmt(tokens: &mut Cursor<'_>, room: u16, place: Place) -> Result<Boxed<Stmt>, Stop>
    ensures { Reads (spec.while_stmt room (spec.stmt room) place tokens.old) result tokens.new }
{
    let test = condition(tokens, room)?;
    let inner = stmt(tokens, room)?;
    Ok(Boxed::new(tokens.alloc, Stmt::While(place, test, inner))?)
}

// A `for` of three parts.
#[inline(never)]
fn for_of(
    alloc: Global,
    place: Place,
    begin: Option<Boxed<Start>>,
    test: Option<Expr>,
    step: Option<Simple>,
    inner: Boxed<Stmt>,
) -> Result<Boxed<Stmt>, AllocError>
    ensures { IfOk result (λ stmt. stmt ≡ x.For place begin test step inner) }
{
    let begin = match begin {
        Some(begin) => Some(begin.into_inner()),
        None => None,
    };
    Boxed::new(alloc, Stmt::For(place, begin, test, step, inner))
}

#[cycle(stmt)]
#[tactic(auto, unfolding(file_grammar::specs::Stmts::for_parts))]
fn for_parts(
    tokens: &mut Cursor<'_>,
    room: u16,
    place: Place,
    begin: Option<Boxed<Start>>,
) -> Result<Boxed<Stmt>, Stop>
    ensures { Reads (spec.for_parts room (spec.stmt room) place begin tokens.old) result tokens.new }
{
    tokens.expect(Sign::Semicolon)?;
    let test = value_up_to(tokens, room)?;
    let step = third(tokens, room)?;
    tokens.expect(Sign::RightParenthesis)?;
    let inner = stmt(tokens, room)?;
    Ok(for_of(tokens.alloc, place, begin, test, step, inner)?)
}

#[cycle(stmt)]
#[tactic(auto, unfolding(file_grammar::specs::Stmts::for_type))]
fn for_type(
    tokens: &mut Cursor<'_>,
    room: u16,
    place: Place,
    ty: TypeExpr,
) -> Result<Boxed<Stmt>, Stop>
    ensures { Reads (spec.for_type room (spec.stmt room) place ty tokens.old) result tokens.new }
{
    let name = word(tokens)?;
    if !tokens.sees(Sign::RightParenthesis) {
        let names = vars_of(tokens, room, name)?;
        let begin = Boxed::new(tokens.alloc, Start::Local(Local::Typed(ty, names)))?;
        return for_parts(tokens, room, place, Some(begin));
    }
    tokens.skip();
    let inner = stmt(tokens, room)?;
    Ok(Boxed::new(tokens.alloc, Stmt::ForType(place, ty, name, inner))?)
}

#[cycle(stmt)]
fn for_begun(
    tokens: &mut Cursor<'_>,
    room: u16,
    place: Place,
    begun: Begun,
) -> Result<Boxed<Stmt>, Stop>
    ensures { Reads (spec.for_begun room (spec.stmt room) place begun tokens.old) result tokens.new }
{
    match begun {
        Begun::Type(ty) => for_type(tokens, room, place, ty),
        Begun::Target(target) => {
            let simple = change_target(tokens, room, target)?;
            let begin = Boxed::new(tokens.alloc, Start::Simple(simple))?;
            for_parts(tokens, room, place, Some(begin))
        }
        Begun::Call(path, args) => {
            let call = Start::Simple(Simple::Call(path, args));
            let begin = Boxed::new(tokens.alloc, call)?;
            for_parts(tokens, room, place, Some(begin))
        }
    }
}

#[cycle(stmt)]
#[tactic(auto, unfolding(file_grammar::specs::Stmts::for_base))]
fn for_base(tokens: &mut Cursor<'_>, room: u16, place: Place) -> Result<Boxed<Stmt>, Stop>
    ensures { Reads (spec.for_base room (spec.stmt room) place tokens.old) result tokens.new }
{
    let ty = read_type(tokens, room)?;
    for_type(tokens, room, place, ty)
}

#[cycle(stmt)]
#[tactic(auto, unfolding(file_grammar::specs::Stmts::for_name))]
fn for_name(tokens: &mut Cursor<'_>, room: u16, place: Place) -> Result<Boxed<Stmt>, Stop>
    ensures { Reads (spec.for_name room (spec.stmt room) place tokens.old) result tokens.new }
{
    let begun = begun_by_name(tokens, room)?;
    for_begun(tokens, room, place, begun)
}

#[cycle(stmt)]
#[tactic(auto, unfolding(file_grammar::specs::Stmts::for_step))]
fn for_step(tokens: &mut Cursor<'_>, room: u16, place: Place) -> Result<Boxed<Stmt>, Stop>
    ensures { Reads (spec.for_step room (spec.stmt room) place tokens.old) result tokens.new }
{
    let step = before(tokens, room)?;
    let begin = Boxed::new(tokens.alloc, Start::Simple(step))?;
    for_parts(tokens, room, place, Some(begin))
}

#[cycle(stmt)]
#[tactic(auto, unfolding(file_grammar::specs::Stmts::for_let))]
fn for_let(tokens: &mut Cursor<'_>, room: u16, place: Place, at: Place) -> Result<Boxed<Stmt>, Stop>
    ensures { Reads (spec.for_let room (spec.stmt room) place at tokens.old) result tokens.new }
{
    let local = let_local(tokens, room, at)?;
    let begin = Boxed::new(tokens.alloc, Start::Local(local))?;
    for_parts(tokens, room, place, Some(begin))
}

#[cycle(stmt)]
#[tactic(auto, unfolding(file_grammar::specs::Stmts::for_var))]
fn for_var(tokens: &mut Cursor<'_>, room: u16, place: Place, at: Place) -> Result<Boxed<Stmt>, Stop>
    ensures { Reads (spec.for_var room (spec.stmt room) place at tokens.old) result tokens.new }
{
    let local = var_local(tokens, room, at)?;
    let begin = Boxed::new(tokens.alloc, Start::Local(local))?;
    for_parts(tokens, room, place, Some(begin))
}

#[cycle(stmt)]
fn head_opened(
    tokens: &mut Cursor<'_>,
    room: u16,
    place: Place,
    at: Place,
    opening: Opening,
) -> Result<Boxed<Stmt>, Stop>
    ensures { Reads (starts.head_opened room (spec.stmt room) place at opening tokens.old) result tokens.new }
{
    match opening {
        Opening::Empty => for_parts(tokens, room, place, None),
        Opening::Let => {
            tokens.skip();
            for_let(tokens, room, place, at)
        }
        Opening::Var => {
            tokens.skip();
            for_var(tokens, room, place, at)
        }
        _ => Err(Stop::Here),
    }
}

#[cycle(stmt)]
fn for_head(tokens: &mut Cursor<'_>, room: u16, place: Place) -> Result<Boxed<Stmt>, Stop>
    ensures { Reads (starts.for_head room (spec.stmt room) place tokens.old) result tokens.new }
{
    let Some(token) = tokens.peek() else {
        return Err(Stop::Here);
    };
    match stmt_start(&token.kind) {
        Some(StmtStart::Step) => for_step(tokens, room, place),
        Some(StmtStart::Base) => for_base(tokens, room, place),
        Some(StmtStart::Name) => for_name(tokens, room, place),
        Some(StmtStart::Opening(opening)) => {
            head_opened(tokens, room, place, token.place, opening)
        }
        None => Err(Stop::Here),
    }
}

#[cycle(stmt)]
#[tactic(auto, unfolding(file_grammar::specs::Stmts::for_stmt, crate::specs::StmtStarts::for_head))]
fn for_stmt(tokens: &mut Cursor<'_>, room: u16, place: Place) -> Result<Boxed<Stmt>, Stop>
    ensures { Reads (spec.for_stmt room (spec.stmt room) place tokens.old) result tokens.new }
{
    tokens.expect(Sign::LeftParenthesis)?;
    for_head(tokens, room, place)
}

// A statement from what follows its first word or sign on, which stands at the place.
#[cycle(stmt)]
fn opened(
    tokens: &mut Cursor<'_>,
    room: u16,
    place: Place,
    opening: Opening,
) -> Result<Boxed<Stmt>, Stop>
    ensures { Reads (starts.opened room (spec.stmt room) place opening tokens.old) result tokens.new }
{
    match opening {
        Opening::Block => block(tokens, room, place),
        Opening::Empty => empty_stmt(tokens, place),
        Opening::Let => let_stmt(tokens, room, place),
        Opening::Var => var_stmt(tokens, room, place),
        Opening::Assert => assert_stmt(tokens, room, place),
        Opening::If => if_stmt(tokens, room, place),
        Opening::Loop => loop_stmt(tokens, room, place),
        Opening::While => while_stmt(tokens, room, place),
        Opening::For => for_stmt(tokens, room, place),
        Opening::Break => break_stmt(tokens, place),
        Opening::Continue => continue_stmt(tokens, place),
        Opening::Return => return_stmt(tokens, room, place),
        Opening::Advance => advance_stmt(tokens, room, place),
    }
}

#[cycle(stmt)]
fn one(tokens: &mut Cursor<'_>, room: u16) -> Result<Boxed<Stmt>, Stop>
    ensures { Reads (spec.one room (spec.stmt room) tokens.old) result tokens.new }
{
    let Some(token) = tokens.peek() else {
        return Err(Stop::Here);
    };
    match stmt_start(&token.kind) {
        Some(StmtStart::Step) => step_stmt(tokens, room),
        Some(StmtStart::Base) => based_stmt(tokens, room),
        Some(StmtStart::Name) => named_stmt(tokens, room),
        Some(StmtStart::Opening(opening)) => {
            tokens.skip();
            opened(tokens, room, token.place, opening)
        }
        None => Err(Stop::Here),
    }
}

#[cycle(stmt)]
fn stmt(tokens: &mut Cursor<'_>, room: u16) -> Result<Boxed<Stmt>, Stop>
    ensures { Reads (spec.stmt room tokens.old) result tokens.new }
{
    if room == 0 {
        return Err(Stop::Here);
    }
    one(tokens, room - 1)
}

/// The body of a function or a handler.
#[tactic(auto, unfolding(file_grammar::specs::Stmts::body))]
pub fn body(tokens: &mut Cursor<'_>, room: u16) -> Result<Block, Stop>
    ensures { Reads (spec.body room tokens.old) result tokens.new }
{
    if room == 0 {
        return Err(Stop::Here);
    }
    let place = here(tokens)?;
    tokens.expect(Sign::LeftBrace)?;
    let stmts = stmts(tokens, room - 1)?;
    Ok(Block { place, stmts })
}
