ghost use Rattle.std.specs.Prelude.{◌≡◌, Ok};
ghost use Rattle.token_reader.specs.Parsers.{Reads, see, sees};
ghost use Rattle.token_reader.specs.Lists.{while_sees};
ghost use Rattle.file_grammar.specs.Words as words;
ghost use Rattle.file_grammar.specs.Simples as spec;
ghost use Rattle.cm_parser.specs.Parts as parts;

use crate::indices::{Index, indices, sizes_of, steps_of};
use crate::words::{bracket, word};
use cm_base::Items;
use cm_parse_expr::{read_args, read_path};
use cm_tree::{Path, Sign, Step, Target, TokenKind, TypeExpr, Word};
use file_grammar::Begun;
use token_reader::{Cursor, Stop};

fn is_step(kind: &TokenKind) -> bool
    ensures { result ≡ spec.is_step kind.now }
{
    match kind {
        TokenKind::Sign(Sign::Dot | Sign::LeftBracket) => true,
        _ => false,
    }
}

#[tactic(auto, unfolding(token_reader::specs::Parsers::sees, token_reader::specs::Parsers::see))]
fn sees_step(tokens: &Cursor<'_>) -> bool
    ensures { result ≡ sees spec.is_step tokens.now }
{
    match tokens.peek() {
        Some(token) => is_step(&token.kind),
        None => false,
    }
}

fn is_name(kind: &TokenKind) -> bool
    ensures { result ≡ words.is_name kind.now }
{
    match kind {
        TokenKind::Word(_) => true,
        _ => false,
    }
}

/// Whether the next token is a name.
#[tactic(auto, unfolding(token_reader::specs::Parsers::sees, token_reader::specs::Parsers::see))]
pub fn sees_name(tokens: &Cursor<'_>) -> bool
    ensures { see words.is_name tokens.now ≡ Ok (result, tokens.now) }
{
    match tokens.peek() {
        Some(token) => is_name(&token.kind),
        None => false,
    }
}

#[tactic(auto, unfolding(file_grammar::specs::Simples::step_of))]
fn step(tokens: &mut Cursor<'_>, room: u16) -> Result<Step, Stop>
    ensures { Reads (spec.step_of room tokens.old) result tokens.new }
{
    if tokens.sees(Sign::Dot) {
        tokens.skip();
        let name = word(tokens)?;
        return Ok(Step::Field(name));
    }
    let (place, index) = bracket(tokens, room)?;
    Ok(Step::Index(place, index))
}

fn steps(tokens: &mut Cursor<'_>, room: u16, mut found: Items<Step>) -> Result<Items<Step>, Stop>
    ensures { Reads (while_sees spec.is_step (spec.step_of room) found tokens.old) result tokens.new }
{
    while sees_step(tokens) {
        let step = step(tokens, room)?;
        found.push(step)?;
    }
    Ok(found)
}

/// A variable or a part of it, from the further steps on.
#[tactic(auto, unfolding(file_grammar::specs::Simples::target_of))]
fn target_of(
    tokens: &mut Cursor<'_>,
    room: u16,
    name: Word,
    found: Items<Step>,
) -> Result<Target, Stop>
    ensures { Reads (spec.target_of room name found tokens.old) result tokens.new }
{
    let steps = steps(tokens, room, found)?;
    Ok(Target { name, steps })
}

/// What is assigned.
#[tactic(auto, unfolding(file_grammar::specs::Simples::target))]
pub fn target(tokens: &mut Cursor<'_>, room: u16) -> Result<Target, Stop>
    ensures { Reads (spec.target room tokens.old) result tokens.new }
{
    if room == 0 {
        return Err(Stop::Here);
    }
    let name = word(tokens)?;
    let steps = Items::new(tokens.alloc);
    target_of(tokens, room, name, steps)
}

fn only_word(path: Path) -> Option<Word>
    ensures { result ≡ parts.only_word path.place (spec.single path.names) }
{
    let Path { place, mut names } = path;
    let text = names.pop()?;
    if !names.is_empty() {
        return None;
    }
    Some(Word { place, text })
}

#[tactic(auto, unfolding(file_grammar::specs::Simples::after_indices))]
fn after_indices(
    tokens: &mut Cursor<'_>,
    room: u16,
    path: Path,
    indices: Items<Index>,
) -> Result<Begun, Stop>
    ensures { Reads (spec.after_indices room path indices tokens.old) result tokens.new }
{
    if sees_name(tokens) {
        let sizes = sizes_of(tokens.alloc, indices)?;
        return Ok(Begun::Type(TypeExpr::Named(path, sizes)));
    }
    let Some(name) = only_word(path) else {
        return Err(Stop::Here);
    };
    let steps = steps_of(tokens.alloc, indices)?;
    let target = target_of(tokens, room, name, steps)?;
    Ok(Begun::Target(target))
}

#[tactic(auto, unfolding(file_grammar::specs::Simples::called))]
fn called(tokens: &mut Cursor<'_>, room: u16, path: Path) -> Result<Begun, Stop>
    ensures { Reads (spec.called room path tokens.old) result tokens.new }
{
    if room <= 1 {
        return Err(Stop::Here);
    }
    let args = read_args(tokens, room - 1)?;
    Ok(Begun::Call(path, args))
}

/// A call, the type of a declaration, or what is assigned. The token after the path or after the indices tells which.
#[tactic(auto, unfolding(file_grammar::specs::Simples::begun_by_name))]
pub fn begun_by_name(tokens: &mut Cursor<'_>, room: u16) -> Result<Begun, Stop>
    ensures { Reads (spec.begun_by_name room tokens.old) result tokens.new }
{
    if room == 0 {
        return Err(Stop::Here);
    }
    let path = read_path(tokens)?;
    if tokens.sees(Sign::LeftParenthesis) {
        return called(tokens, room, path);
    }
    let indices = indices(tokens, room)?;
    after_indices(tokens, room, path, indices)
}
