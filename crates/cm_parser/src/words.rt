ghost use Rattle.token_reader.specs.Parsers.{Reads};
ghost use Rattle.file_grammar.specs.Words as spec;
ghost use Rattle.file_grammar.proofs.Far.{local_word, local_typed};

use crate::lists::Part;
use cm_base::Place;
use cm_parse_expr::{read_expr, read_type};
use cm_tree::{Expr, Sign, Typed, Word};
use token_reader::{Cursor, Stop};

/// The place of the next token.
#[tactic(auto, unfolding(file_grammar::specs::Words::here))]
pub fn here(tokens: &mut Cursor<'_>) -> Result<Place, Stop>
    ensures { Reads (spec.here tokens.old) result tokens.new }
{
    match tokens.peek() {
        Some(token) => Ok(token.place),
        None => Err(Stop::Here),
    }
}

/// A name.
#[tactic(auto, unfolding(file_grammar::specs::Words::word))]
pub fn word(tokens: &mut Cursor<'_>) -> Result<Word, Stop>
    ensures { Reads (spec.word tokens.old) result tokens.new }
{
    let (place, text) = tokens.name()?;
    Ok(Word { place, text })
}

/// An index in brackets, with their place.
#[tactic(auto, unfolding(file_grammar::specs::Words::bracket))]
pub fn bracket(tokens: &mut Cursor<'_>, room: u16) -> Result<(Place, Expr), Stop>
    ensures { Reads (spec.bracket room tokens.old) result tokens.new }
{
    let place = here(tokens)?;
    tokens.expect(Sign::LeftBracket)?;
    let index = read_expr(tokens, room.saturating_sub(1))?;
    tokens.expect(Sign::RightBracket)?;
    Ok((place, index))
}

/// An expression in parentheses.
#[tactic(auto, unfolding(file_grammar::specs::Words::condition))]
pub fn condition(tokens: &mut Cursor<'_>, room: u16) -> Result<Expr, Stop>
    ensures { Reads (spec.condition room tokens.old) result tokens.new }
{
    tokens.expect(Sign::LeftParenthesis)?;
    let value = read_expr(tokens, room)?;
    tokens.expect(Sign::RightParenthesis)?;
    Ok(value)
}

/// A type and a name.
#[tactic(auto, unfolding(file_grammar::specs::Words::typed))]
pub fn typed(tokens: &mut Cursor<'_>, room: u16) -> Result<Typed, Stop>
    ensures { Reads (spec.typed room tokens.old) result tokens.new }
{
    let ty = read_type(tokens, room)?;
    let name = word(tokens)?;
    Ok(Typed { ty, name })
}

impl Part for Word {
    ghost parser = { λ n. spec.word };

    fn read(tokens: &mut Cursor<'_>, _room: u16) -> Result<Word, Stop> {
        word(tokens)
    }

    ghost local = { λ n. local_word };
}

impl Part for Typed {
    ghost parser = { spec.typed };

    fn read(tokens: &mut Cursor<'_>, room: u16) -> Result<Typed, Stop> {
        typed(tokens, room)
    }

    ghost local = { local_typed };
}
