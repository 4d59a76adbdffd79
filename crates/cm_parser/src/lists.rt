ghost use Rattle.std.specs.Prelude.{[]};
ghost use Rattle.cm_tree.specs.declared.sign.Sign.TheVariants.{Comma, RightBrace};
ghost use Rattle.token_reader.specs.Parsers.{Reads, is_sign, is_other};
ghost use Rattle.token_reader.specs.Lists as lists;
ghost use Rattle.file_grammar.specs.Words as words;
ghost use Rattle.file_grammar.specs.Members as members;
ghost use Rattle.cm_parser.specs.Parts as parts;

use cm_base::Items;
use cm_tree::Sign;
use token_reader::{Cursor, Stop};

/// A part of a list, with its own parts no higher than `room`.
pub trait Part: Drop + Sized {
    ghost use Rattle.std.specs.Prelude.{ℕ};
    ghost use Rattle.token_reader.specs.Parsers.{Parser};
    ghost use Rattle.token_reader.specs.Local.{Local};

    ghost parser: { ℕ → Parser Self };

    fn read(tokens: &mut Cursor<'_>, room: u16) -> Result<Self, Stop>
        ensures { Reads (parser room tokens.old) result tokens.new };

    ghost local: { (n : ℕ) → Local (parser n) };
}

/// A part of a list in braces: it has a token at least.
pub trait Item: Part {
    ghost use Rattle.std.specs.Prelude.{ℕ};
    ghost use Rattle.token_reader.specs.Local.{Takes};

    ghost takes: { (n : ℕ) → Takes (Self.parser n) };
}

fn next<P: Part>(tokens: &mut Cursor<'_>, room: u16) -> Result<P, Stop>
    ensures { Reads (parts.next (P.parser room) tokens.old) result tokens.new }
{
    tokens.expect(Sign::Comma)?;
    P::read(tokens, room)
}

/// The further parts of a list of parts with a comma between any two.
pub fn further<P: Part>(
    tokens: &mut Cursor<'_>,
    room: u16,
    mut found: Items<P>,
) -> Result<Items<P>, Stop>
    ensures { Reads (lists.while_sees (is_sign Comma) (parts.next (P.parser room)) found tokens.old) result tokens.new }
{
    while tokens.sees(Sign::Comma) {
        let part = next::<P>(tokens, room)?;
        found.push(part)?;
    }
    Ok(found)
}

/// One part or more, with a comma between any two.
#[tactic(auto, unfolding(token_reader::specs::Lists::separated))]
pub fn separated<P: Part>(tokens: &mut Cursor<'_>, room: u16) -> Result<Items<P>, Stop>
    ensures { Reads (lists.separated (is_sign Comma) (P.parser room) tokens.old) result tokens.new }
{
    let part = P::read(tokens, room)?;
    let mut found = Items::new(tokens.alloc);
    found.push(part)?;
    further(tokens, room, found)
}

/// Parts in parentheses, with a comma between any two.
#[tactic(auto, unfolding(file_grammar::specs::Words::in_parentheses))]
pub fn in_parentheses<P: Part>(tokens: &mut Cursor<'_>, room: u16) -> Result<Items<P>, Stop>
    ensures { Reads (words.in_parentheses (P.parser room) tokens.old) result tokens.new }
{
    tokens.expect(Sign::LeftParenthesis)?;
    if tokens.sees(Sign::RightParenthesis) {
        tokens.skip();
        return Ok(Items::new(tokens.alloc));
    }
    let found = separated(tokens, room)?;
    tokens.expect(Sign::RightParenthesis)?;
    Ok(found)
}

fn until_brace<P: Item>(tokens: &mut Cursor<'_>, room: u16) -> Result<Items<P>, Stop>
    ensures { Reads (lists.while_sees (is_other RightBrace) (P.parser room) [] tokens.old) result tokens.new }
{
    let mut found = Items::new(tokens.alloc);
    while tokens.sees_other(Sign::RightBrace) {
        let part = P::read(tokens, room)?;
        found.push(part)?;
    }
    Ok(found)
}

/// Parts up to `}`.
#[tactic(auto, unfolding(file_grammar::specs::Members::in_braces))]
pub fn in_braces<P: Item>(tokens: &mut Cursor<'_>, room: u16) -> Result<Items<P>, Stop>
    ensures { Reads (members.in_braces (P.parser room) tokens.old) result tokens.new }
{
    let found = until_brace(tokens, room)?;
    tokens.expect(Sign::RightBrace)?;
    Ok(found)
}

/// One part, or several in braces.
#[tactic(auto, unfolding(file_grammar::specs::Members::group))]
pub fn group<P: Item>(tokens: &mut Cursor<'_>, room: u16) -> Result<Items<P>, Stop>
    ensures { Reads (members.group (P.parser room) tokens.old) result tokens.new }
{
    if tokens.sees(Sign::LeftBrace) {
        tokens.skip();
        return in_braces(tokens, room);
    }
    let part = P::read(tokens, room)?;
    let mut found = Items::new(tokens.alloc);
    found.push(part)?;
    Ok(found)
}
