ghost use Rattle.std.specs.Prelude.{◌≡◌, [], Some, IfOk};
ghost use Rattle.cm_tree.specs.declared.sign.Sign.TheVariants.{RightBrace};
ghost use Rattle.token_reader.specs.Parsers.{Reads, is_other};
ghost use Rattle.token_reader.specs.Lists.{while_sees};
ghost use Rattle.file_grammar.specs.Members.{in_braces};
ghost use Rattle.file_grammar.specs.Files as spec;
ghost use Rattle.cm_parser.specs.DeclStarts as starts;

use crate::decl_starts::{DeclStart, UnitKind, decl_start};
use crate::shared::{function_of, shared, void_function};
use crate::units::unit;
use crate::words::word;
use cm_base::{Items, Place};
use cm_parse_expr::{read_path, read_type};
use cm_tree::{Decl, Function, Sign};
use token_reader::{Cursor, Stop};

// In each function `room` is how high the parts may be, one less than the whole. It is the whole's in `decl` and
// `decls`, which begin one level down: so the calls are nested no deeper than the height allows.

#[tactic(auto, unfolding(file_grammar::specs::Files::typed_function))]
fn typed_function(tokens: &mut Cursor<'_>, room: u16, place: Place) -> Result<Function, Stop>
    ensures { Reads (spec.typed_function room place tokens.old) result tokens.new }
{
    let ty = read_type(tokens, room)?;
    let name = word(tokens)?;
    function_of(tokens, room, place, Some(ty), name)
}

#[tactic(auto, unfolding(file_grammar::specs::Files::processor, file_grammar::specs::Files::graph))]
fn unit_decl(tokens: &mut Cursor<'_>, room: u16, place: Place, kind: UnitKind) -> Result<Decl, Stop>
    ensures { Reads (starts.unit_decl kind room place tokens.old) result tokens.new }
{
    let found = unit(tokens, room, place, kind)?;
    match kind {
        UnitKind::Processor => Ok(Decl::Processor(found)),
        UnitKind::Graph => Ok(Decl::Graph(found)),
    }
}

#[cycle(decl)]
fn until_brace(tokens: &mut Cursor<'_>, room: u16) -> Result<Items<Decl>, Stop>
    ensures { Reads (while_sees (is_other RightBrace) (spec.decl room) [] tokens.old) result tokens.new }
{
    let mut found = Items::new(tokens.alloc);
    while tokens.sees_other(Sign::RightBrace) {
        let part = decl(tokens, room)?;
        found.push(part)?;
    }
    Ok(found)
}

#[cycle(decl)]
#[tactic(auto, unfolding(file_grammar::specs::Members::in_braces))]
fn in_braces(tokens: &mut Cursor<'_>, room: u16) -> Result<Items<Decl>, Stop>
    ensures { Reads (in_braces (spec.decl room) tokens.old) result tokens.new }
{
    let found = until_brace(tokens, room)?;
    tokens.expect(Sign::RightBrace)?;
    Ok(found)
}

#[cycle(decl)]
#[tactic(auto, unfolding(file_grammar::specs::Files::namespace_of))]
fn namespace(tokens: &mut Cursor<'_>, room: u16, place: Place) -> Result<Decl, Stop>
    ensures { Reads (spec.namespace_of room (spec.decl room) place tokens.old) result tokens.new }
{
    let path = read_path(tokens)?;
    tokens.expect(Sign::LeftBrace)?;
    let all = in_braces(tokens, room)?;
    Ok(Decl::Namespace(place, path, all))
}

// A declaration that begins so, at the place.
#[cycle(decl)]
fn decl_from(
    tokens: &mut Cursor<'_>,
    room: u16,
    place: Place,
    start: DeclStart,
) -> Result<Decl, Stop>
    ensures { Reads (starts.decl_from room (spec.decl room) place (Some start) tokens.old) result tokens.new }
{
    match start {
        DeclStart::Namespace => {
            tokens.skip();
            namespace(tokens, room, place)
        }
        DeclStart::Unit(kind) => {
            tokens.skip();
            unit_decl(tokens, room, place, kind)
        }
        DeclStart::Shared(start) => {
            tokens.skip();
            let shared = shared(tokens, room, place, start)?;
            Ok(Decl::Shared(shared))
        }
        DeclStart::Void => {
            tokens.skip();
            let function = void_function(tokens, room, place)?;
            Ok(Decl::Function(function))
        }
        DeclStart::Type => {
            let function = typed_function(tokens, room, place)?;
            Ok(Decl::Function(function))
        }
    }
}

#[cycle(decl)]
fn one(tokens: &mut Cursor<'_>, room: u16) -> Result<Decl, Stop>
    ensures { Reads (spec.one room (spec.decl room) tokens.old) result tokens.new }
{
    let Some(token) = tokens.peek() else {
        return Err(Stop::Here);
    };
    match decl_start(&token.kind) {
        Some(start) => decl_from(tokens, room, token.place, start),
        None => Err(Stop::Here),
    }
}

#[cycle(decl)]
fn decl(tokens: &mut Cursor<'_>, room: u16) -> Result<Decl, Stop>
    ensures { Reads (spec.decl room tokens.old) result tokens.new }
{
    if room == 0 {
        return Err(Stop::Here);
    }
    one(tokens, room - 1)
}

/// Declarations up to the end of the tokens, each no higher than `room`.
pub fn decls(tokens: &mut Cursor<'_>, room: u16) -> Result<Items<Decl>, Stop>
    ensures reads { Reads (spec.decls room tokens.old) result tokens.new }
    ensures whole { IfOk result (λ _. tokens.new ≡ []) }
{
    let mut found = Items::new(tokens.alloc);
    while tokens.sees_any() {
        let part = decl(tokens, room)?;
        found.push(part)?;
    }
    Ok(found)
}
