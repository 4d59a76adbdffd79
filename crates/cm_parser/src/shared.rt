ghost use Rattle.token_reader.specs.Parsers.{Reads};
ghost use Rattle.file_grammar.specs.Members as spec;
ghost use Rattle.file_grammar.proofs.FarDecls.{local_fields, takes_fields};
ghost use Rattle.cm_parser.specs.DeclStarts as starts;

use crate::decl_starts::SharedStart;
use crate::lists::{Item, Part, in_braces, in_parentheses, separated};
use crate::names::inits;
use crate::parts::assertion;
use crate::stmts::body;
use crate::words::word;
use cm_base::Place;
use cm_parse_expr::read_type;
use cm_tree::{Fields, Function, Shared, Sign, TypeExpr, Word};
use token_reader::{Cursor, Stop};

impl Part for Fields {
    ghost parser = { spec.fields };

    #[tactic(auto, unfolding(file_grammar::specs::Members::fields, file_grammar::specs::Stmts::semicolon))]
    fn read(tokens: &mut Cursor<'_>, room: u16) -> Result<Fields, Stop> {
        let ty = read_type(tokens, room)?;
        let names = separated(tokens, room)?;
        tokens.expect(Sign::Semicolon)?;
        Ok(Fields { ty, names })
    }

    ghost local = { local_fields };
}

impl Item for Fields {
    ghost takes = { takes_fields };
}

// Each of these begins after its first word, which stands at the place.

#[tactic(auto, unfolding(file_grammar::specs::Members::structure))]
fn structure(tokens: &mut Cursor<'_>, room: u16, place: Place) -> Result<Shared, Stop>
    ensures { Reads (spec.structure room place tokens.old) result tokens.new }
{
    let name = word(tokens)?;
    tokens.expect(Sign::LeftBrace)?;
    let fields = in_braces(tokens, room)?;
    Ok(Shared::Struct(place, name, fields))
}

#[tactic(auto, unfolding(file_grammar::specs::Members::alias, file_grammar::specs::Stmts::semicolon))]
fn alias(tokens: &mut Cursor<'_>, room: u16, place: Place) -> Result<Shared, Stop>
    ensures { Reads (spec.alias room place tokens.old) result tokens.new }
{
    let name = word(tokens)?;
    tokens.expect(Sign::Assign)?;
    let ty = read_type(tokens, room)?;
    tokens.expect(Sign::Semicolon)?;
    Ok(Shared::Using(place, name, ty))
}

#[tactic(auto, unfolding(file_grammar::specs::Members::constants, file_grammar::specs::Stmts::semicolon))]
fn constants(tokens: &mut Cursor<'_>, room: u16, place: Place) -> Result<Shared, Stop>
    ensures { Reads (spec.constants room place tokens.old) result tokens.new }
{
    let names = inits(tokens, room)?;
    tokens.expect(Sign::Semicolon)?;
    Ok(Shared::Let(place, names))
}

#[tactic(auto, unfolding(file_grammar::specs::Members::asserted))]
fn asserted(tokens: &mut Cursor<'_>, room: u16, place: Place) -> Result<Shared, Stop>
    ensures { Reads (spec.asserted room place tokens.old) result tokens.new }
{
    let assert = assertion(tokens, room, place)?;
    Ok(Shared::Assert(assert))
}

/// A declaration that may stand everywhere, from what follows its first word on, which stands at the place.
pub fn shared(
    tokens: &mut Cursor<'_>,
    room: u16,
    place: Place,
    start: SharedStart,
) -> Result<Shared, Stop>
    ensures { Reads (starts.shared_from room place start tokens.old) result tokens.new }
{
    match start {
        SharedStart::Struct => structure(tokens, room, place),
        SharedStart::Using => alias(tokens, room, place),
        SharedStart::Let => constants(tokens, room, place),
        SharedStart::Assert => asserted(tokens, room, place),
    }
}

/// A function, from its parameters on.
#[tactic(auto, unfolding(file_grammar::specs::Members::function_of))]
pub fn function_of(
    tokens: &mut Cursor<'_>,
    room: u16,
    place: Place,
    ty: Option<TypeExpr>,
    name: Word,
) -> Result<Function, Stop>
    ensures { Reads (spec.function_of room place ty name tokens.old) result tokens.new }
{
    let params = in_parentheses(tokens, room)?;
    let body = body(tokens, room)?;
    Ok(Function {
        place,
        result: ty,
        name,
        params,
        body,
    })
}

/// A function without a result, from what follows `void` on, which stands at the place.
#[tactic(auto, unfolding(file_grammar::specs::Members::void_function))]
pub fn void_function(tokens: &mut Cursor<'_>, room: u16, place: Place) -> Result<Function, Stop>
    ensures { Reads (spec.void_function room place tokens.old) result tokens.new }
{
    let name = word(tokens)?;
    function_of(tokens, room, place, None, name)
}
