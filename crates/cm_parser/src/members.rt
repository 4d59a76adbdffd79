ghost use Rattle.std.specs.Prelude.{Some};
ghost use Rattle.token_reader.specs.Parsers.{Reads};
ghost use Rattle.file_grammar.specs.Members as spec;
ghost use Rattle.cm_parser.specs.DeclStarts as starts;

use crate::decl_starts::{GraphStart, ProcessorStart, SharedStart, graph_start, processor_start};
use crate::ends::ends;
use crate::names::{inits, value, vars_of};
use crate::nodes::{connection, nodes};
use crate::shared::{function_of, shared, void_function};
use crate::stmts::body;
use crate::words::{typed, word};
use cm_base::Place;
use cm_parse_expr::read_type;
use cm_tree::{Member, Sign, TypeExpr, Word};
use token_reader::{Cursor, Stop};

// Each of these begins after its first word, which stands at the place.

#[tactic(auto, unfolding(file_grammar::specs::Members::handler))]
fn handler(tokens: &mut Cursor<'_>, room: u16, place: Place) -> Result<Member, Stop>
    ensures { Reads (spec.handler room place tokens.old) result tokens.new }
{
    let name = word(tokens)?;
    tokens.expect(Sign::LeftParenthesis)?;
    let param = typed(tokens, room)?;
    tokens.expect(Sign::RightParenthesis)?;
    let body = body(tokens, room)?;
    Ok(Member::Handler(place, name, param, body))
}

#[tactic(auto, unfolding(file_grammar::specs::Members::variables, file_grammar::specs::Stmts::semicolon))]
fn variables(tokens: &mut Cursor<'_>, room: u16, place: Place) -> Result<Member, Stop>
    ensures { Reads (spec.variables room place tokens.old) result tokens.new }
{
    let names = inits(tokens, room)?;
    tokens.expect(Sign::Semicolon)?;
    Ok(Member::Var(place, names))
}

#[tactic(auto, unfolding(file_grammar::specs::Members::latency, file_grammar::specs::Stmts::semicolon))]
fn latency(tokens: &mut Cursor<'_>, room: u16, place: Place) -> Result<Member, Stop>
    ensures { Reads (spec.latency room place tokens.old) result tokens.new }
{
    tokens.expect(Sign::Dot)?;
    tokens.expect_word(b"latency")?;
    let value = value(tokens, room)?;
    tokens.expect(Sign::Semicolon)?;
    Ok(Member::Latency(place, value))
}

#[tactic(auto, unfolding(file_grammar::specs::Stmts::semicolon))]
fn state(tokens: &mut Cursor<'_>, room: u16, ty: TypeExpr, name: Word) -> Result<Member, Stop>
    ensures { Reads (starts.state_of room ty name tokens.old) result tokens.new }
{
    let names = vars_of(tokens, room, name)?;
    tokens.expect(Sign::Semicolon)?;
    Ok(Member::State(ty, names))
}

// A function with a result, or state: the token after the name tells.
#[tactic(auto, unfolding(file_grammar::specs::Members::typed_member))]
fn typed_member(tokens: &mut Cursor<'_>, room: u16, place: Place) -> Result<Member, Stop>
    ensures { Reads (spec.typed_member room place tokens.old) result tokens.new }
{
    let ty = read_type(tokens, room)?;
    let name = word(tokens)?;
    if !tokens.sees(Sign::LeftParenthesis) {
        return state(tokens, room, ty, name);
    }
    let function = function_of(tokens, room, place, Some(ty), name)?;
    Ok(Member::Function(function))
}

fn shared_member(
    tokens: &mut Cursor<'_>,
    room: u16,
    place: Place,
    start: SharedStart,
) -> Result<Member, Stop>
    ensures { Reads (spec.shared_member (starts.shared_from room place start) tokens.old) result tokens.new }
{
    tokens.skip();
    let shared = shared(tokens, room, place, start)?;
    Ok(Member::Shared(shared))
}

// A member of a processor that begins so, at the place.
fn processor_from(
    tokens: &mut Cursor<'_>,
    room: u16,
    place: Place,
    start: ProcessorStart,
) -> Result<Member, Stop>
    ensures { Reads (starts.processor_from room place (Some start) tokens.old) result tokens.new }
{
    match start {
        ProcessorStart::Ends(flow) => {
            tokens.skip();
            ends(tokens, room, place, flow)
        }
        ProcessorStart::Shared(start) => shared_member(tokens, room, place, start),
        ProcessorStart::Handler => {
            tokens.skip();
            handler(tokens, room, place)
        }
        ProcessorStart::Var => {
            tokens.skip();
            variables(tokens, room, place)
        }
        ProcessorStart::Latency => {
            tokens.skip();
            latency(tokens, room, place)
        }
        ProcessorStart::Void => {
            tokens.skip();
            let function = void_function(tokens, room, place)?;
            Ok(Member::Function(function))
        }
        ProcessorStart::Type => typed_member(tokens, room, place),
    }
}

/// A member of a processor.
pub fn processor_member(tokens: &mut Cursor<'_>, room: u16) -> Result<Member, Stop>
    ensures { Reads (spec.processor_member room tokens.old) result tokens.new }
{
    let Some(token) = tokens.peek() else {
        return Err(Stop::Here);
    };
    match processor_start(&token.kind) {
        Some(start) => processor_from(tokens, room, token.place, start),
        None => Err(Stop::Here),
    }
}

// A member of a graph that begins so, at the place.
fn graph_from(
    tokens: &mut Cursor<'_>,
    room: u16,
    place: Place,
    start: GraphStart,
) -> Result<Member, Stop>
    ensures { Reads (starts.graph_from room place (Some start) tokens.old) result tokens.new }
{
    match start {
        GraphStart::Ends(flow) => {
            tokens.skip();
            ends(tokens, room, place, flow)
        }
        GraphStart::Shared(start) => shared_member(tokens, room, place, start),
        GraphStart::Nodes => {
            tokens.skip();
            nodes(tokens, room, place)
        }
        GraphStart::Connection => {
            tokens.skip();
            connection(tokens, room, place)
        }
    }
}

/// A member of a graph.
pub fn graph_member(tokens: &mut Cursor<'_>, room: u16) -> Result<Member, Stop>
    ensures { Reads (spec.graph_member room tokens.old) result tokens.new }
{
    let Some(token) = tokens.peek() else {
        return Err(Stop::Here);
    };
    match graph_start(&token.kind) {
        Some(start) => graph_from(tokens, room, token.place, start),
        None => Err(Stop::Here),
    }
}
