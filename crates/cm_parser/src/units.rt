ghost use Rattle.std.specs.Prelude.{[]};
ghost use Rattle.cm_tree.specs.declared.sign.Sign.TheVariants.{RightBrace};
ghost use Rattle.token_reader.specs.Parsers.{Reads, is_other};
ghost use Rattle.token_reader.specs.Lists.{while_sees};
ghost use Rattle.file_grammar.specs.Files as spec;
ghost use Rattle.file_grammar.specs.Members.{in_braces};
ghost use Rattle.file_grammar.proofs.FarDecls.{local_one_param};
ghost use Rattle.cm_parser.specs.DeclStarts as starts;

use crate::decl_starts::UnitKind;
use crate::keys::keys;
use crate::lists::{Part, separated};
use crate::members::{graph_member, processor_member};
use crate::words::{here, typed, word};
use cm_base::{Items, Place};
use cm_tree::{Member, Param, Reserved, Sign, UnitDecl};
use token_reader::{Cursor, Stop};

impl Part for Param {
    ghost parser = { spec.one_param };

    #[tactic(auto, unfolding(file_grammar::specs::Files::one_param))]
    fn read(tokens: &mut Cursor<'_>, room: u16) -> Result<Param, Stop> {
        let place = here(tokens)?;
        if !tokens.sees_reserved(Reserved::Using) {
            let value = typed(tokens, room)?;
            return Ok(Param::Value(value.ty, value.name));
        }
        if room == 0 {
            return Err(Stop::Here);
        }
        tokens.skip();
        let name = word(tokens)?;
        Ok(Param::Type(place, name))
    }

    ghost local = { local_one_param };
}

#[tactic(auto, unfolding(file_grammar::specs::Files::params))]
fn params(tokens: &mut Cursor<'_>, room: u16) -> Result<Items<Param>, Stop>
    ensures { Reads (spec.params room tokens.old) result tokens.new }
{
    if !tokens.sees(Sign::LeftParenthesis) {
        return Ok(Items::new(tokens.alloc));
    }
    tokens.skip();
    let found = separated(tokens, room)?;
    tokens.expect(Sign::RightParenthesis)?;
    Ok(found)
}

#[tactic(auto, unfolding(file_grammar::specs::Files::below))]
fn member(tokens: &mut Cursor<'_>, room: u16, kind: UnitKind) -> Result<Member, Stop>
    ensures { Reads (starts.member_of kind room tokens.old) result tokens.new }
{
    if room == 0 {
        return Err(Stop::Here);
    }
    match kind {
        UnitKind::Processor => processor_member(tokens, room - 1),
        UnitKind::Graph => graph_member(tokens, room - 1),
    }
}

fn until_brace(tokens: &mut Cursor<'_>, room: u16, kind: UnitKind) -> Result<Items<Member>, Stop>
    ensures { Reads (while_sees (is_other RightBrace) (starts.member_of kind room) [] tokens.old) result tokens.new }
{
    let mut found = Items::new(tokens.alloc);
    while tokens.sees_other(Sign::RightBrace) {
        let part = member(tokens, room, kind)?;
        found.push(part)?;
    }
    Ok(found)
}

#[tactic(auto, unfolding(file_grammar::specs::Members::in_braces))]
fn members(tokens: &mut Cursor<'_>, room: u16, kind: UnitKind) -> Result<Items<Member>, Stop>
    ensures { Reads (in_braces (starts.member_of kind room) tokens.old) result tokens.new }
{
    let found = until_brace(tokens, room, kind)?;
    tokens.expect(Sign::RightBrace)?;
    Ok(found)
}

/// A processor or a graph, from its name on. The first word stands at the place.
#[tactic(auto, unfolding(file_grammar::specs::Files::unit_of))]
pub fn unit(
    tokens: &mut Cursor<'_>,
    room: u16,
    place: Place,
    kind: UnitKind,
) -> Result<UnitDecl, Stop>
    ensures { Reads (spec.unit_of room (starts.member_of kind room) place tokens.old) result tokens.new }
{
    let name = word(tokens)?;
    let params = params(tokens, room)?;
    let keys = keys(tokens, room)?;
    tokens.expect(Sign::LeftBrace)?;
    let members = members(tokens, room, kind)?;
    Ok(UnitDecl {
        place,
        name,
        params,
        keys,
        members,
    })
}
