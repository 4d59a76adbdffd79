ghost use Rattle.std.specs.Prelude.{◌≡◌};
ghost use Rattle.token_reader.specs.Parsers.{Reads};
ghost use Rattle.file_grammar.specs.Members as spec;
ghost use Rattle.file_grammar.proofs.FarDecls.{local_end_name, local_one_end, takes_one_end};

use crate::keys::keys;
use crate::lists::{Item, Part, group, separated};
use crate::words::word;
use cm_base::{Flow, Kind, Place};
use cm_parse_expr::read_type;
use cm_tree::{End, EndName, Member, Reserved, Sign, TokenKind, TypeExpr};
use token_reader::{Cursor, Stop};

impl Part for EndName {
    ghost parser = { spec.end_name };

    #[tactic(auto, unfolding(file_grammar::specs::Members::end_name))]
    fn read(tokens: &mut Cursor<'_>, room: u16) -> Result<EndName, Stop> {
        let name = word(tokens)?;
        let keys = keys(tokens, room)?;
        Ok(EndName { name, keys })
    }

    ghost local = { local_end_name };
}

fn kind_of(kind: &TokenKind) -> Option<Kind>
    ensures { result ≡ spec.kind_of kind.now }
{
    match kind {
        TokenKind::Reserved(Reserved::Event) => Some(Kind::Event),
        TokenKind::Word(name) => {
            if name.as_bytes() == b"stream".as_slice() {
                Some(Kind::Stream)
            } else if name.as_bytes() == b"value".as_slice() {
                Some(Kind::Value)
            } else {
                None
            }
        }
        _ => None,
    }
}

#[tactic(auto, unfolding(file_grammar::specs::Members::end_names, file_grammar::specs::Stmts::semicolon))]
fn end_names(
    tokens: &mut Cursor<'_>,
    room: u16,
    place: Place,
    kind: Kind,
    ty: TypeExpr,
) -> Result<End, Stop>
    ensures { Reads (spec.end_names room place kind ty tokens.old) result tokens.new }
{
    let names = separated(tokens, room)?;
    tokens.expect(Sign::Semicolon)?;
    Ok(End {
        place,
        kind,
        ty,
        names,
    })
}

impl Part for End {
    ghost parser = { spec.one_end };

    #[tactic(auto, unfolding(file_grammar::specs::Members::one_end))]
    fn read(tokens: &mut Cursor<'_>, room: u16) -> Result<End, Stop> {
        let Some(token) = tokens.peek() else {
            return Err(Stop::Here);
        };
        let Some(kind) = kind_of(&token.kind) else {
            return Err(Stop::Here);
        };
        tokens.skip();
        let ty = read_type(tokens, room)?;
        end_names(tokens, room, token.place, kind, ty)
    }

    ghost local = { local_one_end };
}

impl Item for End {
    ghost takes = { takes_one_end };
}

/// Endpoints, from what follows `input` or `output` on, which stands at the place.
#[tactic(auto, unfolding(file_grammar::specs::Members::ends))]
pub fn ends(tokens: &mut Cursor<'_>, room: u16, place: Place, flow: Flow) -> Result<Member, Stop>
    ensures { Reads (spec.ends room place flow tokens.old) result tokens.new }
{
    let all = group(tokens, room)?;
    Ok(Member::Ends(place, flow, all))
}
