ghost use Rattle.cm_tree.specs.declared.sign.Sign.TheVariants.{LeftBracket, Star, Dot};
ghost use Rattle.token_reader.specs.Parsers.{Reads, is_sign};
ghost use Rattle.token_reader.specs.Lists.{optional};
ghost use Rattle.cm_parse_expr.specs.Reading as exprs;
ghost use Rattle.cm_parse_expr.proofs.Reach.{local_arg};
ghost use Rattle.file_grammar.specs.Words.{within};
ghost use Rattle.file_grammar.specs.Members as spec;
ghost use Rattle.file_grammar.proofs.FarDecls.{local_one_node, local_link, takes_link};

use crate::lists::{Item, Part, group, separated};
use crate::words::{bracket, here, word};
use cm_base::{Items, Place};
use cm_parse_expr::{read_arg, read_expr, read_path};
use cm_tree::{Arg, Expr, Link, Member, Node, Path, Point, Sign, Word};
use token_reader::{Cursor, Stop};

impl Part for Arg {
    ghost parser = { exprs.arg };

    fn read(tokens: &mut Cursor<'_>, room: u16) -> Result<Arg, Stop> {
        read_arg(tokens, room)
    }

    ghost local = { local_arg };
}

#[tactic(auto, unfolding(file_grammar::specs::Members::args))]
fn args(tokens: &mut Cursor<'_>, room: u16) -> Result<Items<Arg>, Stop>
    ensures { Reads (spec.args room tokens.old) result tokens.new }
{
    if !tokens.sees(Sign::LeftParenthesis) {
        return Ok(Items::new(tokens.alloc));
    }
    tokens.skip();
    let found = separated(tokens, room)?;
    tokens.expect(Sign::RightParenthesis)?;
    Ok(found)
}

#[tactic(auto, unfolding(token_reader::specs::Lists::optional, file_grammar::specs::Members::index))]
fn optional_index(tokens: &mut Cursor<'_>, room: u16) -> Result<Option<Expr>, Stop>
    ensures { Reads (optional (is_sign LeftBracket) (spec.index room) tokens.old) result tokens.new }
{
    if !tokens.sees(Sign::LeftBracket) {
        return Ok(None);
    }
    let (_place, index) = bracket(tokens, room)?;
    Ok(Some(index))
}

#[tactic(auto, unfolding(token_reader::specs::Lists::optional, file_grammar::specs::Members::factor))]
fn optional_factor(tokens: &mut Cursor<'_>, room: u16) -> Result<Option<Expr>, Stop>
    ensures { Reads (optional (is_sign Star) (spec.factor room) tokens.old) result tokens.new }
{
    if !tokens.sees(Sign::Star) {
        return Ok(None);
    }
    tokens.expect(Sign::Star)?;
    let factor = read_expr(tokens, room)?;
    Ok(Some(factor))
}

fn node_path(tokens: &mut Cursor<'_>, room: u16) -> Result<Path, Stop>
    ensures { Reads (within room exprs.path tokens.old) result tokens.new }
{
    if room == 0 {
        return Err(Stop::Here);
    }
    read_path(tokens)
}

impl Part for Node {
    ghost parser = { spec.one_node };

    #[tactic(auto, unfolding(file_grammar::specs::Members::one_node))]
    fn read(tokens: &mut Cursor<'_>, room: u16) -> Result<Node, Stop> {
        let name = word(tokens)?;
        tokens.expect(Sign::Assign)?;
        let path = node_path(tokens, room)?;
        let args = args(tokens, room)?;
        let count = optional_index(tokens, room)?;
        let factor = optional_factor(tokens, room)?;
        Ok(Node {
            name,
            path,
            args,
            count,
            factor,
        })
    }

    ghost local = { local_one_node };
}

/// Nodes, from what follows `node` on, which stands at the place.
#[tactic(auto, unfolding(file_grammar::specs::Members::nodes, file_grammar::specs::Stmts::semicolon))]
pub fn nodes(tokens: &mut Cursor<'_>, room: u16, place: Place) -> Result<Member, Stop>
    ensures { Reads (spec.nodes room place tokens.old) result tokens.new }
{
    let all = separated(tokens, room)?;
    tokens.expect(Sign::Semicolon)?;
    Ok(Member::Nodes(place, all))
}

#[tactic(auto, unfolding(token_reader::specs::Lists::optional, file_grammar::specs::Members::dotted))]
fn optional_end(tokens: &mut Cursor<'_>) -> Result<Option<Word>, Stop>
    ensures { Reads (optional (is_sign Dot) spec.dotted tokens.old) result tokens.new }
{
    if !tokens.sees(Sign::Dot) {
        return Ok(None);
    }
    tokens.expect(Sign::Dot)?;
    let end = word(tokens)?;
    Ok(Some(end))
}

#[tactic(auto, unfolding(file_grammar::specs::Members::point))]
fn point(tokens: &mut Cursor<'_>, room: u16) -> Result<Point, Stop>
    ensures { Reads (spec.point room tokens.old) result tokens.new }
{
    if room == 0 {
        return Err(Stop::Here);
    }
    let name = word(tokens)?;
    let index = optional_index(tokens, room)?;
    let end = optional_end(tokens)?;
    Ok(Point { name, index, end })
}

#[tactic(auto, unfolding(token_reader::specs::Lists::optional, file_grammar::specs::Members::delay))]
fn optional_delay(tokens: &mut Cursor<'_>, room: u16) -> Result<Option<Expr>, Stop>
    ensures { Reads (optional (is_sign LeftBracket) (spec.delay room) tokens.old) result tokens.new }
{
    if !tokens.sees(Sign::LeftBracket) {
        return Ok(None);
    }
    tokens.expect(Sign::LeftBracket)?;
    let delay = read_expr(tokens, room)?;
    tokens.expect(Sign::RightBracket)?;
    tokens.expect(Sign::Arrow)?;
    Ok(Some(delay))
}

#[tactic(auto, unfolding(file_grammar::specs::Members::link_of, file_grammar::specs::Stmts::semicolon))]
fn link_of(tokens: &mut Cursor<'_>, room: u16, place: Place, latch: bool) -> Result<Link, Stop>
    ensures { Reads (spec.link_of room place latch tokens.old) result tokens.new }
{
    let from = point(tokens, room)?;
    tokens.expect(Sign::Arrow)?;
    let delay = optional_delay(tokens, room)?;
    let to = point(tokens, room)?;
    tokens.expect(Sign::Semicolon)?;
    Ok(Link {
        place,
        latch,
        from,
        delay,
        to,
    })
}

impl Part for Link {
    ghost parser = { spec.link };

    #[tactic(auto, unfolding(file_grammar::specs::Members::link))]
    fn read(tokens: &mut Cursor<'_>, room: u16) -> Result<Link, Stop> {
        let place = here(tokens)?;
        if !tokens.sees(Sign::LeftBracket) {
            return link_of(tokens, room, place, false);
        }
        tokens.skip();
        tokens.expect_word(b"latch")?;
        tokens.expect(Sign::RightBracket)?;
        link_of(tokens, room, place, true)
    }

    ghost local = { local_link };
}

impl Item for Link {
    ghost takes = { takes_link };
}

/// Connections, from what follows `connection` on, which stands at the place.
#[tactic(auto, unfolding(file_grammar::specs::Members::connection))]
pub fn connection(tokens: &mut Cursor<'_>, room: u16, place: Place) -> Result<Member, Stop>
    ensures { Reads (spec.connection room place tokens.old) result tokens.new }
{
    let all = group(tokens, room)?;
    Ok(Member::Connection(place, all))
}
