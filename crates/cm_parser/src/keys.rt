ghost use Rattle.std.specs.Prelude.{◌≡◌, Ok};
ghost use Rattle.cm_tree.specs.declared.sign.Sign.TheVariants.{Colon};
ghost use Rattle.token_reader.specs.Parsers.{Reads, see, is_sign};
ghost use Rattle.token_reader.specs.Lists.{optional};
ghost use Rattle.file_grammar.specs.Members as spec;
ghost use Rattle.file_grammar.proofs.FarDecls.{local_one_key};

use crate::lists::{Part, separated};
use crate::words::word;
use cm_base::Items;
use cm_parse_expr::read_expr;
use cm_tree::{Key, KeyValue, Sign, TokenKind};
use token_reader::{Cursor, Stop};

fn is_text(kind: &TokenKind) -> bool
    ensures { result ≡ spec.is_text kind.now }
{
    match kind {
        TokenKind::Text(_) => true,
        _ => false,
    }
}

#[tactic(auto, unfolding(token_reader::specs::Parsers::sees, token_reader::specs::Parsers::see))]
fn sees_text(tokens: &Cursor<'_>) -> bool
    ensures { see spec.is_text tokens.now ≡ Ok (result, tokens.now) }
{
    match tokens.peek() {
        Some(token) => is_text(&token.kind),
        None => false,
    }
}

#[tactic(auto, unfolding(file_grammar::specs::Members::key_value))]
fn key_value(tokens: &mut Cursor<'_>, room: u16) -> Result<KeyValue, Stop>
    ensures { Reads (spec.key_value room tokens.old) result tokens.new }
{
    tokens.expect(Sign::Colon)?;
    if sees_text(tokens) {
        let (place, text) = tokens.text()?;
        return Ok(KeyValue::Text(place, text));
    }
    let value = read_expr(tokens, room)?;
    Ok(KeyValue::Value(value))
}

#[tactic(auto, unfolding(token_reader::specs::Lists::optional))]
fn optional_key_value(tokens: &mut Cursor<'_>, room: u16) -> Result<Option<KeyValue>, Stop>
    ensures { Reads (optional (is_sign Colon) (spec.key_value room) tokens.old) result tokens.new }
{
    if !tokens.sees(Sign::Colon) {
        return Ok(None);
    }
    let value = key_value(tokens, room)?;
    Ok(Some(value))
}

impl Part for Key {
    ghost parser = { spec.one_key };

    #[tactic(auto, unfolding(file_grammar::specs::Members::one_key))]
    fn read(tokens: &mut Cursor<'_>, room: u16) -> Result<Key, Stop> {
        let name = word(tokens)?;
        let value = optional_key_value(tokens, room)?;
        Ok(Key { name, value })
    }

    ghost local = { local_one_key };
}

/// An annotation, if one stands there.
#[tactic(auto, unfolding(file_grammar::specs::Members::keys))]
pub fn keys(tokens: &mut Cursor<'_>, room: u16) -> Result<Items<Key>, Stop>
    ensures { Reads (spec.keys room tokens.old) result tokens.new }
{
    if !tokens.sees(Sign::LeftBracket) {
        return Ok(Items::new(tokens.alloc));
    }
    tokens.skip();
    tokens.expect(Sign::LeftBracket)?;
    let found = separated(tokens, room)?;
    tokens.expect(Sign::RightBracket)?;
    tokens.expect(Sign::RightBracket)?;
    Ok(found)
}
