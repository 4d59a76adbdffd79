ghost use Rattle.token_reader.specs.Parsers.{Reads};
ghost use Rattle.cm_parse_expr.specs.Starts as spec;

use crate::tall::Tall;
use cm_tree::TokenKind;
use token_reader::{Cursor, Stop};

/// A number.
#[tactic(auto, unfolding(crate::specs::Starts::number))]
pub fn number(tokens: &mut Cursor<'_>) -> Result<Tall, Stop>
    ensures { Reads (spec.number tokens.old) result tokens.new }
{
    let Some(token) = tokens.peek() else {
        return Err(Stop::Here);
    };
    match &token.kind {
        TokenKind::Number { value, wide } => {
            tokens.skip();
            Ok(Tall::number(token.place, *value, *wide))
        }
        _ => Err(Stop::Here),
    }
}
