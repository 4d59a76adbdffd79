ghost use Rattle.std.specs.Prelude.{ℕ};
ghost use Rattle.cm_tree.specs.declared.expr.Expr.{Expr as Tree};
ghost use Rattle.token_reader.specs.Parsers.{Reads, Parser};
ghost use Rattle.cm_parse_expr.specs.Reading as spec;

use crate::tall::Tall;
use cm_tree::{Sign, Word};
use token_reader::{Cursor, Stop};

/// The step to a field, behind what it is a field of.
#[tactic(auto, unfolding(crate::specs::Reading::field))]
pub fn field(tokens: &mut Cursor<'_>, left: Tall) -> Result<Tall, Stop>
    ensures { (expr : Parser Tree) (binary : ℕ → Parser Tree) → Reads (spec.field expr binary left tokens.old) result tokens.new }
{
    tokens.expect(Sign::Dot)?;
    let (place, text) = tokens.name()?;
    Ok(Tall::field(tokens.alloc, left, Word { place, text })?)
}
