ghost use Rattle.token_reader.specs.Parsers.{Reads};
ghost use Rattle.token_reader.specs.Lists.{while_sees};
ghost use Rattle.cm_parse_expr.specs.Reading as spec;

use cm_base::{Items, Name};
use cm_tree::{Path, Sign, Word};
use token_reader::{Cursor, Stop};

#[tactic(auto, unfolding(crate::specs::Reading::further_name))]
fn further_name(tokens: &mut Cursor<'_>) -> Result<Name, Stop>
    ensures { Reads (spec.further_name tokens.old) result tokens.new }
{
    tokens.expect(Sign::DoubleColon)?;
    let (_, text) = tokens.name()?;
    Ok(text)
}

fn further_names(tokens: &mut Cursor<'_>, mut names: Items<Name>) -> Result<Items<Name>, Stop>
    ensures { Reads (while_sees spec.colons spec.further_name names tokens.old) result tokens.new }
{
    while tokens.sees(Sign::DoubleColon) {
        let name = further_name(tokens)?;
        names.push(name)?;
    }
    Ok(names)
}

/// A path.
#[tactic(auto, unfolding(crate::specs::Reading::path))]
pub fn path(tokens: &mut Cursor<'_>) -> Result<Path, Stop>
    ensures { Reads (spec.path tokens.old) result tokens.new }
{
    let (place, first) = tokens.name()?;
    let mut names = Items::new(tokens.alloc);
    names.push(first)?;
    let names = further_names(tokens, names)?;
    Ok(Path { place, names })
}
