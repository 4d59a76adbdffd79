ghost use Rattle.cm_tree.specs.declared.sign.Sign.TheVariants.{Assign};
ghost use Rattle.token_reader.specs.Parsers.{Reads, is_sign};
ghost use Rattle.token_reader.specs.Lists.{optional};
ghost use Rattle.file_grammar.specs.Simples as spec;
ghost use Rattle.file_grammar.proofs.Far.{local_init, local_var};

use crate::lists::{Part, further, separated};
use crate::words::word;
use cm_base::Items;
use cm_parse_expr::read_expr;
use cm_tree::{Expr, Init, Sign, Var, Word};
use token_reader::{Cursor, Stop};

/// `=` and a value.
#[tactic(auto, unfolding(file_grammar::specs::Simples::value))]
pub fn value(tokens: &mut Cursor<'_>, room: u16) -> Result<Expr, Stop>
    ensures { Reads (spec.value room tokens.old) result tokens.new }
{
    tokens.expect(Sign::Assign)?;
    read_expr(tokens, room)
}

impl Part for Init {
    ghost parser = { spec.init };

    #[tactic(auto, unfolding(file_grammar::specs::Simples::init))]
    fn read(tokens: &mut Cursor<'_>, room: u16) -> Result<Init, Stop> {
        let name = word(tokens)?;
        let value = value(tokens, room)?;
        Ok(Init { name, value })
    }

    ghost local = { local_init };
}

/// Names with their values.
#[tactic(auto, unfolding(file_grammar::specs::Simples::inits))]
pub fn inits(tokens: &mut Cursor<'_>, room: u16) -> Result<Items<Init>, Stop>
    ensures { Reads (spec.inits room tokens.old) result tokens.new }
{
    separated(tokens, room)
}

#[tactic(auto, unfolding(token_reader::specs::Lists::optional))]
fn optional_value(tokens: &mut Cursor<'_>, room: u16) -> Result<Option<Expr>, Stop>
    ensures { Reads (optional (is_sign Assign) (spec.value room) tokens.old) result tokens.new }
{
    if !tokens.sees(Sign::Assign) {
        return Ok(None);
    }
    let value = value(tokens, room)?;
    Ok(Some(value))
}

#[tactic(auto, unfolding(file_grammar::specs::Simples::var_of))]
fn var_of(tokens: &mut Cursor<'_>, room: u16, name: Word) -> Result<Var, Stop>
    ensures { Reads (spec.var_of room name tokens.old) result tokens.new }
{
    let value = optional_value(tokens, room)?;
    Ok(Var { name, value })
}

impl Part for Var {
    ghost parser = { spec.var };

    #[tactic(auto, unfolding(file_grammar::specs::Simples::var))]
    fn read(tokens: &mut Cursor<'_>, room: u16) -> Result<Var, Stop> {
        let name = word(tokens)?;
        var_of(tokens, room, name)
    }

    ghost local = { local_var };
}

/// The names that are declared with a type, from what follows the first one on.
#[tactic(auto, unfolding(file_grammar::specs::Simples::vars_of, file_grammar::specs::Simples::more_vars, file_grammar::specs::Simples::next_var))]
pub fn vars_of(tokens: &mut Cursor<'_>, room: u16, name: Word) -> Result<Items<Var>, Stop>
    ensures { Reads (spec.vars_of room name tokens.old) result tokens.new }
{
    let first = var_of(tokens, room, name)?;
    let mut found = Items::new(tokens.alloc);
    found.push(first)?;
    further(tokens, room, found)
}

/// The names that are declared with a type.
#[tactic(auto, unfolding(file_grammar::specs::Simples::vars))]
pub fn vars(tokens: &mut Cursor<'_>, room: u16) -> Result<Items<Var>, Stop>
    ensures { Reads (spec.vars room tokens.old) result tokens.new }
{
    let name = word(tokens)?;
    vars_of(tokens, room, name)
}
