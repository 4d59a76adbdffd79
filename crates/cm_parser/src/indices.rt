ghost use Rattle.std.specs.Prelude.{◌≡◌, [], IfOk, reverse, map};
ghost use Rattle.cm_tree.specs.declared.sign.Sign.TheVariants.{LeftBracket};
ghost use Rattle.token_reader.specs.Parsers.{Reads, is_sign};
ghost use Rattle.token_reader.specs.Lists.{while_sees};
ghost use Rattle.file_grammar.specs.Words as words;
ghost use Rattle.file_grammar.specs.Simples as simples;

use crate::words::bracket;
use cm_base::{Items, Place};
use cm_tree::{Expr, Sign, Step};
use std::alloc::{AllocError, Global};
use token_reader::{Cursor, Stop};

/// An index, with the place of its bracket.
pub type Index = (Place, Expr);

/// Indices in brackets, as many as there are.
pub fn indices(tokens: &mut Cursor<'_>, room: u16) -> Result<Items<Index>, Stop>
    ensures { Reads (while_sees (is_sign LeftBracket) (words.bracket room) [] tokens.old) result tokens.new }
{
    let mut found = Items::new(tokens.alloc);
    while tokens.sees(Sign::LeftBracket) {
        let index = bracket(tokens, room)?;
        found.push(index)?;
    }
    Ok(found)
}

fn reversed<T: Drop>(alloc: Global, mut items: Items<T>) -> Result<Items<T>, AllocError>
    ensures { IfOk result (λ found. found ≡ reverse items) }
{
    let mut found = Items::new(alloc);
    while let Some(item) = items.pop() {
        found.push(item)?;
    }
    Ok(found)
}

/// The sizes of the arrays of a type.
pub fn sizes_of(alloc: Global, indices: Items<Index>) -> Result<Items<Expr>, AllocError>
    ensures { IfOk result (λ found. found ≡ map simples.second indices) }
{
    let mut left = reversed(alloc, indices)?;
    let mut found = Items::new(alloc);
    while let Some((_place, size)) = left.pop() {
        found.push(size)?;
    }
    Ok(found)
}

/// The steps to a part of a variable.
pub fn steps_of(alloc: Global, indices: Items<Index>) -> Result<Items<Step>, AllocError>
    ensures { IfOk result (λ found. found ≡ map simples.index indices) }
{
    let mut left = reversed(alloc, indices)?;
    let mut found = Items::new(alloc);
    while let Some((place, index)) = left.pop() {
        found.push(Step::Index(place, index))?;
    }
    Ok(found)
}
