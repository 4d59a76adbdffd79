ghost use Rattle.std.specs.Prelude.{◌≡◌, [], ◌∷◌, ◌++◌, length, map, IfOk, OnOk};
ghost use Rattle.advance_lowering.specs.Lowered.{closed, at_end, pushed};
ghost use Rattle.advance_lowering.specs.Views.{block_of, open_of, jump_of, step_of, exits_in};

use crate::block::{Block, BlockEnd, Exits, Step};
use cm_base::{Items, NoMemory};
use std::alloc::Global;

/// A block whose start is still to come: what is done in it, the last step first, and its end.
#[derive(Drop)]
pub struct Open<'a> {
    pub body: Vec<Step<'a>>,
    pub end: BlockEnd<'a>,
}

/// An open block with nothing in it.
pub fn open_at<'a>(alloc: Global, end: BlockEnd<'a>) -> Open<'a>
    ensures { open_of result ≡ at_end (jump_of end.entry) }
{
    Open {
        body: Vec::new(alloc),
        end,
    }
}

// The number of the next block.
fn next_number<'a>(blocks: &[Block<'a>]) -> Result<u32, NoMemory>
    ensures { IfOk result (λ number. number ≡ length blocks.now) }
{
    match u32::try_from(blocks.len()) {
        Ok(number) => Ok(number),
        Err(_) => Err(NoMemory),
    }
}

/// Gives an open block its number.
pub fn close<'a>(
    blocks: &mut Vec<Block<'a>>,
    exits: Option<Exits>,
    top: Open<'a>,
) -> Result<u32, NoMemory>
    ensures number { IfOk result (λ number. number ≡ length (map block_of blocks.old.items)) }
    ensures blocks { OnOk result (map block_of blocks.new.items ≡ map block_of blocks.old.items ++ closed (exits_in exits) (open_of top.entry) ∷ []) }
{
    let number = next_number(blocks.as_slice())?;
    let Open { mut body, end } = top;
    body.reverse();
    blocks.push(Block {
        body: Items::from_vec(body),
        end,
        exits,
    })?;
    Ok(number)
}

/// One more step before an open block.
pub fn before<'a>(step: Step<'a>, mut top: Open<'a>) -> Result<Open<'a>, NoMemory>
    ensures { IfOk result (λ made. open_of made ≡ pushed (step_of step.entry) (open_of top.entry)) }
{
    top.body.push(step)?;
    Ok(top)
}
