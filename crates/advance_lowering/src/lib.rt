//! The body of a processor's `main`, which suspends at `advance`, as numbered blocks (docs/LANGUAGE.md, "advance"). The
//! code of a main is made of them: a leaf keeps the number of the block from which its main goes on.
//!
//! `lower` makes the blocks. The layers above use its contract, `Stands` of `specs/Blocks`: block by block the statements
//! of a block, and where they lead, are what the rest of main that its number stands for does by `resume` of
//! `cm_core/specs/Resume`; a jump that begins no turn leads to a lower number; no `advance` stands in a block; and there are
//! at most three blocks for each split point, and one. Each lawful unit has the main that `lower` asks for
//! (`lawful_mains_are_orderly`). `specs/Lowered` is the same function on plain trees, from a
//! statement's end to its start, so that the number of what follows is known. Statements without `advance` stay whole, and
//! blocks lend them from the unit: nothing is copied.
#![tactic(auto)]

mod advances;
mod block;
mod lowering;
mod open;
mod orderly;
mod rounds;

pub use block::{Block, BlockEnd, Blocks, Exits, LoopTest, Step};
pub use lowering::lower;
pub use orderly::lawful_mains_are_orderly;
