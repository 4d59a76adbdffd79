ghost use Rattle.std.specs.Prelude.{◌≡◌, ◌++◌, IsTrue, IfOk, OnOk, length, map, nat_eq};
ghost use Rattle.std.specs.List.{IsDistinct, flat_map};
ghost use Rattle.program_shape.specs.Shape.{all_ends};

use crate::distinct::are_distinct;
use cm_base::EndId;
use cm_core::Program;
use std::alloc::{AllocError, Global};

fn push_ends(numbers: &mut Vec<u32>, ends: &[EndId]) -> Result<(), AllocError>
    ensures { OnOk result (numbers.new.items ≡ numbers.old.items ++ map (λ e. e.0) ends.now) }
{
    for end in ends {
        numbers.push(end.0)?;
    }
    Ok(())
}

/// The numbers of the endpoints of all instances.
fn numbers_of_ends(alloc: Global, program: &Program) -> Result<Vec<u32>, AllocError>
    ensures { IfOk result (λ v. v.items ≡ map (λ e. e.0) (all_ends program.now.nodes)) }
{
    let mut numbers = Vec::new(alloc);
    for node in program.nodes.as_slice() {
        push_ends(&mut numbers, node.ends.as_slice())?;
    }
    Ok(numbers)
}

/// Whether each endpoint is of one instance.
pub fn have_own_ends(alloc: Global, program: &Program) -> Result<bool, AllocError>
    ensures distinct { IfOk result (λ b. IsTrue b → IsDistinct nat_eq (map (λ e. e.0) (all_ends program.now.nodes))) }
    ensures all { IfOk result (λ b. IsTrue b → length (all_ends program.now.nodes) ≡ length program.now.ends) }
{
    let count = program.ends.len();
    let numbers = numbers_of_ends(alloc, program)?;
    if numbers.len() != count {
        return Ok(false);
    }
    are_distinct(alloc, count, &numbers)
}
