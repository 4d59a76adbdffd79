ghost use Rattle.std.specs.Prelude.{◌≡◌, ◌++◌, ◌≤◌, length, reverse, IfOk, IfErr, OnOk};
ghost use Rattle.cm_core.specs.Consistent.{IsConsistent};
ghost use Rattle.cm_core.specs.Tree.{leaf_nodes};
ghost use Rattle.graph_flat.specs.Refusal.{IsRefusal};

use cm_base::limits::LEAVES;
use cm_base::{Cause, Fail, NodeId};
use cm_core::{Body, Program};
use std::alloc::{AllocError, Global};

/// Puts these on the stack, so that the first comes off first.
pub fn push_reversed<T: Copy>(stack: &mut Vec<T>, more: &[T]) -> Result<(), AllocError>
    ensures { OnOk result (stack.new.items ≡ stack.old.items ++ reverse more.now) }
{
    let count = more.len();
    for step in 0..count {
        stack.push(more[count - 1 - step])?;
    }
    Ok(())
}

/// The leaves of the tree of instances, depth first.
pub fn leaf_nodes(alloc: Global, program: &Program) -> Result<Vec<NodeId>, Fail>
    requires { IsConsistent program.now }
    ensures found { IfOk result (λ ns. ns.items ≡ leaf_nodes program.now) }
    ensures few { OnOk result (length (leaf_nodes program.now) ≤ 4096) }
    ensures refused { IfErr result (IsRefusal program.now) }
{
    let mut found = Vec::new(alloc);
    let mut stack = Vec::new(alloc);
    stack.push(program.main)?;
    while let Some(id) = stack.pop() {
        match &program.node(id).body {
            Body::Leaf(_) => {
                if found.len() >= LEAVES as usize {
                    return Err(Fail::refused(alloc, Cause::TooManyLeaves, program.place));
                }
                found.push(id)?;
            }
            Body::Graph(inner) => push_reversed(&mut stack, inner.as_slice())?,
        }
    }
    Ok(found)
}
