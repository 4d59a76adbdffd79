ghost use Rattle.std.specs.Prelude.{◌≡◌, ◌<◌, ◌≤◌, ◌^◌, ◌↔◌, length, All, IsTrue};
ghost use Rattle.wasm_tree.specs.Control.{IsClosed};
ghost use Rattle.wasm_tree.specs.Spelled.{IsConstant, count_of_locals, most_locals, sorted_customs};
ghost use Rattle.wasm_tree.specs.Valid.{IsBodyWithinLimits};
ghost use Rattle.wasm_writer.specs.Spelling.{vector_bytes, custom_contents, ListsFit, IsWritable};

use crate::encode::{Encode, size_of_vector};
use crate::section_sizes::size_of_custom;
use crate::size::BOUND;
use cm_base::{Items, limits};
use wasm_tree::{ControlStack, Custom, FuncBody, GlobalVar, Instr, LocalRun, Module, is_cmajor};

/// Whether the contents of a section that lists the parts have a size of 32 bits.
fn fits<P: Encode>(parts: &Items<P>) -> bool
    ensures { IsTrue result ↔ (length (vector_bytes P.shortest parts.now) < 2 ^ 32) }
{
    size_of_vector(parts) < BOUND
}

fn lists_fit(module: &Module) -> bool
    ensures { IsTrue result ↔ ListsFit «module».now }
{
    fits(&module.types)
        && fits(&module.imports)
        && fits(&module.functions)
        && fits(&module.memory)
        && fits(&module.globals)
        && fits(&module.exports)
        && fits(&module.codes)
        && fits(&module.segments)
}

fn customs_fit(customs: &[Custom]) -> bool
    ensures { IsTrue result ↔ All (λ custom. length (custom_contents custom) < 2 ^ 32) customs.now }
{
    for custom in customs {
        if size_of_custom(custom) >= BOUND {
            return false;
        }
    }
    true
}

fn is_constant(instr: &Instr) -> bool
    ensures { IsTrue result ↔ IsConstant instr.now }
{
    matches!(instr, Instr::I32Const(_) | Instr::I64Const(_))
}

fn are_constant(globals: &[GlobalVar]) -> bool
    ensures { IsTrue result ↔ All (λ global. IsConstant global.value) globals.now }
{
    for global in globals {
        if !is_constant(&global.value) {
            return false;
        }
    }
    true
}

fn has_few_locals(runs: &[LocalRun]) -> bool
    ensures { IsTrue result ↔ (count_of_locals runs.now ≤ most_locals) }
{
    let mut total = 0;
    for run in runs {
        total += u64::from(run.count);
        if total > limits::LOCALS {
            return false;
        }
    }
    true
}

/// Whether the code ends each sequence that it opens, and the function's own last. What the stack had open
/// before does not matter.
fn is_closed(stack: &mut ControlStack, code: &[Instr]) -> bool
    ensures { IsTrue result ↔ IsClosed code.now }
{
    stack.restart();
    for instr in code {
        if !stack.follow(instr) {
            return false;
        }
    }
    stack.is_ended()
}

fn are_formed(bodies: &[FuncBody]) -> bool
    ensures { IsTrue result ↔ All IsBodyWithinLimits bodies.now }
{
    let mut stack = ControlStack::new();
    for body in bodies {
        if !has_few_locals(body.locals.as_slice()) {
            return false;
        }
        if !is_closed(&mut stack, body.code.as_slice()) {
            return false;
        }
    }
    true
}

/// Whether the custom sections named `cmajor` come last.
fn are_sorted(customs: &[Custom]) -> bool
    ensures { IsTrue result ↔ (customs.now ≡ sorted_customs customs.now) }
{
    let mut last = false;
    for custom in customs {
        let named = is_cmajor(&custom.name);
        if last && !named {
            return false;
        }
        last = named;
    }
    true
}

/// Whether `write_module` can write the module: the contents of its sections have sizes of 32 bits, and its
/// parts are as the format and this project's limits ask. This is the test for a module that a caller has from
/// elsewhere. Its time is linear in the module, and it takes no memory.
pub fn is_writable(module: &Module) -> bool
    ensures { IsTrue result ↔ IsWritable «module».now }
{
    lists_fit(module)
        && customs_fit(module.customs.as_slice())
        && are_constant(module.globals.as_slice())
        && are_formed(module.codes.as_slice())
        && are_sorted(module.customs.as_slice())
        && module.functions.len() == module.codes.len()
}
