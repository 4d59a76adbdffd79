// What is prepared of a module before it runs.

ghost use Rattle.std.specs.Prelude.{◌≡◌, ◌<◌, ◌≤◌, length, IfOk};
ghost use Rattle.wasm_tree.specs.Numbers.{declared_locals};
ghost use Rattle.wasm_tree.specs.Section.{CmajorSection};
ghost use Rattle.wasm_tree.specs.Spelled.{count_of_locals, most_locals};
ghost use Rattle.wasm_tree.specs.Valid.{Valid};
ghost use Rattle.wasm_runner.specs.Prepared.{IsFunctionOf, ArePrepared};

use crate::function::Function;
use crate::jump::jumps_of;
use std::alloc::{AllocError, Global};
use wasm_tree::{FuncBody, LocalRun, Module};

// How many locals these runs declare.
#[tactic(auto, using(crate::proofs::Preparing::count_more, crate::proofs::Preparing::count_below, crate::proofs::Preparing::count_whole))]
fn count_locals(runs: &[LocalRun]) -> usize
    requires { count_of_locals runs.now ≤ most_locals }
    ensures { result ≡ length (declared_locals runs.now) }
{
    let mut count: usize = 0;
    for run in runs {
        count += run.count as usize;
    }
    count
}

// What is prepared of a function of the type of this number.
fn prepare_function(
    alloc: Global,
    loaded: &Module,
    ty: u32,
    body: &FuncBody,
) -> Result<Function, AllocError>
    requires there { ty < length loaded.now.types }
    requires few { count_of_locals body.now.locals ≤ most_locals }
    ensures { IfOk result (λ function. IsFunctionOf loaded.now ty body.now function) }
{
    let ty = &loaded.types.as_slice()[ty as usize];
    let jumps = jumps_of(alloc, body.code.as_slice())?;
    Ok(Function {
        params: ty.params.as_slice().len(),
        locals: count_locals(body.locals.as_slice()),
        results: ty.results.as_slice().len(),
        jumps,
    })
}

/// Prepares the functions of a valid module.
pub fn prepare(alloc: Global, loaded: &Module) -> Result<Vec<Function>, AllocError>
    requires { (section : CmajorSection) × Valid loaded.now section }
    ensures { IfOk result (λ functions. ArePrepared loaded.now functions.items) }
{
    let mut functions = Vec::new(alloc);
    let types = loaded.functions.as_slice();
    let bodies = loaded.codes.as_slice();
    for i in 0..types.len() {
        let function = prepare_function(alloc, loaded, types[i], &bodies[i])?;
        functions.push(function)?;
    }
    Ok(functions)
}
