ghost use Rattle.std.specs.Prelude.{◌≡◌, ◌↔◌, ◌<◌, length, IsTrue};
ghost use Rattle.wasm_tree.specs.Host.{HasImport};
ghost use Rattle.wasm_tree.specs.Valid.{AreFunctionsIndexed, AreBodiesIndexed, AreBodiesWithinLimits, HasMemory};
ghost use Rattle.wasm_valid.specs.Indexed.{IsIndexedAt};

use crate::bodies::body_type;
use crate::index::{Space, is_indexed};
use crate::locals::count_locals;
use wasm_tree::Module;

/// Whether the function with this place among the module's own names what is there.
#[tactic(auto, using(crate::proofs::EachLemmas::locals_at, crate::proofs::EachLemmas::closed_at))]
fn is_indexed_at(module: &Module, at: usize) -> bool
    requires import { HasImport «module».now }
    requires memory { HasMemory «module».now.memory }
    requires functions { AreFunctionsIndexed «module».now }
    requires limits { AreBodiesWithinLimits «module».now }
    requires counts { length «module».now.functions ≡ length «module».now.codes }
    requires there { at < length «module».now.codes }
    ensures { IsTrue result ↔ IsIndexedAt «module».now at }
{
    let ty = body_type(module, at);
    let body = &module.codes.as_slice()[at];
    let space = Space {
        functions: module.functions.len() as u64 + 1,
        locals: ty.params.as_slice().len() as u64 + count_locals(body.locals.as_slice()),
        globals: module.globals.len() as u64,
    };
    is_indexed(space, body.code.as_slice())
}

/// Whether each function names what is there.
#[tactic(auto, using(crate::proofs::SpaceLemmas::all_indexed, crate::proofs::SpaceLemmas::indexed_each, crate::proofs::SpaceLemmas::indexed_more))]
pub fn are_bodies_indexed(module: &Module) -> bool
    requires import { HasImport «module».now }
    requires memory { HasMemory «module».now.memory }
    requires functions { AreFunctionsIndexed «module».now }
    requires limits { AreBodiesWithinLimits «module».now }
    requires counts { length «module».now.functions ≡ length «module».now.codes }
    ensures { IsTrue result ↔ AreBodiesIndexed «module».now }
{
    for at in 0..module.codes.len() {
        if !is_indexed_at(module, at) {
            return false;
        }
    }
    true
}
