ghost use Rattle.std.specs.Prelude.{◌≡◌, ◌+◌, ◌<◌, ◌^◌, IfOk, IfErr, length};
ghost use Rattle.wasm_tree.specs.Valid.{AreBodiesWithinLimits};
ghost use Rattle.wasm_valid.specs.IsBroken.{IsBroken};
ghost use Rattle.wasm_valid.specs.Rules.{HasParts, HasCode, IsAccepted};

use crate::bodies::needs_of;
use crate::broken::{Broken, Part};
use crate::calls::call_ranks;
use crate::described::described;
use crate::exports::check_exports;
use crate::indexed::are_bodies_indexed;
use crate::parts::check_parts;
use crate::rooms::{Bounds, bounds_of};
use section_reader::Section;
use std::alloc::Global;
use wasm_tree::{Module, ModuleRule};

/// What is found of a module that is valid: what its section `cmajor` says, and what calls of its exports hold at most.
#[derive(Drop)]
pub struct Accepted {
    pub section: Section,
    pub bounds: Bounds,
}

/// Checks the rules on code, and tells what calls of the exports hold at most.
fn check_code(alloc: Global, module: &Module) -> Result<Bounds, Broken>
    requires parts { HasParts «module».now }
    requires limits { AreBodiesWithinLimits «module».now }
    requires counts { length «module».now.functions ≡ length «module».now.codes }
    ensures holds { IfOk result (HasCode «module».now) }
    ensures broken { IfErr result (IsBroken «module».now) }
{
    if module.codes.len() >= u32::MAX as usize {
        return Err(Broken::NoMemory);
    }
    if !are_bodies_indexed(module) {
        return Err(Broken::Rule(ModuleRule::Index, Part::Codes));
    }
    let Some(needs) = needs_of(alloc, module)? else {
        return Err(Broken::Rule(ModuleRule::Typing, Part::Codes));
    };
    let Some(ranks) = call_ranks(alloc, module)? else {
        return Err(Broken::Rule(ModuleRule::CallCycle, Part::Codes));
    };
    Ok(bounds_of(alloc, module, &needs, ranks.as_slice())?)
}

/// What is found of the module, if it is valid, and else which part breaks which rule.
#[tactic(auto, using(crate::proofs::AcceptLemmas::accepted_is))]
pub fn accept(alloc: Global, module: &Module) -> Result<Accepted, Broken>
    requires limits { AreBodiesWithinLimits «module».now }
    requires counts { length «module».now.functions ≡ length «module».now.codes }
    ensures accepted { IfOk result (IsAccepted «module».now) }
    ensures broken { IfErr result (IsBroken «module».now) }
{
    check_parts(module)?;
    let section = described(alloc, module)?;
    check_exports(alloc, module, &section)?;
    let bounds = check_code(alloc, module)?;
    Ok(Accepted { section, bounds })
}
