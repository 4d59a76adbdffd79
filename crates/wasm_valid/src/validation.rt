ghost use Rattle.std.specs.Prelude.{◌≡◌, IfOk, IfErr};
ghost use Rattle.wasm_tree.specs.Section.{CmajorSection};
ghost use Rattle.wasm_tree.specs.Spelled.{Spelled};
ghost use Rattle.wasm_tree.specs.Valid.{Valid as IsValid};
ghost use Rattle.wasm_tree.specs.declared.failure.ModuleFail.TheVariants.{NoMemory as LacksMemory};
ghost use Rattle.wasm_valid.specs.Rules.{IsFailure};

use crate::accept::accept;
use crate::refusal::refusal;
use crate::valid::Valid;
use std::alloc::Global;
use wasm_tree::{Module, ModuleFail};

/// Validates the module that these bytes spell (Core Specification 1.0, chapter 3, for the subset of docs/MODULE.md, with its
/// limits and its interface). A refusal names a rule that the module breaks, and the offset in the bytes of the section that
/// holds the part that breaks it, or the length of the bytes where something is missing. A refused module is dropped. It takes
/// memory in proportion to the module, and its time is near to linear.
#[tactic(auto, using(crate::proofs::AcceptLemmas::spelled_within, crate::proofs::AcceptLemmas::spelled_counts, crate::proofs::AcceptLemmas::failure_complete))]
pub fn validate(alloc: Global, module: Module, bytes: &[u8]) -> Result<Valid, ModuleFail>
    // The bytes spell the module.
    requires { Spelled bytes.now «module» }
    // What is accepted is this module, which is valid (`Valid`).
    ensures accepted { IfOk result (λ valid. valid.of ≡ «module») }
    // A refusal names a rule that the module breaks, and the offset of what breaks it.
    ensures refused { IfErr result (IsFailure «module» bytes.now) }
    // A valid module is refused for want of memory alone.
    ensures complete { (section : CmajorSection) → IsValid «module» section → IfErr result (λ fail. fail ≡ LacksMemory) }
{
    match accept(alloc, &module) {
        Ok(accepted) => Ok(Valid::new(module, accepted)),
        Err(broken) => Err(refusal(bytes, broken)),
    }
}
