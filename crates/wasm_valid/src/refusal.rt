//! Refusals: where in its bytes a module breaks a rule.

ghost use Rattle.std.specs.Prelude.{ℕ, ◌≡◌, IfOk};
ghost use Rattle.wasm_tree.specs.declared.module.Module.{Module as TheModule};
ghost use Rattle.wasm_tree.specs.Spelled.{Spelled};
ghost use Rattle.wasm_tree.specs.Refusal.{IsOffset, IsSectionAt, IsCmajorAt};
ghost use Rattle.wasm_valid.specs.IsBroken.{holder_of, IsBroken};
ghost use Rattle.wasm_valid.specs.Rules.{IsFailure};

use crate::broken::{Broken, Part};
use cm_base::NoMemory;
use section_reader::{Wanted, offset_of};
use wasm_tree::{ModuleFail, ModuleRefused};

/// The offset of the section with this id.
fn section_offset(bytes: &[u8], id: u8) -> Result<u64, NoMemory>
    ensures { IfOk result (λ offset. (there : ℕ) → IsSectionAt id there bytes.now → IsSectionAt id offset bytes.now) }
{
    offset_of(bytes, Wanted::Section(id), 0)
}

/// The offset of the section `cmajor` behind so many others of its name.
fn cmajor_offset(bytes: &[u8], others: u32) -> Result<u64, NoMemory>
    ensures { IfOk result (λ offset. (there : ℕ) → IsCmajorAt others there bytes.now → IsCmajorAt others offset bytes.now) }
{
    offset_of(bytes, Wanted::Cmajor, others)
}

/// The offset of the id byte of the section that holds the part, and the length of the bytes for what is missing.
fn offset_of_part(bytes: &[u8], part: Part) -> Result<u64, NoMemory>
    // Where there is such a section, one has this offset.
    ensures { IfOk result (λ offset. (there : ℕ) → IsOffset (holder_of part) there bytes.now → IsOffset (holder_of part) offset bytes.now) }
{
    match part {
        Part::Types => section_offset(bytes, 1),
        Part::Imports => section_offset(bytes, 2),
        Part::Functions => section_offset(bytes, 3),
        Part::Memories => section_offset(bytes, 5),
        Part::Globals => section_offset(bytes, 6),
        Part::Exports => section_offset(bytes, 7),
        Part::Codes => section_offset(bytes, 10),
        Part::Segments => section_offset(bytes, 11),
        Part::Cmajor => cmajor_offset(bytes, 0),
        Part::SecondCmajor => cmajor_offset(bytes, 1),
        Part::Missing => Ok(bytes.len() as u64),
    }
}

/// The refusal of the module that these bytes spell, which breaks a rule.
#[tactic(auto, using(crate::proofs::RefusalLemmas::refusal_is))]
pub fn refusal(bytes: &[u8], broken: Broken) -> ModuleFail
    ensures { (m : TheModule) → Spelled bytes.now m → IsBroken m broken → IsFailure m bytes.now result }
{
    match broken {
        Broken::NoMemory => ModuleFail::NoMemory,
        Broken::Rule(rule, part) => match offset_of_part(bytes, part) {
            Ok(offset) => ModuleFail::Refused(ModuleRefused { offset, rule }),
            Err(NoMemory) => ModuleFail::NoMemory,
        },
    }
}
