ghost use Rattle.std.specs.Prelude.{◌≡◌, IfErr, OnOk};
ghost use Rattle.wasm_tree.specs.Section.{CmajorSection};
ghost use Rattle.wasm_tree.specs.Spelled.{Spelled};
ghost use Rattle.wasm_tree.specs.Valid.{Valid as IsValid};
ghost use Rattle.wasm_tree.specs.declared.failure.ModuleFail.TheVariants.{NoMemory as LacksMemory};
ghost use Rattle.wasm_tree.specs.declared.module.Module.{Module as TheModule};
ghost use Rattle.wasm_copy.specs.Copies.{SpellValid};

use std::alloc::Global;
use wasm_reader::read_module;
use wasm_tree::ModuleFail;
use wasm_valid::validate;

/// Whether bytes spell a valid module; else the rule that fails, and where.
pub fn checked(alloc: Global, bytes: &[u8]) -> Result<(), ModuleFail>
    ensures valid { OnOk result (SpellValid bytes.now) }
    ensures only { (m : TheModule) → (section : CmajorSection) → Spelled bytes.now m → IsValid m section → IfErr result (λ e. e ≡ LacksMemory) }
{
    let module = match read_module(alloc, bytes) {
        Ok(module) => module,
        Err(fail) => return Err(fail),
    };
    match validate(alloc, module, bytes) {
        Ok(valid) => {
            let _module = valid.module();
            Ok(())
        }
        Err(fail) => Err(fail),
    }
}
