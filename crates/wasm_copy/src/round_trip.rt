ghost use Rattle.std.specs.Prelude.{◌≡◌, ◌<◌, ◌≤◌, ◌^◌, length, IfErr, IfOk, MatchResult};
ghost use Rattle.wasm_tree.specs.Spelled.{Spelled};
ghost use Rattle.wasm_tree.specs.declared.failure.ModuleFail.TheVariants.{NoMemory as LacksMemory};
ghost use Rattle.wasm_tree.specs.declared.module.Module.{Module as TheModule};
ghost use Rattle.wasm_copy.specs.Copies.{IsCopy};
ghost use Rattle.wasm_writer.specs.Spelling.{IsWritable};

use cm_base::Bytes;
use std::alloc::Global;
use wasm_reader::read_module;
use wasm_tree::{Module, ModuleFail};
use wasm_writer::{spelled_is_writable, spelling_is_shortest, write_module};

/// Writes a module and reads it again: what is written is read as the same module.
pub fn reread(alloc: Global, module: &Module) -> Result<Module, ModuleFail>
    requires { IsWritable «module».now }
    ensures { MatchResult result (λ read. read ≡ «module».now) (λ e. e ≡ LacksMemory) }
{
    match write_module(alloc, module) {
        Ok(bytes) => read_module(alloc, bytes.as_slice()),
        Err(_) => Err(ModuleFail::NoMemory),
    }
}

/// The shortest bytes that spell the module which these bytes spell.
pub fn shortened(alloc: Global, bytes: &[u8]) -> Result<Bytes, ModuleFail>
    requires { length bytes.now < 2 ^ 32 }
    ensures copy { IfOk result (IsCopy bytes.now) }
    ensures only { (m : TheModule) → Spelled bytes.now m → IfErr result (λ e. e ≡ LacksMemory) }
{
    spelled_is_writable();
    spelling_is_shortest();
    match read_module(alloc, bytes) {
        Ok(module) => match write_module(alloc, &module) {
            Ok(short) => Ok(short),
            Err(_) => Err(ModuleFail::NoMemory),
        },
        Err(fail) => Err(fail),
    }
}
