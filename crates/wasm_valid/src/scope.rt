ghost use Rattle.std.specs.Prelude.{◌≡◌, slice_get};
ghost use Rattle.std.specs.Option.{option_copied};
ghost use Rattle.wasm_tree.specs.Host.{HasImport};
ghost use Rattle.wasm_tree.specs.Numbers.{emit_type as the_emit_type, function_types};
ghost use Rattle.wasm_tree.specs.Valid.{AreFunctionsIndexed};

use wasm_tree::{FuncType, ImportKind, Module, emit_is_function_0};

/// The type of the imported function.
fn emit_type(module: &Module) -> Option<&FuncType>
    requires { HasImport «module».now }
    ensures { option_copied result ≡ Some the_emit_type }
{
    match module.imports.as_slice() {
        [import, ..] => match import.kind {
            ImportKind::Function(ty) => module.types.get(ty as usize),
            ImportKind::Memory(_) => None,
        },
        [] => None,
    }
}

/// The type of the function of this number.
pub fn function_type(module: &Module, number: u32) -> Option<&FuncType>
    requires import { HasImport «module».now }
    requires indexed { AreFunctionsIndexed «module».now }
    ensures { option_copied result ≡ slice_get (function_types «module».now) number }
{
    emit_is_function_0();
    if number == 0 {
        return emit_type(module);
    }
    match module.functions.get(number as usize - 1) {
        Some(ty) => module.types.get(*ty as usize),
        None => None,
    }
}
