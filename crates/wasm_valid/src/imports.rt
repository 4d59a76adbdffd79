ghost use Rattle.std.specs.Prelude.{◌≡◌, ◌↔◌, ℕ, [], ◌∷◌, slice_get, Some, IsTrue, codes};
ghost use Rattle.wasm_tree.specs.declared.module.ImportKind.TheVariants as imported;
ghost use Rattle.wasm_tree.specs.Host.{HasImport};
ghost use Rattle.wasm_tree.specs.Numbers.{emit_type};
ghost use Rattle.wasm_valid.specs.Parts.{TakesEmit, IsEmit};

use wasm_tree::{FuncType, Import, ImportKind, Module, ValType};

/// Whether the type is that of `emit`: it takes one `i32` and gives nothing.
pub fn is_emit_type(ty: &FuncType) -> bool
    ensures { IsTrue result ↔ (ty.now ≡ emit_type) }
{
    match (ty.params.as_slice(), ty.results.as_slice()) {
        ([ValType::I32], []) => true,
        _ => false,
    }
}

fn takes_emit(types: &[FuncType], kind: ImportKind) -> bool
    ensures { IsTrue result ↔ TakesEmit types.now kind }
{
    match kind {
        ImportKind::Memory(_) => false,
        ImportKind::Function(number) => match types.get(number as usize) {
            Some(ty) => is_emit_type(ty),
            None => false,
        },
    }
}

fn is_emit(types: &[FuncType], import: &Import) -> bool
    ensures { IsTrue result ↔ IsEmit types.now import.now }
{
    import.module.as_bytes() == b"host".as_slice()
        && import.name.as_bytes() == b"emit".as_slice()
        && takes_emit(types, import.kind)
}

/// Whether `emit` of `host` is imported, and nothing else.
pub fn has_import(module: &Module) -> bool
    ensures { IsTrue result ↔ HasImport «module».now }
{
    match module.imports.as_slice() {
        [import] => is_emit(module.types.as_slice(), import),
        _ => false,
    }
}
