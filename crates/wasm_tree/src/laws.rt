ghost use Rattle.std.specs.Prelude.{◌≡◌, ℕ, List, [], ◌∷◌, map};
ghost use Rattle.wasm_tree.specs.declared.failure.ModuleRefused.{ModuleRefused};
ghost use Rattle.wasm_tree.specs.declared.failure.ModuleRule.{ModuleRule};
ghost use Rattle.wasm_tree.specs.declared.module.Module.{Module as TheModule};
ghost use Rattle.wasm_tree.specs.Section.{CmajorSection, IsSection};
ghost use Rattle.wasm_tree.specs.Host.{HasImport};
ghost use Rattle.wasm_tree.specs.Numbers.{emit_type, type_at, function_types, function_codes, memories};
ghost use Rattle.wasm_tree.specs.Valid.{Valid};
ghost use Rattle.wasm_tree.specs.Refusal.{Breaks, IsRefusal};
ghost use Rattle.wasm_tree.specs.Spelled.{Spelled};

/// A law of the format: a module has one section `cmajor` at most.
pub fn section_is_unique()
    ensures { (m : TheModule) (s t : CmajorSection) → IsSection m s → IsSection m t → s ≡ t }
{}

/// A law of validity: a module that breaks a rule isn't valid, whatever its section `cmajor` says.
pub fn broken_is_invalid()
    ensures { (rule : ModuleRule) (m : TheModule) (section : CmajorSection) → Breaks rule m → Valid m section → ⊥ }
{}

/// A law of validity: where the one import is `emit`, it is function 0, the module's own functions follow in the
/// order of their codes, and the memory is the module's own.
pub fn emit_is_function_0()
    ensures functions { (m : TheModule) → HasImport m → function_types m ≡ emit_type ∷ map (type_at m) m.functions }
    ensures codes { (m : TheModule) → HasImport m → function_codes m ≡ [] ∷ map (λ body. body.code) m.codes }
    ensures memory { (m : TheModule) → HasImport m → memories m ≡ m.memory }
{}

/// A law of validity: a rule that a module breaks can be told with an offset in the bytes that spell the module.
pub fn broken_has_an_offset()
    ensures { (bytes : List ℕ) (m : TheModule) (rule : ModuleRule) → Spelled bytes m → Breaks rule m →
        (refused : ModuleRefused) × (refused.rule ≡ rule) × IsRefusal refused m bytes }
{}
