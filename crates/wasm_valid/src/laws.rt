ghost use Rattle.wasm_tree.specs.declared.module.Module.{Module as TheModule};
ghost use Rattle.wasm_tree.specs.Reduce.{Config};
ghost use Rattle.wasm_tree.specs.Section.{CmajorSection};
ghost use Rattle.wasm_tree.specs.Valid.{Valid as IsValid};
ghost use Rattle.wasm_sound.specs.Reached.{IsCall};
ghost use Rattle.wasm_sound.specs.Rooms.{scope_of};
ghost use Rattle.wasm_sound.specs.Sound.{IsScope, IsSound};

/// A law of validity: the functions of a valid module are typed code, and so is where a call of an export begins.
pub fn valid_is_sound()
    ensures scope { (m : TheModule) (section : CmajorSection) → IsValid m section → IsScope (scope_of m) }
    ensures begins { (m : TheModule) (section : CmajorSection) (c : Config) → IsValid m section → IsCall m c → IsSound (scope_of m) c }
{}
