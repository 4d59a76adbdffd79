ghost use Rattle.std.specs.Prelude.{ℕ, List, length, ◌≤◌, ◌<◌, ◌^◌};
ghost use Rattle.wasm_tree.specs.declared.module.Module.{Module};
ghost use Rattle.wasm_tree.specs.Spelled.{Spelled};
ghost use Rattle.wasm_writer.specs.Spelling.{spelling, IsWritable};

/// A law of the format: no bytes that spell a module are fewer than those that `write_module` gives.
pub fn spelling_is_shortest()
    ensures { (bytes : List ℕ) (m : Module) → Spelled bytes m → length (spelling m) ≤ length bytes }
{}

/// A law of the format: a module that fewer than 2 ^ 32 bytes spell can be written, so a module that was
/// read from a file needs no test before it is written again.
pub fn spelled_is_writable()
    ensures { (bytes : List ℕ) (m : Module) → Spelled bytes m → length bytes < 2 ^ 32 → IsWritable m }
{}
