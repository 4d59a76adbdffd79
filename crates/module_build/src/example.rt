ghost use Rattle.std.specs.Prelude.{◌≡◌, length, codes};
ghost use Rattle.module_build.specs.Example.{example_section, example_bytes};
ghost use Rattle.module_build.specs.Through.{through_module, through_section};
ghost use Rattle.wasm_tree.specs.Section.{Spelled_section};
ghost use Rattle.wasm_tree.specs.Spelled.{Spelled};
ghost use Rattle.wasm_writer.specs.Spelling.{spelling};

/// The example of docs/MODULE.md: its 123 bytes spell the module that is built for an input `in` and an output
/// `out`, they are those that the writer writes, and its last section says what that module's slots are.
pub fn the_example_is_spelled()
    ensures spelled { Spelled example_bytes (through_module example_section) }
    ensures written { spelling (through_module example_section) ≡ example_bytes }
    ensures section { Spelled_section (through_section (codes "in") (codes "out")) example_section }
    ensures size { length example_bytes ≡ 123 }
{}
