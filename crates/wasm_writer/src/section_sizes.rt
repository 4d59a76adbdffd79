ghost use Rattle.std.specs.Prelude.{◌≡◌, ◌+◌, ◌<◌, ◌≤◌, ◌^◌, length};
ghost use Rattle.std.specs.List.{flat_map};
ghost use Rattle.wasm_writer.specs.Size.{capped};
ghost use Rattle.wasm_writer.specs.Spelling.{custom_contents, custom_bytes};

use crate::encode::{size_of_section, size_of_vector};
use crate::number::size_of_unsigned;
use crate::size::{add, size_of_text};
use wasm_tree::{Custom, HEADER, Module};

/// The sizes of the contents of a module's sections other than custom ones.
#[derive(Drop)]
pub struct SectionSizes {
    pub types: u64,
    pub imports: u64,
    pub functions: u64,
    pub memory: u64,
    pub globals: u64,
    pub exports: u64,
    pub codes: u64,
    pub segments: u64,
}

impl SectionSizes {
    ghost use Rattle.wasm_writer.specs.SectionSizes.{AreSizes};
    ghost use Rattle.wasm_writer.specs.Spelling.{spelling, IsWritable, ListsFit};

    /// The sizes in this module.
    pub fn of(module: &Module) -> SectionSizes
        requires { ListsFit «module».now }
        ensures { AreSizes result «module».now }
    {
        SectionSizes {
            types: size_of_vector(&module.types),
            imports: size_of_vector(&module.imports),
            functions: size_of_vector(&module.functions),
            memory: size_of_vector(&module.memory),
            globals: size_of_vector(&module.globals),
            exports: size_of_vector(&module.exports),
            codes: size_of_vector(&module.codes),
            segments: size_of_vector(&module.segments),
        }
    }

    /// The size of the module that has these sizes, counted as far as `BOUND`.
    pub fn module_size(&self, module: &Module) -> u64
        requires writable { IsWritable «module».now }
        requires sized { AreSizes self.now «module».now }
        ensures { result ≡ capped (length (spelling «module».now)) }
    {
        let sections = size_of_section(&module.types, self.types)
            + size_of_section(&module.imports, self.imports)
            + size_of_section(&module.functions, self.functions)
            + size_of_section(&module.memory, self.memory)
            + size_of_section(&module.globals, self.globals)
            + size_of_section(&module.exports, self.exports)
            + size_of_section(&module.codes, self.codes)
            + size_of_section(&module.segments, self.segments);
        let header = HEADER.len() as u64;
        add(
            header + sections,
            size_of_customs(module.customs.as_slice()),
        )
    }
}

/// The size of a custom section's contents.
#[tactic(auto, using(crate::proofs::Sizes::custom_sized))]
pub fn size_of_custom(custom: &Custom) -> u64
    ensures { result ≡ capped (length (custom_contents custom.now)) }
{
    add(
        size_of_text(custom.name.as_bytes()),
        custom.bytes.len() as u64,
    )
}

/// The size of the custom sections.
#[tactic(auto, using(crate::proofs::Sizes::sized_more, crate::proofs::Sizes::custom_section_sized))]
fn size_of_customs(customs: &[Custom]) -> u64
    ensures { result ≡ capped (length (flat_map custom_bytes customs.now)) }
{
    let mut size = 0;
    for custom in customs {
        let contents = size_of_custom(custom);
        size = add(size, add(1 + size_of_unsigned(contents), contents));
    }
    size
}
