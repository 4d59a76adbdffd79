ghost use Rattle.std.specs.Prelude.{ℕ, ◌≡◌, ◌+◌, ◌++◌, ◌∷◌, [], ◌<◌, ◌≤◌, ◌^◌, length, All, OnOk};
ghost use Rattle.std.specs.List.{flat_map};
ghost use Rattle.wasm_tree.specs.Spelled.{Each, Vector, Text};
ghost use Rattle.wasm_writer.specs.Size.{capped};
ghost use Rattle.wasm_writer.specs.Spelling.{vector_bytes, text_bytes, section_bytes};

use crate::number::{put_unsigned, size_of_unsigned};
use crate::size::add;
use cm_base::{Items, NoMemory};

/// A part of a module: `shortest` are its shortest bytes, and `spells` says which bytes spell it.
pub trait Encode {
    ghost use Rattle.std.specs.Prelude.{List, ℕ};

    ghost shortest: { Self → List ℕ };

    ghost spells: { Self → List ℕ → Type 0 };

    // what the format asks of the part beside the ranges of its numbers
    ghost well_formed: { Self → Type 0 };

    /// Appends the part.
    fn encode(&self, out: &mut Vec<u8>) -> Result<(), NoMemory>
        requires sized { length (shortest self.now) < 2 ^ 32 }
        requires formed { well_formed self.now }
        ensures appended { OnOk result (out.new.items ≡ out.old.items ++ shortest self.now) }
        ensures spelled { OnOk result (spells self.now (shortest self.now)) };

    /// How many bytes `encode` appends, counted as far as `size::BOUND`.
    fn size(&self) -> u64
        ensures { result ≡ capped (length (shortest self.now)) };
}

/// Appends a byte.
pub fn put_byte(out: &mut Vec<u8>, byte: u8) -> Result<(), NoMemory>
    ensures { OnOk result (out.new.items ≡ out.old.items ++ byte ∷ []) }
{
    out.push(byte)?;
    Ok(())
}

/// Appends the parts one after another.
#[tactic(auto, using(crate::proofs::Parts::each_spelled, crate::proofs::Parts::part_within))]
pub fn put_each<P: Encode>(out: &mut Vec<u8>, parts: &[P]) -> Result<(), NoMemory>
    requires sized { length (flat_map P.shortest parts.now) < 2 ^ 32 }
    requires formed { All P.well_formed parts.now }
    ensures appended { OnOk result (out.new.items ≡ out.old.items ++ flat_map P.shortest parts.now) }
    ensures spelled { OnOk result (Each P.spells parts.now (flat_map P.shortest parts.now)) }
{
    for part in parts {
        part.encode(out)?;
    }
    Ok(())
}

/// Appends the count of the parts, and the parts.
#[tactic(auto, using(crate::proofs::Parts::vector_spelled, crate::proofs::Parts::vector_elements))]
pub fn put_vector<P: Encode>(out: &mut Vec<u8>, parts: &Items<P>) -> Result<(), NoMemory>
    requires counted { length parts.now < 2 ^ 32 }
    requires sized { length (vector_bytes P.shortest parts.now) < 2 ^ 32 }
    requires formed { All P.well_formed parts.now }
    ensures appended { OnOk result (out.new.items ≡ out.old.items ++ vector_bytes P.shortest parts.now) }
    ensures spelled { OnOk result (Vector P.spells parts.now (vector_bytes P.shortest parts.now)) }
{
    put_unsigned(out, parts.len() as u32)?;
    put_each(out, parts.as_slice())
}

/// The size of the parts one after another.
#[tactic(auto, using(crate::proofs::Sizes::sized_more))]
pub fn size_of_each<P: Encode>(parts: &[P]) -> u64
    ensures { result ≡ capped (length (flat_map P.shortest parts.now)) }
{
    let mut size = 0;
    for part in parts {
        size = add(size, part.size());
    }
    size
}

/// The size of the count of the parts, and the parts.
#[tactic(auto, using(crate::proofs::Sizes::vector_sized))]
pub fn size_of_vector<P: Encode>(parts: &Items<P>) -> u64
    ensures { result ≡ capped (length (vector_bytes P.shortest parts.now)) }
{
    add(
        size_of_unsigned(parts.len() as u64),
        size_of_each(parts.as_slice()),
    )
}

/// Appends the count of the bytes, and the bytes.
pub fn put_text(out: &mut Vec<u8>, text: &[u8]) -> Result<(), NoMemory>
    requires { length text.now < 2 ^ 32 }
    ensures appended { OnOk result (out.new.items ≡ out.old.items ++ text_bytes text.now) }
    ensures spelled { Text text.now (text_bytes text.now) }
{
    put_unsigned(out, text.len() as u32)?;
    out.extend_from_slice(text)?;
    Ok(())
}

/// Appends a section of this id that lists the parts, or nothing where there are none (Core Specification
/// 1.0, 5.5.2). `size` is that of its contents, which are appended where they belong and copied nowhere.
#[tactic(auto, using(crate::proofs::Parts::section_put, crate::proofs::Parts::section_none, crate::proofs::Parts::vector_none))]
pub fn put_section<P: Encode>(
    out: &mut Vec<u8>,
    id: u8,
    parts: &Items<P>,
    size: u64,
) -> Result<(), NoMemory>
    requires counted { length parts.now < 2 ^ 32 }
    requires sized { size ≡ length (vector_bytes P.shortest parts.now) }
    requires small { size < 2 ^ 32 }
    requires formed { All P.well_formed parts.now }
    ensures appended { OnOk result (out.new.items ≡ out.old.items ++ section_bytes id P.shortest parts.now) }
    ensures spelled { OnOk result (Vector P.spells parts.now (vector_bytes P.shortest parts.now)) }
{
    if parts.is_empty() {
        return Ok(());
    }
    out.push(id)?;
    put_unsigned(out, size as u32)?;
    put_vector(out, parts)
}

/// The size of a section that lists the parts, whose contents have this size, whatever its id.
#[tactic(auto, using(crate::proofs::Sizes::section_sized, crate::proofs::Sizes::section_absent))]
pub fn size_of_section<P: Encode>(parts: &Items<P>, size: u64) -> u64
    requires sized { size ≡ length (vector_bytes P.shortest parts.now) }
    requires small { size < 2 ^ 32 }
    ensures exact { (id : ℕ) → result ≡ length (section_bytes id P.shortest parts.now) }
    ensures few { result ≤ size + 6 }
{
    if parts.is_empty() {
        0
    } else {
        1 + size_of_unsigned(size) + size
    }
}
