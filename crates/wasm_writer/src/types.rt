ghost use Rattle.std.specs.Prelude.{◌≡◌, ◌≤◌, ◌++◌, ◌∷◌, [], length, OnOk};
ghost use Rattle.wasm_tree.specs.Spelled.{Bounds};
ghost use Rattle.wasm_writer.specs.Spelling.{bounds_bytes};

use crate::encode::{Encode, put_vector, size_of_vector};
use crate::number::{put_unsigned, size_of_unsigned};
use crate::size::add;
use cm_base::NoMemory;
use wasm_tree::{FuncType, Limits, ValType};

impl Encode for u32 {
    ghost use Rattle.wasm_tree.specs.Spelled.{Index};
    ghost use Rattle.wasm_writer.specs.Spelling.{unsigned_bytes};

    ghost shortest = { unsigned_bytes };

    ghost spells = { Index };

    ghost well_formed = { λ _. Unit {0} };

    fn encode(&self, out: &mut Vec<u8>) -> Result<(), NoMemory> {
        put_unsigned(out, *self)
    }

    fn size(&self) -> u64 {
        size_of_unsigned(u64::from(*self))
    }
}

impl Encode for ValType {
    ghost use Rattle.wasm_tree.specs.Spelled.{Type_of_value};
    ghost use Rattle.wasm_writer.specs.Spelling.{value_type_bytes};

    ghost shortest = { value_type_bytes };

    ghost spells = { Type_of_value };

    ghost well_formed = { λ _. Unit {0} };

    fn encode(&self, out: &mut Vec<u8>) -> Result<(), NoMemory> {
        out.push(self.byte())?;
        Ok(())
    }

    fn size(&self) -> u64 {
        1
    }
}

impl Encode for FuncType {
    ghost use Rattle.wasm_tree.specs.Spelled.{Type_of_function};
    ghost use Rattle.wasm_writer.specs.Spelling.{function_type_bytes};

    ghost shortest = { function_type_bytes };

    ghost spells = { Type_of_function };

    ghost well_formed = { λ _. Unit {0} };

    #[tactic(auto, using(crate::proofs::TypeLemmas::function_type_spelled, crate::proofs::TypeLemmas::function_type_sizes))]
    fn encode(&self, out: &mut Vec<u8>) -> Result<(), NoMemory> {
        out.push(0x60)?;
        put_vector(out, &self.params)?;
        put_vector(out, &self.results)
    }

    #[tactic(auto, using(crate::proofs::Sizes::function_type_sized))]
    fn size(&self) -> u64 {
        let lists = add(size_of_vector(&self.params), size_of_vector(&self.results));
        add(1, lists)
    }
}

#[tactic(auto, using(crate::proofs::TypeLemmas::least_spelled, crate::proofs::TypeLemmas::bounds_spelled))]
/// Appends the bounds of a memory (Core Specification 1.0, 5.3.4).
pub fn put_bounds(out: &mut Vec<u8>, least: u32, most: Option<u32>) -> Result<(), NoMemory>
    ensures appended { OnOk result (out.new.items ≡ out.old.items ++ bounds_bytes least most) }
    ensures spelled { OnOk result (Bounds least most (bounds_bytes least most)) }
{
    match most {
        None => {
            out.push(0x00)?;
            put_unsigned(out, least)
        }
        Some(most) => {
            out.push(0x01)?;
            put_unsigned(out, least)?;
            put_unsigned(out, most)
        }
    }
}

/// How many bytes the bounds of a memory take.
#[tactic(auto, using(crate::proofs::Sizes::least_sized, crate::proofs::Sizes::bounds_sized))]
pub fn size_of_bounds(least: u32, most: Option<u32>) -> u64
    ensures exact { result ≡ length (bounds_bytes least most) }
    ensures few { result ≤ 11 }
{
    match most {
        None => 1 + size_of_unsigned(u64::from(least)),
        Some(most) => { 1 + size_of_unsigned(u64::from(least)) + size_of_unsigned(u64::from(most)) }
    }
}

impl Encode for Limits {
    ghost use Rattle.wasm_tree.specs.Spelled.{Memory};
    ghost use Rattle.wasm_writer.specs.Spelling.{memory_bytes};

    ghost shortest = { memory_bytes };

    ghost spells = { Memory };

    ghost well_formed = { λ _. Unit {0} };

    fn encode(&self, out: &mut Vec<u8>) -> Result<(), NoMemory> {
        put_bounds(out, self.min, self.max)
    }

    fn size(&self) -> u64 {
        size_of_bounds(self.min, self.max)
    }
}
