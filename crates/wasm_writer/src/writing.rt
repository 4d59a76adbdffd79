ghost use Rattle.std.specs.Prelude.{◌≡◌, ◌<◌, ◌≤◌, ◌^◌, ◌++◌, ◌∷◌, [], length, All, OnOk, IfOk};
ghost use Rattle.std.specs.List.{flat_map};
ghost use Rattle.wasm_tree.specs.Spelled.{Custom_contents, Spelled};
ghost use Rattle.wasm_writer.specs.Spelling.{custom_contents, custom_bytes, spelling, IsWritable};

use crate::encode::put_section;
use crate::entry::put_name;
use crate::number::put_unsigned;
use crate::section_sizes::{SectionSizes, size_of_custom};
use cm_base::{Bytes, Items, NoMemory};
use std::alloc::Global;
use wasm_tree::{
    CUSTOM_ID, Custom, ExportEntry, FuncBody, FuncType, GlobalVar, HEADER, Import, Limits, Listed,
    Module, Segment,
};

/// Appends a custom section (Core Specification 1.0, 5.5.3).
#[tactic(auto, using(crate::proofs::EntryLemmas::custom_spelled, crate::proofs::EntryLemmas::custom_sizes))]
fn put_custom(out: &mut Vec<u8>, custom: &Custom) -> Result<(), NoMemory>
    requires { length (custom_contents custom.now) < 2 ^ 32 }
    ensures appended { OnOk result (out.new.items ≡ out.old.items ++ custom_bytes custom.now) }
    ensures spelled { OnOk result (Custom_contents custom.now (custom_contents custom.now)) }
{
    out.push(CUSTOM_ID)?;
    put_unsigned(out, size_of_custom(custom) as u32)?;
    put_name(out, &custom.name)?;
    out.extend_from_slice(custom.bytes.as_slice())?;
    Ok(())
}

fn put_customs(out: &mut Vec<u8>, customs: &[Custom]) -> Result<(), NoMemory>
    requires { All (λ custom. length (custom_contents custom) < 2 ^ 32) customs.now }
    ensures appended { OnOk result (out.new.items ≡ out.old.items ++ flat_map custom_bytes customs.now) }
    ensures spelled { OnOk result (All (λ custom. Custom_contents custom (custom_contents custom)) customs.now) }
{
    for custom in customs {
        put_custom(out, custom)?;
    }
    Ok(())
}

/// The module's bytes in their shortest spelling (Core Specification 1.0, chapter 5): sections in the order
/// of their ids, none for an empty list, and then `customs` as they stand. Only want of memory fails. A caller
/// knows `IsWritable` of a module that was read by the law `spelled_is_writable`, of one that it makes by the
/// sizes and the order of what it puts there, and of any other by the test `is_writable`.
///
/// The module's size is counted first, and as many bytes are reserved at once, so that what is written fits
/// there and is never moved; past 2 ^ 32 bytes, as many as that are reserved.
#[tactic(auto, using(crate::proofs::ModuleLemmas::counts, crate::proofs::ModuleLemmas::module_spelled))]
pub fn write_module(alloc: Global, module: &Module) -> Result<Bytes, NoMemory>
    requires { IsWritable «module».now }
    ensures shortest { IfOk result (λ bytes. bytes ≡ spelling «module».now) }
    ensures spelled { IfOk result (λ bytes. Spelled bytes «module».now) }
{
    let sizes = SectionSizes::of(module);
    let mut out = Vec::with_capacity(alloc, sizes.module_size(module) as usize)?;
    out.extend_from_slice(&HEADER)?;
    put_section(&mut out, FuncType::ID, &module.types, sizes.types)?;
    put_section(&mut out, Import::ID, &module.imports, sizes.imports)?;
    put_section(&mut out, u32::ID, &module.functions, sizes.functions)?;
    put_section(&mut out, Limits::ID, &module.memory, sizes.memory)?;
    put_section(&mut out, GlobalVar::ID, &module.globals, sizes.globals)?;
    put_section(&mut out, ExportEntry::ID, &module.exports, sizes.exports)?;
    put_section(&mut out, FuncBody::ID, &module.codes, sizes.codes)?;
    put_section(&mut out, Segment::ID, &module.segments, sizes.segments)?;
    put_customs(&mut out, module.customs.as_slice())?;
    Ok(Items::from_vec(out))
}
