//! The rule on the section `cmajor`: there is just one, it says what the section must say, and the slots lie in the memory.

ghost use Rattle.std.specs.Prelude.{List, ◌≡◌, ◌++◌, ◌+◌, ◌*◌, ◌<◌, ◌≤◌, ◌↔◌, IsTrue, [], ◌∷◌, length, sum_by, IfOk, IfErr};
ghost use Rattle.std.specs.List.{AllByRecursion};
ghost use Rattle.cm_base.specs.HostEnds.{IsLawfulScalar, IsLawfulRange, IsLawfulEnd, IsLawful, names_of, AreDistinct};
ghost use Rattle.cm_base.specs.declared.host.Scalar.TheVariants.{Int32};
ghost use Rattle.wasm_tree.specs.declared.module.Custom.{Custom as TheCustom};
ghost use Rattle.wasm_tree.specs.Section.{shape_size, slots_of, block_length, IsBlockLength, named_cmajor};
ghost use Rattle.section_reader.specs.Raw.{said, AreFew};
ghost use Rattle.wasm_valid.specs.IsBroken.{IsBroken};
ghost use Rattle.wasm_valid.specs.Texts.{texts};
ghost use Rattle.wasm_valid.specs.Described.{IsNamed, slot_bytes, LiesWithin, IsRight, IsDescribed};

use crate::broken::{Broken, Part};
use crate::memory::memory_bytes;
use crate::names::Names;
use crate::scalars::scalar_bytes;
use cm_base::limits::BLOCK_LENGTH;
use cm_base::{Flow, HostEnd, Kind, NoMemory, Range, Scalar};
use section_reader::{Section, read_section};
use std::alloc::Global;
use wasm_tree::{Custom, Interface, Limits, Module, ModuleRule, is_cmajor};

/// The section isn't as it must be.
const MISDESCRIBED: Broken = Broken::Rule(ModuleRule::Cmajor, Part::Cmajor);

/// The custom sections named `cmajor`.
#[derive(Clone, Copy)]
pub enum Named<'a> {
    None,
    One(&'a Custom),
    More,
}

/// What is found with one custom section more.
#[tactic(auto, using(crate::proofs::DescribedLemmas::other_custom, crate::proofs::DescribedLemmas::first_custom, crate::proofs::DescribedLemmas::second_custom, crate::proofs::DescribedLemmas::further_custom))]
fn with_custom<'a>(found: Named<'a>, custom: &'a Custom) -> Named<'a>
    ensures { (customs : List TheCustom) → IsNamed (named_cmajor customs) found.entry → IsNamed (named_cmajor (customs ++ custom.now ∷ [])) result }
{
    if !is_cmajor(&custom.name) {
        return found;
    }
    match found {
        Named::None => Named::One(custom),
        Named::One(_) => Named::More,
        Named::More => Named::More,
    }
}

/// The custom sections named `cmajor` among these.
fn cmajor_sections(customs: &[Custom]) -> Named<'_>
    ensures { IsNamed (named_cmajor customs.now) result }
{
    let mut found = Named::None;
    for custom in customs {
        found = with_custom(found, custom);
    }
    found
}

/// Whether the count of a wrapping or held number is one.
fn is_lawful_scalar(kind: Scalar) -> bool
    ensures { IsTrue result ↔ IsLawfulScalar kind }
{
    match kind {
        Scalar::Int32 => true,
        Scalar::Int64 => true,
        Scalar::Bool => true,
        Scalar::Wrap(count) => 1 <= count && count <= i32::MAX as u32,
        Scalar::Clamp(count) => 1 <= count && count <= i32::MAX as u32,
    }
}

fn are_lawful_scalars(shape: &[Scalar]) -> bool
    ensures { IsTrue result ↔ AllByRecursion IsLawfulScalar shape.now }
{
    shape.iter().all(|kind| is_lawful_scalar(*kind))
}

fn is_one_int32(shape: &[Scalar]) -> bool
    ensures { IsTrue result ↔ (shape.now ≡ Int32 ∷ []) }
{
    match shape {
        [Scalar::Int32] => true,
        _ => false,
    }
}

/// Whether the endpoint may have the range, if it has one.
fn is_lawful_range(end: &HostEnd, range: Option<Range>) -> bool
    ensures { IsTrue result ↔ IsLawfulRange end.now range }
{
    match range {
        None => true,
        Some(range) => {
            end.flow == Flow::Input
                && end.kind != Kind::Stream
                && is_one_int32(end.shape.as_slice())
                && range.min <= range.init
                && range.init <= range.max
        }
    }
}

fn is_lawful_end(end: &HostEnd) -> bool
    ensures { IsTrue result ↔ IsLawfulEnd end.now }
{
    are_lawful_scalars(end.shape.as_slice()) && is_lawful_range(end, end.parameter)
}

fn are_lawful_ends(host: &[HostEnd]) -> bool
    ensures { IsTrue result ↔ AllByRecursion IsLawfulEnd host.now }
{
    host.iter().all(|end| is_lawful_end(end))
}

/// The names of endpoints, in order.
fn names(alloc: Global, host: &[HostEnd]) -> Result<Vec<&str>, NoMemory>
    ensures { IfOk result (λ names. texts names.items ≡ names_of host.now) }
{
    let mut names = Vec::with_capacity(alloc, host.len())?;
    for end in host {
        names.push(end.name.as_str())?;
    }
    Ok(names)
}

/// Whether the endpoints can belong to a patch.
fn is_lawful(alloc: Global, host: &[HostEnd]) -> Result<bool, NoMemory>
    ensures { IfOk result (λ lawful. IsTrue lawful ↔ IsLawful host.now) }
{
    if host.len() > u32::MAX as usize || !are_lawful_ends(host) {
        return Ok(false);
    }
    let names = Names::new(alloc, names(alloc, host)?)?;
    Ok(names.are_distinct())
}

/// The bytes of scalars one after another.
fn shape_bytes(shape: &[Scalar]) -> u64
    requires { length shape.now ≤ 1048576 }
    ensures same { result ≡ shape_size shape.now }
    ensures few { result ≤ 8388608 }
{
    let mut bytes = 0;
    for kind in shape {
        bytes += scalar_bytes(*kind) as u64;
    }
    bytes
}

/// How many frames a call takes at most.
pub fn block(interface: Interface) -> u32
    ensures { result ≡ block_length interface }
{
    match interface {
        Interface::Single => 1,
        Interface::Blocks(block) => block,
    }
}

fn is_block_length(block: u32) -> bool
    ensures { IsTrue result ↔ IsBlockLength block }
{
    1 <= block && block <= BLOCK_LENGTH
}

/// The bytes of an endpoint's slot, where a call takes so many frames at most.
fn bytes_of_slot(block: u32, end: &HostEnd) -> u64
    requires { length end.now.shape ≤ 1048576 }
    ensures same { result ≡ slot_bytes block end.now }
    ensures few { result ≤ 8388608 * 4294967295 }
{
    let bytes = shape_bytes(end.shape.as_slice());
    match end.kind {
        Kind::Stream => block as u64 * bytes,
        Kind::Value => bytes,
        Kind::Event => bytes,
    }
}

/// Whether an endpoint's slot at this address lies in so many bytes.
fn lies_within(bytes: u64, block: u32, end: &HostEnd, address: u32) -> bool
    requires { length end.now.shape ≤ 1048576 }
    ensures { IsTrue result ↔ LiesWithin bytes block end.now address }
{
    let size = bytes_of_slot(block, end);
    size == 0 || address as u64 + size <= bytes
}

/// Whether the slots of the endpoints at these addresses lie in so many bytes.
fn lie_within(bytes: u64, block: u32, host: &[HostEnd], addresses: &[u32]) -> bool
    requires paired { length host.now ≡ length addresses.now }
    requires few { sum_by (λ slot. length slot.end.shape) (slots_of host.now addresses.now) ≤ 1048576 }
    ensures { IsTrue result ↔ AllByRecursion (λ slot. LiesWithin bytes block slot.end slot.address) (slots_of host.now addresses.now) }
{
    for at in 0..host.len() {
        if !lies_within(bytes, block, &host[at], addresses[at]) {
            return false;
        }
    }
    true
}

/// Whether a section that was read is as it must be in a module with this memory.
#[tactic(auto, using(crate::proofs::DescribedLemmas::right_is, crate::proofs::DescribedLemmas::right_was))]
fn is_right(alloc: Global, memory: &[Limits], section: &Section) -> Result<bool, NoMemory>
    requires paired { length section.now.host ≡ length section.now.addresses }
    requires few { AreFew (said section.now) }
    ensures { IfOk result (λ right. IsTrue right ↔ IsRight memory.now (said section.now)) }
{
    let block = block(section.interface);
    let bytes = memory_bytes(memory);
    let host = section.host.as_slice();
    if !is_block_length(block) || !is_lawful(alloc, host)? {
        return Ok(false);
    }
    Ok(lie_within(bytes, block, host, section.addresses.as_slice()))
}

/// What the one custom section of the name `cmajor` says.
#[tactic(auto, using(crate::proofs::DescribedLemmas::described_is, crate::proofs::DescribedLemmas::misdescribed_unread, crate::proofs::DescribedLemmas::misdescribed_wrong))]
fn read_custom(alloc: Global, module: &Module, custom: &Custom) -> Result<Section, Broken>
    requires { named_cmajor «module».now.customs ≡ custom.now ∷ [] }
    ensures described { IfOk result (IsDescribed «module».now) }
    ensures broken { IfErr result (IsBroken «module».now) }
{
    match read_section(alloc, custom.bytes.as_slice())? {
        None => Err(MISDESCRIBED),
        Some(section) => {
            if is_right(alloc, module.memory.as_slice(), &section)? {
                Ok(section)
            } else {
                Err(MISDESCRIBED)
            }
        }
    }
}

/// What the section `cmajor` says, where the module has just one, it says what it must, and the slots of its endpoints lie in
/// the memory's minimum size.
pub fn described(alloc: Global, module: &Module) -> Result<Section, Broken>
    ensures described { IfOk result (IsDescribed «module».now) }
    ensures broken { IfErr result (IsBroken «module».now) }
{
    match cmajor_sections(module.customs.as_slice()) {
        Named::None => Err(Broken::Rule(ModuleRule::Cmajor, Part::Missing)),
        Named::One(custom) => read_custom(alloc, module, custom),
        Named::More => Err(Broken::Rule(ModuleRule::Cmajor, Part::SecondCmajor)),
    }
}
