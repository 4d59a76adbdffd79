ghost use Rattle.std.specs.Prelude.{◌≡◌, length, IfOk, IfSome};
ghost use Rattle.wasm_tree.specs.Section.{CmajorSection, Spelled_section};
ghost use Rattle.section_reader.specs.Raw.{said, section_of, IsSaid, IsRead, AreFew};
ghost use Rattle.wasm_reader.specs.Reading.{Gives};
ghost use Rattle.section_reader.specs.Reading.{whole_at};

use crate::expand::{add_slots, are_few};
use crate::raw::{Head, RawSlot, read_head, slots};
use cm_base::{HostEnds, Items, NoMemory};
use std::alloc::Global;
use wasm_reader::{Cursor, ReadFail, at};
use wasm_tree::{Interface, ModuleRule};

/// What the section `cmajor` says: the interface, the latency in frames, and the endpoints with the addresses of their
/// slots, both in declaration order.
#[derive(Debug, Drop)]
pub struct Section {
    pub interface: Interface,
    pub latency: u32,
    pub host: HostEnds,
    pub addresses: Items<u32>,
}

/// The section as it is spelled, by all of the bytes.
#[tactic(auto, unfolding(crate::specs::Reading::whole_at))]
fn whole(alloc: Global, bytes: &[u8]) -> Result<(Head, Vec<RawSlot>), ReadFail>
    ensures { Gives (λ read. (read.0, read.1.items)) result (whole_at bytes.now) }
{
    let mut cursor = Cursor::new(bytes);
    let head = read_head(&mut cursor)?;
    let slots = slots(alloc, &mut cursor)?;
    if cursor.left() > 0 {
        return Err(at(ModuleRule::Size, cursor.left()));
    }
    Ok((head, slots))
}

/// The section with its shapes.
#[tactic(auto, using(crate::proofs::RawLaws::slots_are, crate::proofs::RawLaws::paired))]
fn made(alloc: Global, head: Head, slots: Vec<RawSlot>) -> Result<Section, NoMemory>
    ensures said { IfOk result (λ s. said s ≡ section_of head slots.items) }
    ensures paired { IfOk result (λ s. length s.host ≡ length s.addresses) }
{
    let mut host = Items::new(alloc);
    let mut addresses = Items::new(alloc);
    add_slots(alloc, &mut host, &mut addresses, slots)?;
    Ok(Section {
        interface: head.interface,
        latency: head.latency,
        host,
        addresses,
    })
}

/// What the contents of a section `cmajor` say (docs/MODULE.md, "The section"), where all endpoints together have
/// at most 1,048,576 scalars. Nothing is answered where the bytes say nothing of the kind. Whether the endpoints are lawful, a
/// block has a length that may be, and slots lie in the memory, is for the caller to see. It takes memory in
/// proportion to the bytes and the scalars.
pub fn read_section(alloc: Global, bytes: &[u8]) -> Result<Option<Section>, NoMemory>
    // What is read is what the bytes say.
    ensures found { IfOk result (λ read. IfSome read (λ s. IsSaid s bytes.now)) }
    // What the bytes say is read, and so they say one thing at most.
    ensures only { (section : CmajorSection) → Spelled_section section bytes.now → AreFew section → IfOk result (IsRead section) }
{
    let (head, slots) = match whole(alloc, bytes) {
        Ok(read) => read,
        Err(ReadFail::Fault(_)) => return Ok(None),
        Err(ReadFail::NoMemory) => return Err(NoMemory),
    };
    if !are_few(&slots) {
        return Ok(None);
    }
    Ok(Some(made(alloc, head, slots)?))
}
