ghost use Rattle.std.specs.Prelude.{◌≡◌};
ghost use Rattle.wasm_reader.specs.Reading.{Gives, each_at};
ghost use Rattle.section_reader.specs.Reading.{flow_at, kind_at, scalar_at, run_at, range_at, parameter_at, slot_at, slots_at, head_at};

use cm_base::{Flow, Items, Kind, Name, Range, Scalar};
use std::alloc::Global;
use wasm_reader::{Cursor, Decode, Filling, ReadFail, read_name};
use wasm_tree::Interface;

/// Scalars of one kind that follow one another.
#[derive(Clone, Copy, Debug, Drop)]
pub struct ScalarRun {
    pub count: u32,
    pub kind: Scalar,
}

/// An endpoint and the address of its slot, as the section spells them.
#[derive(Debug, Drop)]
pub struct RawSlot {
    pub flow: Flow,
    pub kind: Kind,
    pub name: Name,
    pub address: u32,
    pub runs: Items<ScalarRun>,
    pub parameter: Option<Range>,
}

/// What stands before the endpoints. The latency is in frames.
#[derive(Clone, Copy, Debug, Drop)]
pub struct Head {
    pub interface: Interface,
    pub latency: u32,
}

#[tactic(auto, unfolding(crate::specs::Reading::flow_at))]
fn flow(cursor: &mut Cursor<'_>) -> Result<Flow, ReadFail>
    ensures { Gives (λ x. (x, cursor.new)) result (flow_at cursor.old) }
{
    if cursor.accept(0) {
        return Ok(Flow::Input);
    }
    cursor.fixed(1)?;
    Ok(Flow::Output)
}

#[tactic(auto, unfolding(crate::specs::Reading::kind_at))]
fn kind(cursor: &mut Cursor<'_>) -> Result<Kind, ReadFail>
    ensures { Gives (λ x. (x, cursor.new)) result (kind_at cursor.old) }
{
    if cursor.accept(0) {
        return Ok(Kind::Stream);
    }
    if cursor.accept(1) {
        return Ok(Kind::Value);
    }
    cursor.fixed(2)?;
    Ok(Kind::Event)
}

#[tactic(auto, unfolding(crate::specs::Reading::scalar_at))]
fn scalar(cursor: &mut Cursor<'_>) -> Result<Scalar, ReadFail>
    ensures { Gives (λ x. (x, cursor.new)) result (scalar_at cursor.old) }
{
    if cursor.accept(0) {
        return Ok(Scalar::Int32);
    }
    if cursor.accept(1) {
        return Ok(Scalar::Int64);
    }
    if cursor.accept(2) {
        return Ok(Scalar::Bool);
    }
    if cursor.accept(3) {
        return Ok(Scalar::Wrap(cursor.index()?));
    }
    cursor.fixed(4)?;
    Ok(Scalar::Clamp(cursor.index()?))
}

impl Decode for ScalarRun {
    ghost reads = { run_at };

    #[tactic(auto, unfolding(crate::specs::Reading::run_at))]
    fn read(_alloc: Global, cursor: &mut Cursor<'_>) -> Result<ScalarRun, ReadFail> {
        let count = cursor.index()?;
        let kind = scalar(cursor)?;
        Ok(ScalarRun { count, kind })
    }
}

#[tactic(auto, unfolding(crate::specs::Reading::range_at))]
fn range(cursor: &mut Cursor<'_>) -> Result<Range, ReadFail>
    ensures { Gives (λ x. (x, cursor.new)) result (range_at cursor.old) }
{
    let min = cursor.signed32()?;
    let max = cursor.signed32()?;
    let init = cursor.signed32()?;
    Ok(Range { min, max, init })
}

#[tactic(auto, unfolding(crate::specs::Reading::parameter_at))]
fn parameter(cursor: &mut Cursor<'_>) -> Result<Option<Range>, ReadFail>
    ensures { Gives (λ x. (x, cursor.new)) result (parameter_at cursor.old) }
{
    if cursor.accept(0) {
        return Ok(None);
    }
    cursor.fixed(1)?;
    Ok(Some(range(cursor)?))
}

impl Decode for RawSlot {
    ghost reads = { slot_at };

    #[tactic(auto, unfolding(crate::specs::Reading::slot_at))]
    fn read(alloc: Global, cursor: &mut Cursor<'_>) -> Result<RawSlot, ReadFail> {
        let flow = flow(cursor)?;
        let kind = kind(cursor)?;
        let name = read_name(alloc, cursor)?;
        let address = cursor.index()?;
        let runs = Items::<ScalarRun>::fill(alloc, cursor)?;
        let parameter = parameter(cursor)?;
        Ok(RawSlot {
            flow,
            kind,
            name,
            address,
            runs,
            parameter,
        })
    }
}

/// What stands before the endpoints.
#[tactic(auto, unfolding(crate::specs::Reading::head_at))]
pub fn read_head(cursor: &mut Cursor<'_>) -> Result<Head, ReadFail>
    ensures { Gives (λ x. (x, cursor.new)) result (head_at cursor.old) }
{
    if cursor.accept(1) {
        let latency = cursor.index()?;
        return Ok(Head {
            interface: Interface::Single,
            latency,
        });
    }
    cursor.fixed(2)?;
    let latency = cursor.index()?;
    let block = cursor.index()?;
    Ok(Head {
        interface: Interface::Blocks(block),
        latency,
    })
}

/// So many endpoints, one after another.
fn each(alloc: Global, count: u32, cursor: &mut Cursor<'_>) -> Result<Vec<RawSlot>, ReadFail>
    ensures { Gives (λ v. (v.items, cursor.new)) result (each_at slot_at count cursor.old) }
{
    let mut slots = Vec::new(alloc);
    for _ in 0..count {
        let slot = RawSlot::read(alloc, cursor)?;
        slots.push(slot)?;
    }
    Ok(slots)
}

/// The endpoints.
#[tactic(auto, unfolding(crate::specs::Reading::slots_at))]
pub fn slots(alloc: Global, cursor: &mut Cursor<'_>) -> Result<Vec<RawSlot>, ReadFail>
    ensures { Gives (λ v. (v.items, cursor.new)) result (slots_at cursor.old) }
{
    let count = cursor.index()?;
    each(alloc, count, cursor)
}
