ghost use Rattle.std.specs.Prelude.{◌≡◌, ◌+◌, ◌↔◌, ◌≤◌, ◌<◌, ◌++◌, [], ◌∷◌, map, replicate, IfOk, IfSome, IfNone, OnOk, IsTrue};
ghost use Rattle.std.specs.List.{AllByRecursion};
ghost use Rattle.section_reader.specs.Raw.{IsRun, shape_of, scalars_in, scalars_of, HaveRuns, end_of};

use crate::raw::{RawSlot, ScalarRun};
use cm_base::limits::SCALARS;
use cm_base::{HostEnd, HostEnds, Items, NoMemory, Shape};
use std::alloc::Global;

/// Whether each run has a scalar.
fn have_scalars(runs: &[ScalarRun]) -> bool
    ensures { IsTrue result ↔ AllByRecursion IsRun runs.now }
{
    runs.iter().all(|run| run.count >= 1)
}

/// How many scalars there are, with so many before, if they are within the limit.
fn add_runs(before: u64, runs: &[ScalarRun]) -> Option<u64>
    requires { before ≤ 1048576 }
    ensures within { IfSome result (λ n. (n ≡ before + scalars_in runs.now) × (n ≤ 1048576)) }
    ensures past { IfNone result (1048576 < before + scalars_in runs.now) }
{
    let mut count = before;
    for run in runs {
        count += run.count as u64;
        if count > SCALARS as u64 {
            return None;
        }
    }
    Some(count)
}

/// Whether all scalars together are within the limit.
fn is_within_limit(slots: &[RawSlot]) -> bool
    ensures { IsTrue result ↔ (scalars_of slots.now ≤ 1048576) }
{
    let mut count = 0;
    for slot in slots {
        match add_runs(count, slot.runs.as_slice()) {
            Some(sum) => count = sum,
            None => return false,
        }
    }
    true
}

/// Whether each run has a scalar, and all together are within the limit.
pub fn are_few(slots: &[RawSlot]) -> bool
    ensures { IsTrue result ↔ (HaveRuns slots.now × (scalars_of slots.now ≤ 1048576)) }
{
    slots.iter().all(|slot| have_scalars(slot.runs.as_slice())) && is_within_limit(slots)
}

/// Adds so many scalars of one kind.
fn add_run(shape: &mut Shape, run: ScalarRun) -> Result<(), NoMemory>
    ensures { OnOk result (shape.new ≡ shape.old ++ replicate run.count run.kind) }
{
    for _ in 0..run.count {
        shape.push(run.kind)?;
    }
    Ok(())
}

/// The scalars of some runs, one after another.
fn shape(alloc: Global, runs: &[ScalarRun]) -> Result<Shape, NoMemory>
    ensures { IfOk result (λ shape. shape ≡ shape_of runs.now) }
{
    let mut shape = Items::new(alloc);
    for run in runs {
        add_run(&mut shape, *run)?;
    }
    Ok(shape)
}

/// Adds an endpoint and the address of its slot.
fn add_slot(
    alloc: Global,
    host: &mut HostEnds,
    addresses: &mut Items<u32>,
    raw: RawSlot,
) -> Result<(), NoMemory>
    ensures ends { OnOk result (host.new ≡ host.old ++ end_of raw ∷ []) }
    ensures addresses { OnOk result (addresses.new ≡ addresses.old ++ raw.address ∷ []) }
{
    let shape = shape(alloc, raw.runs.as_slice())?;
    host.push(HostEnd {
        flow: raw.flow,
        kind: raw.kind,
        name: raw.name,
        shape,
        parameter: raw.parameter,
    })?;
    addresses.push(raw.address)?;
    Ok(())
}

/// Adds the endpoints and the addresses of their slots.
pub fn add_slots(
    alloc: Global,
    host: &mut HostEnds,
    addresses: &mut Items<u32>,
    slots: Vec<RawSlot>,
) -> Result<(), NoMemory>
    ensures ends { OnOk result (host.new ≡ host.old ++ map end_of slots.items) }
    ensures addresses { OnOk result (addresses.new ≡ addresses.old ++ map (λ raw. raw.address) slots.items) }
{
    for raw in slots {
        add_slot(alloc, host, addresses, raw)?;
    }
    Ok(())
}
