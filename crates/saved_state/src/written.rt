ghost use Rattle.std.specs.Prelude.{◌≡◌, ◌+◌, ◌++◌, ◌<◌, ◌≤◌, ◌^◌, length, IfOk, OnOk};
ghost use Rattle.std.specs.List.{AllByRecursion, flat_map};
ghost use Rattle.cm_base.specs.HostEnds.{IsLawful, IsLawfulEnd};
ghost use Rattle.saved_state.specs.Applied.{IsValueOf, AreValues, AreShort, after_value, parameter_with, saved_with, state_with};
ghost use Rattle.saved_state.specs.Version2.{IsCounted, IsParameter, IsScalar, IsWritable, IsVersion2, count_bytes, text_bytes, value_bytes, scalar_bytes, list_bytes, parameter_bytes, state_bytes};

use crate::state::MARK;
use cm_base::{Bytes, HostEnd, HostEnds, Name, NoMemory, Saved, SavedList, Scalars, Snapshot};
use std::alloc::{AllocError, Global};

/// Appends a count or a length.
#[tactic(auto, unfolding(crate::specs::Version2::count_bytes))]
fn put_count(out: &mut Vec<u8>, count: usize) -> Result<(), AllocError>
    requires { count < 2 ^ 32 }
    ensures { OnOk result (out.new.items ≡ out.old.items ++ count_bytes count) }
{
    out.extend_from_slice(&(count as u32).to_le_bytes())
}

/// Appends a length, and as many bytes.
fn put_text(out: &mut Vec<u8>, bytes: &[u8]) -> Result<(), AllocError>
    requires { IsCounted bytes.now }
    ensures { OnOk result (out.new.items ≡ out.old.items ++ text_bytes bytes.now) }
{
    put_count(out, bytes.len())?;
    out.extend_from_slice(bytes)
}

#[tactic(auto, unfolding(crate::specs::Version2::value_bytes))]
fn put_value(out: &mut Vec<u8>, value: i32) -> Result<(), AllocError>
    ensures { OnOk result (out.new.items ≡ out.old.items ++ value_bytes value) }
{
    out.extend_from_slice(&value.to_le_bytes())
}

#[tactic(auto, unfolding(crate::specs::Version2::scalar_bytes))]
fn put_scalar(out: &mut Vec<u8>, scalar: i64) -> Result<(), AllocError>
    ensures appended { OnOk result (out.new.items ≡ out.old.items ++ scalar_bytes scalar) }
    ensures fits { IsScalar scalar }
{
    out.extend_from_slice(&scalar.to_le_bytes())
}

fn put_parameter(out: &mut Vec<u8>, saved: &Saved) -> Result<(), AllocError>
    requires { IsParameter saved.now }
    ensures { OnOk result (out.new.items ≡ out.old.items ++ parameter_bytes saved.now) }
{
    put_text(out, saved.name.as_bytes())?;
    put_value(out, saved.value as i32)
}

fn put_parameters(out: &mut Vec<u8>, saved: &[Saved]) -> Result<(), AllocError>
    requires few { IsCounted saved.now }
    requires each { AllByRecursion IsParameter saved.now }
    ensures { OnOk result (out.new.items ≡ out.old.items ++ list_bytes parameter_bytes saved.now) }
{
    put_count(out, saved.len())?;
    for one in saved {
        put_parameter(out, one)?;
    }
    Ok(())
}

fn put_scalars(out: &mut Vec<u8>, scalars: &[i64]) -> Result<(), AllocError>
    requires { IsCounted scalars.now }
    ensures appended { OnOk result (out.new.items ≡ out.old.items ++ list_bytes scalar_bytes scalars.now) }
    ensures each { OnOk result (AllByRecursion IsScalar scalars.now) }
{
    put_count(out, scalars.len())?;
    for scalar in scalars {
        put_scalar(out, *scalar)?;
    }
    Ok(())
}

/// Appends the endpoint with its value, if it is a parameter, and gives the values behind.
fn push_parameter<'v>(
    alloc: Global,
    saved: &mut SavedList,
    end: &HostEnd,
    values: &'v [i64],
) -> Result<&'v [i64], NoMemory>
    requires lawful { IsLawfulEnd end.now }
    requires in_range { IsValueOf end.now.parameter values.now }
    ensures saved { OnOk result (saved.new ≡ saved.old ++ parameter_with end.now values.now) }
    ensures rest { IfOk result (λ rest. rest.now ≡ after_value end.now values.now) }
    ensures writable { OnOk result (IsCounted end.now.name → AllByRecursion IsParameter saved.old → AllByRecursion IsParameter saved.new) }
    ensures few { OnOk result (length saved.new ≤ length saved.old + 1) }
{
    if end.parameter.is_none() {
        return Ok(values);
    }
    match values {
        [value, rest @ ..] => {
            let name = Name::from_str(alloc, end.name.as_str())?;
            saved.push(Saved {
                name,
                value: *value,
            })?;
            Ok(rest)
        }
        [] => Ok(values),
    }
}

/// The parameters with their values.
pub(crate) fn parameters_of(
    alloc: Global,
    host: &[HostEnd],
    values: &[i64],
) -> Result<SavedList, NoMemory>
    requires lawful { IsLawful host.now }
    requires in_range { AreValues host.now values.now }
    ensures saved { IfOk result (λ saved. saved ≡ saved_with host.now values.now) }
    ensures writable { IfOk result (λ saved. AllByRecursion (λ end. IsCounted end.name) host.now → AllByRecursion IsParameter saved) }
    ensures few { IfOk result IsCounted }
{
    let mut saved = SavedList::new(alloc);
    let mut left = values;
    for end in host {
        left = push_parameter(alloc, &mut saved, end, left)?;
    }
    Ok(saved)
}

fn text_of(
    alloc: Global,
    saved: &[Saved],
    module_bytes: &[u8],
    snapshot: &Snapshot,
) -> Result<Bytes, NoMemory>
    requires few { IsCounted saved.now }
    requires each { AllByRecursion IsParameter saved.now }
    requires module_bytes { IsCounted module_bytes.now }
    requires memory { IsCounted snapshot.now.memory }
    requires globals { IsCounted snapshot.now.globals }
    requires current { IsCounted snapshot.now.current }
    ensures text { IfOk result (λ text. text ≡ state_bytes (record { saved = saved.now; module_bytes = module_bytes.now; snapshot = snapshot.now })) }
    ensures writable { OnOk result (IsWritable (record { saved = saved.now; module_bytes = module_bytes.now; snapshot = snapshot.now })) }
{
    let mut out = Vec::with_capacity(alloc, module_bytes.len() + snapshot.memory.len())?;
    out.extend_from_slice(&MARK)?;
    put_parameters(&mut out, saved)?;
    put_text(&mut out, module_bytes)?;
    put_text(&mut out, snapshot.memory.as_slice())?;
    put_scalars(&mut out, snapshot.globals.as_slice())?;
    put_scalars(&mut out, snapshot.current.as_slice())?;
    Ok(Bytes::from_vec(out))
}

/// Writes a state file of version 2: the parameters with these values, in declaration order, the bytes of the module
/// that ran, and where its run stands. `read_state` reads the same state from it.
pub fn snapshot_text(
    alloc: Global,
    host: &HostEnds,
    values: &Scalars,
    module_bytes: &[u8],
    snapshot: &Snapshot,
) -> Result<Bytes, NoMemory>
    requires lawful { IsLawful host.now }
    requires in_range { AreValues host.now values.now }
    requires short { AreShort host.now module_bytes.now snapshot.now }
    ensures text { IfOk result (λ text. IsVersion2 text (state_with host.now values.now module_bytes.now snapshot.now)) }
{
    let saved = parameters_of(alloc, host.as_slice(), values.as_slice())?;
    text_of(alloc, saved.as_slice(), module_bytes, snapshot)
}
