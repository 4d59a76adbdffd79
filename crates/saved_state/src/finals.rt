ghost use Rattle.std.specs.Prelude.{◌≡◌, ◌++◌, length, map, option_map, pos, slice_set, unwrap_or, IfOk, OnOk};
ghost use Rattle.std.specs.HashMap.{get_by};
ghost use Rattle.std.specs.Str.{bytes_eq};
ghost use Rattle.cm_base.specs.HostEnds.{IsLawful};
ghost use Rattle.cm_base.specs.Scripts.{AreSaved, IsScriptFor};
ghost use Rattle.saved_state.specs.Applied.{AreValues};
ghost use Rattle.saved_state.specs.Finals.{after_settings, final_values as finals_of, kept_in, kept_of, scalar_in, start_in};

use crate::applied::{by_name, saved_or};
use cm_base::{HostEnd, HostEnds, NoMemory, SavedList, Scalars, Script, Setting};
use std::alloc::{AllocError, Global};
use std::collections::HashMap;

/// What an endpoint starts with; one that is no parameter with 0.
fn start(map: &HashMap<&str, i64>, end: &HostEnd) -> i64
    ensures { result ≡ unwrap_or (option_map (λ range. unwrap_or (get_by (λ key. bytes_eq end.now.name key.now) map.now) range.init) end.now.parameter) (pos 0) }
{
    match end.parameter {
        Some(range) => saved_or(map, end.name.as_str(), i64::from(range.init)),
        None => 0,
    }
}

/// What each endpoint starts with.
fn starts(alloc: Global, host: &[HostEnd], saved: &SavedList) -> Result<Vec<i64>, AllocError>
    ensures { IfOk result (λ now. now.items ≡ map (λ end. start_in end end.parameter saved.now) host.now) }
{
    let map = by_name(alloc, saved.as_slice())?;
    let mut now = Vec::new(alloc);
    for end in host {
        now.push(start(&map, end))?;
    }
    Ok(now)
}

/// The scalar of a parameter's value.
fn scalar_of(value: &[i64]) -> i64
    ensures { result ≡ scalar_in value.now }
{
    match value.first() {
        Some(scalar) => *scalar,
        None => 0,
    }
}

/// Replaces the value of an endpoint.
fn replace(now: &mut Vec<i64>, endpoint: u32, value: i64)
    ensures { now.new.items ≡ slice_set now.old.items endpoint value }
{
    let index = endpoint as usize;
    if index < now.len() {
        now[index] = value;
    }
}

/// Replaces the values of endpoints by what is set or sent, in order.
fn replace_each(now: &mut Vec<i64>, settings: &[Setting])
    ensures { now.new.items ≡ after_settings settings.now now.old.items }
{
    for setting in settings {
        replace(now, setting.endpoint, scalar_of(setting.value.as_slice()));
    }
}

fn push_kept(values: &mut Scalars, end: &HostEnd, value: i64) -> Result<(), AllocError>
    ensures { OnOk result (values.new ≡ values.old ++ kept_of end.now.parameter value) }
{
    match end.parameter {
        Some(_) => values.push(value),
        None => Ok(()),
    }
}

/// The values of the endpoints that are parameters.
fn kept(alloc: Global, host: &[HostEnd], now: &[i64]) -> Result<Scalars, AllocError>
    requires { length now.now ≡ length host.now }
    ensures { IfOk result (λ values. values ≡ kept_in host.now now.now) }
{
    let mut values = Scalars::new(alloc);
    for (index, end) in host.iter().enumerate() {
        push_kept(&mut values, end, now[index])?;
    }
    Ok(values)
}

/// The value of each parameter at the end of a run over a script, in declaration order: the last one that the script sets
/// or sends, else the one that is saved under its name, or else its `init`.
pub fn final_values(
    alloc: Global,
    host: &HostEnds,
    saved: &SavedList,
    script: &Script,
) -> Result<Scalars, NoMemory>
    requires lawful { IsLawful host.now }
    requires saved { AreSaved host.now saved.now }
    requires script { IsScriptFor host.now script.now }
    ensures values { IfOk result (λ values. values ≡ finals_of host.now saved.now script.now) }
    // So there is one value in range for each parameter.
    ensures in_range { IfOk result (AreValues host.now) }
{
    let mut now = starts(alloc, host.as_slice(), saved)?;
    replace_each(&mut now, script.values.as_slice());
    replace_each(&mut now, script.events.as_slice());
    Ok(kept(alloc, host.as_slice(), &now)?)
}
