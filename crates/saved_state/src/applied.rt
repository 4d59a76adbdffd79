ghost use Rattle.std.specs.Prelude.{◌≡◌, ℕ, List, ◌++◌, IfOk, OnOk, option_map, option_to_list, unwrap_or, ◌≤ℤ◌};
ghost use Rattle.std.specs.HashMap.{get_by};
ghost use Rattle.std.specs.Str.{bytes_eq};
ghost use Rattle.cm_base.specs.HostEnds.{IsLawful, IsLawfulEnd};
ghost use Rattle.cm_base.specs.Parts.{saved_value};
ghost use Rattle.cm_number.specs.Conversion.{nearest};
ghost use Rattle.saved_state.specs.Applied.{values_of, AreValues};

use cm_base::{HostEnd, HostEnds, NoMemory, Range, Saved, SavedList, Scalars};
use cm_number::hold;
use std::alloc::{AllocError, Global};
use std::collections::HashMap;

/// The first value that is saved under each name.
pub(crate) fn by_name(alloc: Global, saved: &[Saved]) -> Result<HashMap<&str, i64>, AllocError>
    ensures { IfOk result (λ map. (name : List ℕ) → get_by (λ key. bytes_eq name key.now) map ≡ saved_value name saved.now) }
{
    let mut map = HashMap::with_capacity(alloc, saved.len())?;
    for index in (0..saved.len()).rev() {
        let one = &saved[index];
        map.insert(one.name.as_str(), one.value)?;
    }
    Ok(map)
}

pub(crate) fn saved_or(map: &HashMap<&str, i64>, name: &str, other: i64) -> i64
    ensures { result ≡ unwrap_or (get_by (λ key. bytes_eq name.now key.now) map.now) other }
{
    match map.get(name) {
        Some(value) => *value,
        None => other,
    }
}

/// The value of a parameter of this name and range.
fn held(map: &HashMap<&str, i64>, name: &str, range: Range) -> i64
    requires { range.min ≤ℤ range.max }
    ensures { result ≡ nearest range.min range.max (unwrap_or (get_by (λ key. bytes_eq name.now key.now) map.now) range.init) }
{
    let value = saved_or(map, name, i64::from(range.init));
    hold(value, i64::from(range.min), i64::from(range.max))
}

/// The value of an endpoint that is a parameter, and none of another.
fn value_of(map: &HashMap<&str, i64>, end: &HostEnd) -> Option<i64>
    requires { IsLawfulEnd end.now }
    ensures { result ≡ option_map (λ range. nearest range.min range.max (unwrap_or (get_by (λ key. bytes_eq end.now.name key.now) map.now) range.init)) end.now.parameter }
{
    match end.parameter {
        Some(range) => Some(held(map, end.name.as_str(), range)),
        None => None,
    }
}

fn push_value(values: &mut Scalars, value: Option<i64>) -> Result<(), AllocError>
    ensures { OnOk result (values.new ≡ values.old ++ option_to_list value) }
{
    match value {
        Some(value) => values.push(value),
        None => Ok(()),
    }
}

/// The value that each parameter starts with, in declaration order: the first that is saved under its name, else its
/// `init`, held in its range. Names of no parameter are not used.
pub fn apply(alloc: Global, host: &HostEnds, saved: &SavedList) -> Result<Scalars, NoMemory>
    requires { IsLawful host.now }
    ensures values { IfOk result (λ values. values ≡ values_of host.now saved.now) }
    // So there is one value in range for each parameter.
    ensures in_range { IfOk result (AreValues host.now) }
{
    let map = by_name(alloc, saved.as_slice())?;
    let mut values = Scalars::new(alloc);
    for end in host.as_slice() {
        push_value(&mut values, value_of(&map, end))?;
    }
    Ok(values)
}
