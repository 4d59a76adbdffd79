// Which snapshots belong to a module, and the globals that an instance is resumed with.

ghost use Rattle.std.specs.Prelude.{◌≡◌, ◌↔◌, ◌++◌, ℤ, List, IsTrue, map, length, IfOk, MatchOption};
ghost use Rattle.std.specs.List.{AllByRecursion};
ghost use Rattle.cm_base.specs.Scripts.{HasShape};
ghost use Rattle.wasm_tree.specs.Slots.{is_value_input as takes_value};
ghost use Rattle.wasm_tree.specs.Stopped.{bits_of, restored_globals};
ghost use Rattle.wasm_tree.specs.Valid.{IsConstantOf};
ghost use Rattle.wasm_sound.specs.Kinds.{IsOf, AreOf};
ghost use Rattle.wasm_runner.specs.Snapshots.{IsNumberOf, AreNumbersOf, kept_types, kept_kinds, Fits};

use crate::instance::{constant, memory_bytes};
use cm_base::{Flow, HostEnd, Kind, Snapshot};
use slot_codec::has_shape;
use std::alloc::{AllocError, Global};
use wasm_tree::{GlobalVar, ValType};
use wasm_valid::Valid;

// Whether the number is a value of the type.
fn is_number_of(ty: ValType, value: i64) -> bool
    ensures { IsTrue result ↔ IsNumberOf ty value }
{
    match ty {
        ValType::I32 => i32::try_from(value).is_ok(),
        ValType::I64 => true,
    }
}

// Whether there is a number of its type for each mutable global.
fn fit_globals(vars: &[GlobalVar], kept: &[i64]) -> bool
    ensures { IsTrue result ↔ AreNumbersOf (kept_types vars.now) kept.now }
{
    let mut rest = kept;
    for var in vars {
        if var.mutable {
            match rest.split_first() {
                None => return false,
                Some((value, more)) => {
                    if !is_number_of(var.ty, *value) {
                        return false;
                    }
                    rest = more;
                }
            }
        }
    }
    rest.is_empty()
}

// Whether a host sets a value of the endpoint.
fn is_value_input(end: &HostEnd) -> bool
    ensures { result ≡ takes_value end.now }
{
    matches!(end.flow, Flow::Input) && matches!(end.kind, Kind::Value)
}

// Whether there is a scalar of its kind for each scalar of a value input.
fn fit_current(ends: &[HostEnd], current: &[i64]) -> bool
    ensures { IsTrue result ↔ HasShape (kept_kinds ends.now) current.now }
{
    let mut rest = current;
    for end in ends {
        if is_value_input(end) {
            let shape = end.shape.as_slice();
            let (values, more) = rest.split_at(shape.len().min(rest.len()));
            if !has_shape(shape, values) {
                return false;
            }
            rest = more;
        }
    }
    rest.is_empty()
}

/// Whether the snapshot is of the module: its memory has the module's size, there is a number of its type for each mutable
/// global, and a scalar of its kind for each scalar of a value input. It takes no memory.
pub fn fits(valid: &Valid, snapshot: &Snapshot) -> bool
    ensures { IsTrue result ↔ Fits valid.now.of valid.now.section snapshot.now }
{
    let loaded = valid.module();
    snapshot.memory.len() == memory_bytes(loaded)
        && fit_globals(loaded.globals.as_slice(), snapshot.globals.as_slice())
        && fit_current(valid.host().as_slice(), snapshot.current.as_slice())
}

// The bits of a number of the type.
fn bits(ty: ValType, value: i64) -> u64
    requires { IsNumberOf ty value }
    ensures value { result ≡ bits_of ty value }
    ensures fits { IsOf ty result }
{
    match ty {
        ValType::I32 => u64::from((value as i32).cast_unsigned()),
        ValType::I64 => value.cast_unsigned(),
    }
}

/// All globals: the mutable ones from a snapshot, the others with their first values.
pub fn restored(alloc: Global, vars: &[GlobalVar], kept: &[i64]) -> Result<Vec<u64>, AllocError>
    requires constants { AllByRecursion (λ global. IsConstantOf global.ty global.value) vars.now }
    requires numbers { AreNumbersOf (kept_types vars.now) kept.now }
    ensures values { IfOk result (λ globals. globals.items ≡ restored_globals vars.now kept.now) }
    ensures typed { IfOk result (λ globals. AreOf (map (λ global. global.ty) vars.now) globals.items) }
{
    let mut globals = Vec::new(alloc);
    let mut at = 0;
    for var in vars {
        if var.mutable {
            globals.push(bits(var.ty, kept[at]))?;
            at += 1;
        } else {
            globals.push(constant(&var.value))?;
        }
    }
    Ok(globals)
}
