// What reading a state file answers, in the words of rows.

ghost use Rattle.cm_base.specs.HostEnds.{IsLawful};

use crate::faults::form_fail_text;
use crate::runs::{push_bytes, push_numbers};
use cm_base::{HostEnds, Saved, SavedList};
use saved_state::{State, Version2, apply, read_state};
use std::alloc::{AllocError, Global};

/// Appends the parameters, each as ` "gain"=7`.
fn push_saved(line: &mut String, saved: &[Saved]) -> Result<(), AllocError> {
    for one in saved {
        let (name, value) = (one.name.as_str(), one.value);
        write!(line, " {name:?}={value}")?;
    }
    Ok(())
}

/// Appends the module, the memory, the globals and the current scalars.
fn push_run(alloc: Global, line: &mut String, state: &Version2) -> Result<(), AllocError> {
    line.push_str("; module")?;
    push_bytes(alloc, line, state.module_bytes.as_slice())?;
    line.push_str("; memory")?;
    push_bytes(alloc, line, state.snapshot.memory.as_slice())?;
    line.push_str("; globals")?;
    push_numbers(line, state.snapshot.globals.as_slice())?;
    line.push_str("; current")?;
    push_numbers(line, state.snapshot.current.as_slice())
}

fn state_text(alloc: Global, state: &State) -> Result<String, AllocError> {
    match state {
        State::Version1(saved) => {
            let mut line = String::from_str(alloc, "version 1")?;
            push_saved(&mut line, saved.as_slice())?;
            Ok(line)
        }
        State::Version2(state) => {
            let mut line = String::from_str(alloc, "version 2")?;
            push_saved(&mut line, state.saved.as_slice())?;
            push_run(alloc, &mut line, state)?;
            Ok(line)
        }
    }
}

/// The state in full, as `version 1 "gain"=7`, or its refusal.
pub fn state_answer(alloc: Global, bytes: &[u8]) -> Result<String, AllocError> {
    match read_state(alloc, bytes) {
        Ok(state) => state_text(alloc, &state),
        Err(fail) => form_fail_text(alloc, &fail),
    }
}

/// The parameters that are saved in a state.
pub fn saved_in(state: &State) -> &SavedList {
    match state {
        State::Version1(saved) => saved,
        State::Version2(state) => &state.saved,
    }
}

/// How many parameters are saved, and the last one.
fn saved_sizes(alloc: Global, saved: &[Saved]) -> Result<String, AllocError> {
    let count = saved.len();
    let mut line = format!(in alloc; "{count} parameters")?;
    if let Some(last) = saved.last() {
        let (name, value) = (last.name.as_str(), last.value);
        write!(line, " last {name:?}={value}")?;
    }
    Ok(line)
}

fn state_sizes(alloc: Global, state: &State) -> Result<String, AllocError> {
    let mut line = saved_sizes(alloc, saved_in(state).as_slice())?;
    if let State::Version2(state) = state {
        let (code, memory) = (state.module_bytes.len(), state.snapshot.memory.len());
        let (globals, current) = (state.snapshot.globals.len(), state.snapshot.current.len());
        write!(
            line,
            "; module {code}; memory {memory}; globals {globals}; current {current}"
        )?;
    }
    Ok(line)
}

/// The state in brief, as `2 parameters last "gain"=7`, or its refusal.
pub fn state_sizes_answer(alloc: Global, bytes: &[u8]) -> Result<String, AllocError> {
    match read_state(alloc, bytes) {
        Ok(state) => state_sizes(alloc, &state),
        Err(fail) => form_fail_text(alloc, &fail),
    }
}

/// The values that are applied to parameters, in declaration order.
fn applied_text(alloc: Global, host: &HostEnds, saved: &SavedList) -> Result<String, AllocError>
    requires { IsLawful host.now }
{
    match apply(alloc, host, saved) {
        Ok(values) => {
            let mut line = String::from_str(alloc, "values")?;
            push_numbers(&mut line, values.as_slice())?;
            Ok(line)
        }
        Err(_) => String::from_str(alloc, "no memory"),
    }
}

/// What the parameters of the host start with, as `values 7 2`, or the refusal of the state.
pub fn applied_answer(alloc: Global, bytes: &[u8], host: &HostEnds) -> Result<String, AllocError>
    requires { IsLawful host.now }
{
    match read_state(alloc, bytes) {
        Ok(state) => applied_text(alloc, host, saved_in(&state)),
        Err(fail) => form_fail_text(alloc, &fail),
    }
}
