//! The line that a status puts on the error stream. No clause speaks of the whole line: tests show its text.
//! The names in it are put by `push_name`, so that it stays one line.

ghost use Rattle.std.specs.Prelude.{◌≡◌};

#[cfg(test)]
mod tests;

use crate::status::{Status, Target};
use cm_base::{FormFault, Refused};
use cm_io::{Listener, Sink, push_name};
use module_player::At;
use std::alloc::{AllocError, Global};
use wasm_tree::ModuleRefused;

/// The line of a status that speaks of a file. `name` is that file's.
fn line_of(alloc: Global, status: &Status, name: &str) -> Result<Option<Vec<u8>>, AllocError> {
    let line = match status {
        Status::Absent(_) => file_line(alloc, "absent ", name)?,
        Status::ReadFault(_) => file_line(alloc, "read fault ", name)?,
        Status::TooBig(_, _) => file_line(alloc, "too big ", name)?,
        Status::Refused(refused) => refused_line(alloc, refused, name)?,
        Status::WriteFault(Target::File) => file_line(alloc, "write fault ", name)?,
        other => return run_line(alloc, other),
    };
    Ok(Some(line))
}

/// The line of a status that speaks of a state, of a script, of a module or of its run.
fn run_line(alloc: Global, status: &Status) -> Result<Option<Vec<u8>>, AllocError> {
    let line = match status {
        Status::StateRefused(fault) => fault_line(alloc, "state", fault)?,
        Status::InputRefused(fault) => fault_line(alloc, "input", fault)?,
        Status::ModuleRefused(refused) => module_line(alloc, refused)?,
        Status::TurnsSpent(at) => part_line(alloc, "turns spent", *at)?,
        Status::StepsSpent(at) => part_line(alloc, "steps spent", *at)?,
        Status::Trapped(at) => part_line(alloc, "trapped", *at)?,
        Status::ListenerFault(number) => format!(in alloc; "listener fault {number}\n")?,
        _ => return Ok(None),
    };
    Ok(Some(Vec::from_slice(alloc, line.as_bytes())?))
}

/// `FILE refused RULE PART INDEX`.
fn fault_line(alloc: Global, file: &str, fault: &FormFault) -> Result<String, AllocError> {
    let (rule, part, index) = (fault.rule, fault.part, fault.index);
    format!(in alloc; "{file} refused {rule:?} {part:?} {index}\n")
}

/// `module refused RULE OFFSET`.
fn module_line(alloc: Global, refused: &ModuleRefused) -> Result<String, AllocError> {
    let (rule, offset) = (refused.rule, refused.offset);
    format!(in alloc; "module refused {rule:?} {offset}\n")
}

/// The words and the part of a run.
fn part_line(alloc: Global, words: &str, at: At) -> Result<String, AllocError> {
    match at {
        At::Init => format!(in alloc; "{words} init\n"),
        At::Frame(frame) => format!(in alloc; "{words} frame {frame}\n"),
    }
}

/// The words and the name of a file.
fn file_line(alloc: Global, words: &str, name: &str) -> Result<Vec<u8>, AllocError> {
    let mut line = Vec::from_slice(alloc, words.as_bytes())?;
    push_name(&mut line, name)?;
    line.push(b'\n')?;
    Ok(line)
}

/// `refused CAUSE NAME:LINE:COLUMN`, and for a cycle the paths of its leaves.
fn refused_line(alloc: Global, refused: &Refused, name: &str) -> Result<Vec<u8>, AllocError> {
    let cause = refused.cause;
    let (at_line, at_column) = (refused.place.line, refused.place.column);
    let words = format!(in alloc; "refused {cause:?} ")?;
    let place = format!(in alloc; ":{at_line}:{at_column}")?;
    let mut line = Vec::from_slice(alloc, words.as_str().as_bytes())?;
    push_name(&mut line, name)?;
    line.extend_from_slice(place.as_str().as_bytes())?;
    for (number, path) in refused.cycle.as_slice().iter().enumerate() {
        let before: &str = if number == 0 { " cycle " } else { " " };
        line.extend_from_slice(before.as_bytes())?;
        push_name(&mut line, path.as_str())?;
    }
    line.push(b'\n')?;
    Ok(line)
}

/// Puts the status's line, and gives the status back. A line that can't be made or put changes nothing. Those
/// of `Usage` and `NoMemory` take no memory.
pub fn told<E: Sink>(alloc: Global, err: &mut E, status: Status, name: &str) -> Status
    ensures { result ≡ status }
{
    match &status {
        Status::Usage => {
            let _ = err.put(b"usage\n");
        }
        Status::NoMemory => {
            let _ = err.put(b"no memory\n");
        }
        Status::WriteFault(Target::Out) => {
            let _ = err.put(b"write fault out\n");
        }
        other => {
            if let Ok(Some(line)) = line_of(alloc, other, name) {
                let _ = err.put(&line);
            }
        }
    }
    status
}

/// Puts a line for each listener: how many items it heard. A line that can't be made or put changes nothing.
pub fn heard<E: Sink, L: Listener>(alloc: Global, err: &mut E, listeners: &[L]) {
    for (number, listener) in listeners.iter().enumerate() {
        let count = listener.count();
        if let Ok(line) = format!(in alloc; "listener {number} heard {count}\n") {
            let _ = err.put(line.as_bytes());
        }
    }
}
