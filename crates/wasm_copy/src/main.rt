//! Copies a module in its shortest spelling: `wasm_copy IN OUT`. It is the round trip of the reader and the
//! writer as one call with a contract, and what `bench/` times. `wasm_copy IN` reads the module alone, and so
//! tells whether the file spells one; `wasm_copy IN OUT check` copies it only where it is valid. OUT is written in
//! place. Where nothing is copied, a line on standard error says why, and the status is 1.
#![tactic(auto)]

mod checking;
mod round_trip;
mod stop;
#[cfg(test)]
mod tests;

ghost use Rattle.std.specs.Prelude.{◌≤◌, IfOk, length};

use checking::checked;
use cm_base::limits::MODULE_BYTES;
use round_trip::shortened;
use std::alloc::AllocError;
use std::io::{ErrorKind, Read, Write};
use std::process::ExitCode;
use std::rt::{Env, Files};
use std::{env, fs};
use stop::{Stop, line_of};
use wasm_reader::read_module;

/// The bytes of a file that isn't longer than a module may be.
fn module_bytes<R: Files + AllocGlobal>(rt: &R, from: &str) -> Result<Vec<u8>, Stop>
    ensures { IfOk result (λ bytes. length bytes.items ≤ MODULE_BYTES) }
{
    let mut bytes = Vec::new(rt.alloc());
    let Ok(file) = fs::open(rt, from) else {
        return Err(Stop::CannotRead);
    };
    match file.take(MODULE_BYTES + 1).read_to_end(&mut bytes) {
        Ok(_) if bytes.len() as u64 > MODULE_BYTES => Err(Stop::TooBig),
        Ok(_) => Ok(bytes),
        Err(error) if error.kind() == ErrorKind::OutOfMemory => Err(Stop::NoMemory),
        Err(_) => Err(Stop::CannotRead),
    }
}

/// Copies the file to the other, if there is one; where it `is_checked`, only a valid module.
fn copy<R: Files + AllocGlobal>(
    rt: &R,
    from: &str,
    to: Option<&str>,
    is_checked: bool,
) -> Result<(), Stop> {
    let bytes = module_bytes(rt, from)?;
    let Some(to) = to else {
        return match read_module(rt.alloc(), &bytes) {
            Ok(_) => Ok(()),
            Err(fail) => Err(Stop::Module(fail)),
        };
    };
    if is_checked {
        if let Err(fail) = checked(rt.alloc(), &bytes) {
            return Err(Stop::Module(fail));
        }
    }
    match shortened(rt.alloc(), &bytes) {
        Ok(short) => match fs::write(rt, to, short.as_slice()) {
            Ok(()) => Ok(()),
            Err(_) => Err(Stop::CannotWrite),
        },
        Err(fail) => Err(Stop::Module(fail)),
    }
}

/// Does what the words ask for, and gives the line that tells why it can't be done.
fn line_of_words<R: Files + Env + AllocGlobal>(rt: &R) -> Result<Option<Vec<u8>>, AllocError> {
    let mut words = match env::args(rt) {
        Ok(words) => words.skip(1),
        Err(error) if error.kind() == ErrorKind::InvalidData => {
            return Ok(Some(line_of(rt.alloc(), &Stop::NotText, "", "")?));
        }
        Err(_) => return Err(AllocError),
    };
    let (Some(from), to, third, None) = (words.next(), words.next(), words.next(), words.next())
    else {
        return Ok(Some(line_of(rt.alloc(), &Stop::Usage, "", "")?));
    };
    let is_checked = match &third {
        Some(word) if word.as_str() == "check" => true,
        Some(_) => return Ok(Some(line_of(rt.alloc(), &Stop::Usage, "", "")?)),
        None => false,
    };
    let to = to.as_ref().map(|to| to.as_str());
    match copy(rt, from.as_str(), to, is_checked) {
        Ok(()) => Ok(None),
        Err(stop) => Ok(Some(line_of(rt.alloc(), &stop, from.as_str(), to.unwrap_or(""))?)),
    }
}

fn main(rt: HostRuntime) -> ExitCode {
    match line_of_words(&rt) {
        Ok(None) => ExitCode::from(0),
        Ok(Some(line)) => {
            let _ = rt.stderr().write_all(&line);
            ExitCode::from(1)
        }
        Err(_) => {
            let _ = rt.stderr().write_all(b"no memory\n");
            ExitCode::from(1)
        }
    }
}
