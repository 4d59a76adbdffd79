//! The program: `main` hands the real files and streams, and one listener that counts, to `run` of `commands`, whose
//! contract is the headline, and exits with the number of its status.
#![tactic(auto)]

ghost use Rattle.std.specs.Prelude.{◌≡◌, ◌↔◌, ◌⊎◌};
ghost use Rattle.std.specs.IoError.{error_kind};

use cm_io::Meter;
use commands::{Status, run, told};
use real_files::{Disk, Stream};
use std::alloc::AllocError;
use std::env;
use std::io::{self, ErrorKind};
use std::process::ExitCode;
use std::rt::Env;

/// The words after the program's name. The error of a word that isn't UTF-8 is `InvalidData`.
fn words_of<R: Env + AllocGlobal>(rt: &R) -> io::Result<Vec<String>> {
    let mut words = Vec::new(rt.alloc());
    for word in env::args(rt)?.skip(1) {
        words.push(word)?;
    }
    Ok(words)
}

/// The status where the words can't be had: words that aren't all UTF-8 are no command, and else memory ran
/// out.
fn status_without_words(error: &io::Error) -> Status
    ensures usage { (result ≡ Status.Usage) ↔ (error_kind error.now ≡ ErrorKind.InvalidData) }
    ensures memory { (result ≡ Status.Usage) ⊎ (result ≡ Status.NoMemory) }
{
    match error.kind() {
        ErrorKind::InvalidData => Status::Usage,
        _ => Status::NoMemory,
    }
}

fn main(rt: HostRuntime) -> ExitCode {
    let mut err = Stream::new(rt.stderr());
    let status = match words_of(&rt) {
        Ok(words) => {
            let mut folder = Disk::new(&rt);
            let mut out = Stream::new(rt.stdout());
            let mut listeners = Vec::new(rt.alloc());
            match listeners.push(Meter::new()) {
                Ok(()) => run(
                    rt.alloc(),
                    &words,
                    &mut folder,
                    &mut out,
                    &mut err,
                    &mut listeners,
                ),
                Err(_) => told(rt.alloc(), &mut err, Status::NoMemory, ""),
            }
        }
        Err(error) => told(rt.alloc(), &mut err, status_without_words(&error), ""),
    };
    ExitCode::from(status.number())
}
