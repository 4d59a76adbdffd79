ghost use Rattle.std.specs.Prelude.{◌≡◌, ◌<◌, ◌^◌, ◌↔◌, length, map, string_bytes, None, IfSome, MatchOption};
ghost use Rattle.cm_io.specs.Seen.{IfTold, IfBothTold};
ghost use Rattle.item_lines.specs.Hearing.{ear};
ghost use Rattle.item_lines.specs.Telling.{mouth};
ghost use Rattle.commands.specs.Compile.{IsDone};
ghost use Rattle.commands.specs.Due.{IsDue};
ghost use Rattle.commands.specs.Files.{KeepsUnwritten};
ghost use Rattle.commands.specs.Told.{TellsWords};
ghost use Rattle.commands.specs.Statuses.{MayAnswer, HasCause, OnExplained, OnUnwritten};
ghost use Rattle.commands.specs.Steps.{EndsWords, ended};
ghost use Rattle.commands.specs.Words.{command_of, file_written};

use crate::compile::compile;
use crate::play::play_files;
use crate::render::render_files;
use crate::report::heard;
use crate::resume::resume_files;
use crate::status::Status;
use crate::stop::Stop;
use crate::words::{Command, read_words};
use cm_io::{Folder, Listener, Sink};
use std::alloc::Global;

/// What a command did: whether it has listeners hear items.
#[derive(Clone, Copy, Debug)]
enum Work {
    Quiet,
    Heard,
}

/// What a command did that wasn't stopped.
fn done(end: Result<(), Stop>, work: Work) -> Result<Work, Stop>
    ensures { ended result ≡ ended end }
{
    match end {
        Ok(()) => Ok(work),
        Err(stop) => Err(stop),
    }
}

/// Carries out the words over the folder.
fn carry_out<F: Folder, O: Sink, L: Listener>(
    alloc: Global,
    words: &[String],
    folder: &mut F,
    out: &mut O,
    listeners: &mut Vec<L>,
) -> Result<Work, Stop>
    requires few { length listeners.old.items < 2 ^ 31 }
    ensures ends { EndsWords (command_of (map string_bytes words.now)) (F.seen folder.old) (F.seen folder.new) (ended result) }
    ensures told { TellsWords (command_of (map string_bytes words.now)) (F.seen folder.old).holds
        (record { out = mouth (O.written out.old) (O.faults out.old) (O.refusals out.old); ears = map (λ l. ear (L.heard l) (L.count l) (L.faults l) (L.refusals l)) listeners.old.items })
        (record { out = mouth (O.written out.new) (O.faults out.new) (O.refusals out.new); ears = map (λ l. ear (L.heard l) (L.count l) (L.faults l) (L.refusals l)) listeners.new.items })
        (ended result) }
{
    match read_words(words) {
        Some(
            Command::Compile {
                manifest,
                out: file,
            },
        ) => done(compile(alloc, folder, manifest, file), Work::Quiet),
        Some(
            Command::Render {
                manifest,
                input,
                turns,
                state,
            },
        ) => done(
            render_files(alloc, folder, manifest, input, turns, state, out, listeners),
            Work::Heard,
        ),
        Some(Command::Play { wasm, input, steps }) => done(
            play_files(alloc, folder, wasm, input, steps, out, listeners),
            Work::Heard,
        ),
        Some(
            Command::Resume {
                state,
                input,
                steps,
                new,
            },
        ) => done(
            resume_files(alloc, folder, state, input, steps, new, out, listeners),
            Work::Heard,
        ),
        None => Err(Stop {
            status: Status::Usage,
            about: None,
        }),
    }
}

/// Carries out the words of a command line, those after the program's name. The files are those of `folder`,
/// lines go to `out`, and a line on what went wrong goes to `err`. `compile M OUT` puts no line and tells the listeners
/// nothing. `render M INPUT TURNS [STATE]`, `play WASM INPUT STEPS` and `resume STATE INPUT STEPS [NEW]` put the lines of a run and
/// have the listeners hear it; with `Ok` a line on each listener goes to `err`: docs/COMMANDS.md.
pub fn run<F: Folder, O: Sink, E: Sink, L: Listener>(
    alloc: Global,
    words: &[String],
    folder: &mut F,
    out: &mut O,
    err: &mut E,
    listeners: &mut Vec<L>,
) -> Status
    requires few { length listeners.old.items < 2 ^ 31 }

    // The words alone tell whether they are a command.
    ensures usage { (result ≡ Status.Usage) ↔ (command_of (map string_bytes words.now) ≡ None) }

    // A command answers for the files that it reads and for what it writes, and no more.
    ensures may_answer { IfSome (command_of (map string_bytes words.now)) (λ command. MayAnswer command result) }

    // Where the folder tells what it holds, every answer is due but a fault of the folder, of the output or of a listener
    // and want of memory.
    ensures explained { OnExplained result (IfTold (F.seen folder.old) (λ files.
        IsDue files (map string_bytes words.now) result)) }

    // The folder counted an absent file and a fault, and of a file that is too big more was read than it may have.
    ensures caused { HasCause (F.seen folder.old) (F.seen folder.new) result }

    // With `Ok` the command's work is done: of `compile`, the file to write holds a valid module that keeps the patch; of
    // `resume`, the file to write holds the state at the end of the resumed run.
    ensures done { result ≡ Status.Ok → MatchOption (command_of (map string_bytes words.now)) ⊥ (λ command.
        IfBothTold (F.seen folder.old) (F.seen folder.new) (IsDone command)) }

    // No file changes but the one that the command writes.
    ensures others { KeepsUnwritten (file_written (command_of (map string_bytes words.now)))
        (F.seen folder.old) (F.seen folder.new) }

    // With a status other than `Ok` that one is as before too, unless a write of it failed.
    ensures unwritten { OnUnwritten result ((F.seen folder.new).holds ≡ (F.seen folder.old).holds) }

    // Lines are put, and items heard, for exactly the run of the patch or of the module, resumed or whole, up to an item that isn't put or
    // heard, and the answer is that of its end; any other answer leaves output and listeners as they are.
    ensures told { TellsWords (command_of (map string_bytes words.now)) (F.seen folder.old).holds
        (record { out = mouth (O.written out.old) (O.faults out.old) (O.refusals out.old); ears = map (λ l. ear (L.heard l) (L.count l) (L.faults l) (L.refusals l)) listeners.old.items })
        (record { out = mouth (O.written out.new) (O.faults out.new) (O.refusals out.new); ears = map (λ l. ear (L.heard l) (L.count l) (L.faults l) (L.refusals l)) listeners.new.items })
        result }
{
    match carry_out(alloc, words, folder, out, listeners) {
        Ok(Work::Quiet) => Status::Ok,
        Ok(Work::Heard) => {
            heard(alloc, err, listeners);
            Status::Ok
        }
        Err(stop) => stop.report(alloc, err),
    }
}
