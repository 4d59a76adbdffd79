ghost use Rattle.std.specs.Prelude.{◌≡◌};
ghost use Rattle.commands.specs.Statuses.{number_of, status_of_patch_run, status_of_run};

use cm_base::{Fail, FormFault, NoMemory, Refused};
use module_player::At;
use run_lines::RunEnd;
use wasm_tree::ModuleRefused;

/// A file that a command reads. Sources count from 1, in the order of the manifest.
#[derive(Clone, Copy, Debug, PartialEq, Eq)]
pub enum FileRef {
    Manifest,
    Source(u32),
    State,
    Input,
    Module,
}

/// What can't be written: the output, or the command's file.
#[derive(Clone, Copy, Debug, PartialEq, Eq)]
pub enum Target {
    Out,
    File,
}

/// How a command ended: docs/COMMANDS.md, "Statuses".
#[derive(Debug, Drop)]
pub enum Status {
    Ok,
    Usage,
    Absent(FileRef),
    ReadFault(FileRef),
    /// The file, and how many bytes were read.
    TooBig(FileRef, u64),
    Refused(Refused),
    StateRefused(FormFault),
    InputRefused(FormFault),
    ModuleRefused(ModuleRefused),
    TurnsSpent(At),
    StepsSpent(At),
    Trapped(At),
    WriteFault(Target),
    ListenerFault(u32),
    NoMemory,
}

impl Status {
    /// The status of a run that ended so.
    pub(crate) fn of_run(end: RunEnd) -> Status
        ensures { result ≡ status_of_run end }
    {
        match end {
            RunEnd::Ended => Status::Ok,
            RunEnd::StepsSpent(at) => Status::StepsSpent(at),
            RunEnd::Trapped(at) => Status::Trapped(at),
            RunEnd::PutFailed => Status::WriteFault(Target::Out),
            RunEnd::ListenerFailed(number) => Status::ListenerFault(number),
            RunEnd::NoMemory => Status::NoMemory,
        }
    }

    /// The status of a run of a patch whose module's run ended so. The module was given as many reductions as the turns
    /// are worth.
    pub(crate) fn of_patch_run(end: RunEnd) -> Status
        ensures { result ≡ status_of_patch_run end }
    {
        match end {
            RunEnd::StepsSpent(at) => Status::TurnsSpent(at),
            other => Status::of_run(other),
        }
    }

    /// The number that the program exits with.
    pub fn number(&self) -> u8
        ensures { result ≡ number_of self.now }
    {
        match self {
            Status::Ok => 0,
            Status::Usage => 1,
            Status::Absent(_) => 2,
            Status::ReadFault(_) => 3,
            Status::TooBig(_, _) => 4,
            Status::Refused(_) => 5,
            Status::StateRefused(_) => 6,
            Status::InputRefused(_) => 7,
            Status::ModuleRefused(_) => 8,
            Status::TurnsSpent(_) => 9,
            Status::StepsSpent(_) => 10,
            Status::Trapped(_) => 11,
            Status::WriteFault(_) => 12,
            Status::ListenerFault(_) => 13,
            Status::NoMemory => 14,
        }
    }
}

impl From<NoMemory> for Status {
    ghost use Rattle.std.specs.Prelude.{◌≡◌};
    ghost use Rattle.commands.specs.declared.status.Status.TheVariants.{NoMemory as LacksMemory};

    ghost from_gives = { λ _ status. status ≡ LacksMemory };

    fn from(_error: NoMemory) -> Status {
        Status::NoMemory
    }
}

impl From<Fail> for Status {
    ghost use Rattle.std.specs.Prelude.{◌≡◌};
    ghost use Rattle.commands.specs.Statuses.{status_of};

    ghost from_gives = { λ fail status. status ≡ status_of fail };

    fn from(fail: Fail) -> Status {
        match fail {
            Fail::Refused(refused) => Status::Refused(refused),
            Fail::NoMemory => Status::NoMemory,
        }
    }
}
