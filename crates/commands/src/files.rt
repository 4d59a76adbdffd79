//! Files of a folder, read up to their limits and written whole.

ghost use Rattle.std.specs.Prelude.{◌≡◌, ◌≤◌, ◌<◌, ◌-◌, ◌^◌, length, IfOk, IfErr, OnOk, Some};
ghost use Rattle.cm_io.specs.Files.{file_at, KeepsOthers};
ghost use Rattle.cm_io.specs.Seen.{CountsStay, IfTold, OnlyRead};
ghost use Rattle.commands.specs.Files.{HasFile, Unread, least_limit};
ghost use Rattle.commands.specs.Steps.{Stopped, Unwritten};

use crate::status::{FileRef, Status, Target};
use crate::stop::Stop;
use cm_base::{Bytes, Name, NoMemory};
use cm_io::{Folder, Read, Wrote};
use std::alloc::Global;

/// The bytes of a file that has at most `limit` of them.
pub fn read_file<F: Folder>(
    alloc: Global,
    folder: &mut F,
    name: &str,
    file: FileRef,
    limit: u64,
) -> Result<Bytes, Status>
    requires least { least_limit file ≤ limit }
    requires more { limit < 2 ^ 64 - 1 }
    ensures only_read { OnlyRead (F.seen folder.old) (F.seen folder.new) }
    ensures within { IfOk result (λ bytes. length bytes ≤ limit) }
    ensures held { IfOk result (λ bytes. IfTold (F.seen folder.old) (λ files. HasFile files name.now limit bytes)) }
    ensures stopped { IfErr result (Stopped (F.seen folder.old) (F.seen folder.new) (λ f. f ≡ file) (λ files. Unread files file name.now limit)) }
{
    match folder.read(alloc, name, limit + 1) {
        Read::Bytes(bytes) => {
            let length = bytes.len() as u64;
            if length > limit {
                return Err(Status::TooBig(file, length));
            }
            Ok(bytes)
        }
        Read::Absent => Err(Status::Absent(file)),
        Read::Failed => Err(Status::ReadFault(file)),
        Read::NoMemory => Err(Status::NoMemory),
    }
}

/// Makes the bytes the whole file of that name.
pub fn write_file<F: Folder>(
    alloc: Global,
    folder: &mut F,
    name: &str,
    bytes: &[u8],
) -> Result<(), Stop>
    ensures others { KeepsOthers (F.seen folder.old).holds (F.seen folder.new).holds name.now }
    ensures counts { CountsStay (F.seen folder.old) (F.seen folder.new) }
    ensures written { OnOk result (IfTold (F.seen folder.new) (λ files. file_at files name.now ≡ Some bytes.now)) }
    ensures failure { IfErr result (λ stop. Unwritten (F.seen folder.old) (F.seen folder.new) stop.status) }
{
    // The name comes first: after a failed write there is no other answer.
    let about = Some(Name::from_str(alloc, name)?);
    match folder.write(alloc, name, bytes) {
        Wrote::Ok => Ok(()),
        Wrote::Failed => Err(Stop {
            status: Status::WriteFault(Target::File),
            about,
        }),
        Wrote::NoMemory => Err(Stop::from(NoMemory)),
    }
}
