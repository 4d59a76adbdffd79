ghost use Rattle.std.specs.Prelude.{◌≡◌, ◌≤◌, length, Some, None};
ghost use Rattle.cm_io.specs.Count.{Rose};
ghost use Rattle.cm_io.specs.Files.{file_at, first_bytes, KeepsOthers};
ghost use Rattle.cm_io.specs.Folder.{IfRead, OnAbsent, OnReadFailed, OnWritten, OnWriteFailed, OnWriteNoMemory};
ghost use Rattle.cm_io.specs.Seen.{Seen, CountsStay, IfTold, OnlyRead};

use cm_base::Bytes;
use std::alloc::Global;

/// What a read of a file gives.
#[derive(Debug, Drop)]
pub enum Read {
    /// The first bytes of the file, as many as were asked for, or all where it has no more.
    Bytes(Bytes),
    /// There is no file of that name.
    Absent,
    /// The file couldn't be read.
    Failed,
    NoMemory,
}

/// What a write of a file gives.
#[derive(Clone, Copy, Debug, PartialEq, Eq)]
pub enum Wrote {
    Ok,
    /// The file couldn't be written. It may now hold anything or be absent.
    Failed,
    NoMemory,
}

/// Files by their names. A folder in memory tells what it holds. One on a disk tells nothing, and its
/// two counts are the only evidence that a call failed or found no file.
pub trait Folder {
    /// What the folder tells of its files, how many calls failed, and how many reads found no file.
    ghost seen: { Self → Seen };

    /// The first `most` bytes of a file, or all where it has no more.
    fn read(&mut self, alloc: Global, name: &str, most: u64) -> Read
        ensures only_read { OnlyRead (seen self.old) (seen self.new) }
        ensures bytes { IfRead result (λ bytes. IfTold (seen self.old) (λ files. first_bytes most (file_at files name.now) ≡ Some bytes)) }
        ensures few { IfRead result (λ bytes. length bytes ≤ most) }
        ensures absent_counted { OnAbsent result (Rose (seen self.old).absences (seen self.new).absences) }
        ensures absent_held_not { OnAbsent result (IfTold (seen self.old) (λ files. file_at files name.now ≡ None)) }
        ensures failed_counted { OnReadFailed result (Rose (seen self.old).faults (seen self.new).faults) };

    /// Makes `bytes` the whole file of that name.
    fn write(&mut self, alloc: Global, name: &str, bytes: &[u8]) -> Wrote
        ensures others { KeepsOthers (seen self.old).holds (seen self.new).holds name.now }
        ensures counts { CountsStay (seen self.old) (seen self.new) }
        ensures written { OnWritten result (IfTold (seen self.new) (λ files. file_at files name.now ≡ Some bytes.now)) }
        ensures failed_counted { OnWriteFailed result (Rose (seen self.old).faults (seen self.new).faults) }
        ensures no_memory { OnWriteNoMemory result ((seen self.new).holds ≡ (seen self.old).holds) };
}
