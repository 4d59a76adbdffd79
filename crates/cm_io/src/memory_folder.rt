ghost use Rattle.std.specs.Prelude.{◌≡◌, ◌≤◌, length, ◌↔◌, Contains, Option, Some, None};
ghost use Rattle.std.specs.Option.{option_copied};
ghost use Rattle.cm_io.specs.Files.{file_at, first_bytes, HasDistinctNames, SameElsewhere};
ghost use Rattle.cm_io.specs.Folder.{IfRead, OnWritten};
ghost use Rattle.cm_io.specs.Memory.{FolderState, read_leaves, write_leaves};

use crate::calls::{CallList, has_call, raised};
use crate::files::{FileList, file_named, keep_file};
use crate::folder::{Folder, Read, Wrote};
use crate::piece::front;
use cm_base::Items;
use std::alloc::Global;
use std::marker::Model;

/// A folder in memory, which tells what it holds. The calls of the given numbers fail: such a read or
/// write changes no file.
#[derive(Drop)]
pub struct MemoryFolder {
    files: FileList,
    failing: CallList,
    calls: u64,
    faults: u64,
    absences: u64,
}

impl Model for MemoryFolder {
    ghost use Rattle.cm_io.specs.Files.{HasDistinctNames};
    ghost use Rattle.cm_io.specs.Memory.{FolderState};

    ghost Value = { FolderState };

    ghost view = { λ f. record { files = f.files; failing = f.failing; calls = f.calls; faults = f.faults; absences = f.absences } };

    ghost invariant = { λ f. HasDistinctNames f.files };
}

impl MemoryFolder {
    /// A folder of these files. Calls of `read` and `write` are counted together, from 0; those in
    /// `failing` fail.
    pub fn new(files: FileList, failing: CallList) -> MemoryFolder
        requires { HasDistinctNames files }
        ensures { result ≡ record { files = files; failing = failing; calls = 0; faults = 0; absences = 0 } }
    {
        MemoryFolder {
            files,
            failing,
            calls: 0,
            faults: 0,
            absences: 0,
        }
    }

    /// The bytes of a file. This counts as no call.
    pub fn held(&self, name: &str) -> Option<&[u8]>
        ensures { option_copied result ≡ file_at self.now.files name.now }
    {
        file_named(self.files.as_slice(), name.as_bytes())
    }
}

#[tactic(auto, using(crate::proofs::FileLemmas::written_file_is_there, crate::proofs::FileLemmas::other_files_stay))]
impl Folder for MemoryFolder {
    ghost seen = { λ folder. record { holds = Some folder.files; faults = folder.faults; absences = folder.absences } };

    fn read(&mut self, alloc: Global, name: &str, most: u64) -> Read
        ensures leaves { self.new ≡ read_leaves self.old result }
        ensures failed { (result ≡ Read.Failed) ↔ Contains self.old.failing self.old.calls }
        ensures absent { (result ≡ Read.Absent) ↔ ((¬ Contains self.old.failing self.old.calls) × (file_at self.old.files name.now ≡ None)) }
        ensures bytes { IfRead result (λ bytes. first_bytes most (file_at self.old.files name.now) ≡ Some bytes) }
        ensures few { IfRead result (λ bytes. length bytes ≤ most) }
    {
        let failing = has_call(&self.failing, self.calls);
        self.calls = raised(self.calls);
        if failing {
            self.faults = raised(self.faults);
            return Read::Failed;
        }
        match file_named(self.files.as_slice(), name.as_bytes()) {
            None => {
                self.absences = raised(self.absences);
                Read::Absent
            }
            Some(bytes) => match Items::from_slice(alloc, front(bytes, most)) {
                Ok(bytes) => Read::Bytes(bytes),
                Err(_) => Read::NoMemory,
            },
        }
    }

    fn write(&mut self, alloc: Global, name: &str, bytes: &[u8]) -> Wrote
        ensures leaves { self.new ≡ write_leaves self.old name.now bytes.now result }
        ensures failed { (result ≡ Wrote.Failed) ↔ Contains self.old.failing self.old.calls }
        ensures others { SameElsewhere self.old.files self.new.files name.now }
        ensures written { OnWritten result (file_at self.new.files name.now ≡ Some bytes.now) }
    {
        let failing = has_call(&self.failing, self.calls);
        self.calls = raised(self.calls);
        if failing {
            self.faults = raised(self.faults);
            return Wrote::Failed;
        }
        match keep_file(alloc, &mut self.files, name, bytes) {
            Ok(()) => Wrote::Ok,
            Err(_) => Wrote::NoMemory,
        }
    }
}
