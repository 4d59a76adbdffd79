//! The adapters over real files and streams. They tell no content, since what a file or a stream holds is
//! outside every proof; each counts its errors, up to the greatest number of 64 bits. What they read from a
//! reader and write to a writer is proved for every one that tells what it has.

ghost use Rattle.std.specs.Prelude.{◌≡◌, ◌≢◌, ◌≤◌, length, take, IfErr, IfOk, IfSome, OnOk};
ghost use Rattle.std.specs.IoError.{error_kind};
ghost use Rattle.std.specs.Io.{ReadsAtMost, WritesAtMost};
ghost use Rattle.std.specs.Io.KnownBytes.{Appends, Keeps, ReadConsumes, WriteAppends};
ghost use Rattle.cm_io.specs.Count.{Rose};
ghost use Rattle.cm_io.specs.Sink.{OnPut, OnPutFailed, OnPutNoMemory};
ghost use Rattle.real_files.specs.Outside.{AppendsFront};

#[cfg(test)]
mod tests;

use crate::whole_file::write_whole;
use cm_base::Items;
use cm_io::{Folder, Put, Read, Sink, Wrote};
use std::alloc::{AllocError, Global};
use std::fs;
use std::io::{self, ErrorKind, Read as _, Write};
use std::rt::Files;

/// How many bytes are read at once.
const CHUNK: usize = 8192;

/// How many times a call that a signal interrupts is made.
const TRIES: u64 = u64::MAX;

/// The files of the folder that the program runs in.
#[derive(Drop)]
pub struct Disk<'a, R: Files> {
    files: &'a R,
    faults: u64,
    absences: u64,
}

impl<'a, R: Files> Disk<'a, R> {
    /// No call has failed yet.
    pub fn new(files: &'a R) -> Disk<'a, R>
        ensures faults { result.faults ≡ 0 }
        ensures absences { result.absences ≡ 0 }
    {
        Disk {
            files,
            faults: 0,
            absences: 0,
        }
    }
}

impl<'a, R: Files> Folder for Disk<'a, R> {
    ghost use Rattle.std.specs.Prelude.{None};

    ghost seen = { λ disk. record { holds = None; faults = disk.faults; absences = disk.absences } };

    fn read(&mut self, alloc: Global, name: &str, most: u64) -> Read {
        match read_most(self.files, alloc, name, most) {
            Ok(bytes) => Read::Bytes(Items::from_vec(bytes)),
            Err(error) => match error.kind() {
                ErrorKind::NotFound => {
                    self.absences = self.absences.saturating_add(1);
                    Read::Absent
                }
                ErrorKind::OutOfMemory => Read::NoMemory,
                _ => {
                    self.faults = self.faults.saturating_add(1);
                    Read::Failed
                }
            },
        }
    }

    fn write(&mut self, alloc: Global, name: &str, bytes: &[u8]) -> Wrote {
        let wrote = write_whole(self.files, alloc, name, bytes);
        if wrote == Wrote::Failed {
            self.faults = self.faults.saturating_add(1);
        }
        wrote
    }
}

/// The first bytes of a file, at most so many.
fn read_most<R: Files>(files: &R, alloc: Global, name: &str, most: u64) -> io::Result<Vec<u8>>
    ensures { IfOk result (λ bytes. length bytes.items ≤ most) }
{
    let mut file = fs::open(files, name)?;
    read_front(&mut file, alloc, most)
}

/// The first bytes that a reader gives, at most so many, or all where it has no more.
#[tactic(auto, using(crate::proofs::Adapters::consumes_none, crate::proofs::Adapters::consumes_more, crate::proofs::Adapters::front_full, crate::proofs::Adapters::front_end))]
fn read_front<R: io::Read>(from: &mut R, alloc: Global, most: u64) -> io::Result<Vec<u8>>
    ensures few { IfOk result (λ bytes. length bytes.items ≤ most) }
    ensures front { IfOk result (λ bytes. IfSome (R.remaining from.old) (λ whole. bytes.items ≡ take most whole)) }
    ensures not_interrupted { IfErr result (λ e. error_kind e ≢ ErrorKind.Interrupted) }
{
    let mut bytes = Vec::new(alloc);
    let mut chunk = [0u8; CHUNK];
    let mut left = most;
    while left > 0 {
        let want = left.min(CHUNK as u64) as usize;
        let count = read_again(from, &mut chunk[..want])?;
        if count == 0 {
            return Ok(bytes);
        }
        bytes.extend_from_slice(&chunk[..count])?;
        left -= count as u64;
    }
    Ok(bytes)
}

/// Reads once, and again where a signal interrupts the read, which has then taken nothing.
fn read_again<R: io::Read>(from: &mut R, chunk: &mut [u8]) -> io::Result<usize>
    ensures bound { ReadsAtMost result chunk.new }
    ensures bytes { ReadConsumes (R.remaining from.old) (R.remaining from.new) result chunk.new }
    ensures not_interrupted { IfErr result (λ e. error_kind e ≢ ErrorKind.Interrupted) }
{
    for _ in 0..TRIES {
        match from.read(chunk) {
            Err(error) if error.kind() == ErrorKind::Interrupted => {}
            answer => return answer,
        }
    }
    Err(io::Error::from(ErrorKind::TimedOut))
}

/// Writes the bytes, piece by piece. A write that takes nothing is an error. After an error some of the first
/// bytes are written.
#[tactic(auto, using(crate::proofs::Adapters::wrote_none, crate::proofs::Adapters::wrote_more, crate::proofs::Adapters::wrote_kept, crate::proofs::Adapters::wrote_front, crate::proofs::Adapters::wrote_all))]
pub fn write_each<W: Write>(to: &mut W, bytes: &[u8]) -> io::Result<()>
    ensures whole { OnOk result (Appends (W.contents to.old) (W.contents to.new) bytes.now) }
    ensures part { AppendsFront (W.contents to.old) (W.contents to.new) bytes.now }
    ensures not_interrupted { IfErr result (λ e. error_kind e ≢ ErrorKind.Interrupted) }
{
    let mut rest = bytes;
    while !rest.is_empty() {
        let count = write_again(to, rest)?;
        if count == 0 {
            return Err(io::Error::from(ErrorKind::WriteZero));
        }
        rest = &rest[count..];
    }
    Ok(())
}

/// Writes once, and again where a signal interrupts the write, which has then taken nothing.
fn write_again<W: Write>(to: &mut W, piece: &[u8]) -> io::Result<usize>
    ensures bound { WritesAtMost result piece.now }
    ensures bytes { WriteAppends (W.contents to.old) (W.contents to.new) result piece.now }
    ensures not_interrupted { IfErr result (λ e. error_kind e ≢ ErrorKind.Interrupted) }
{
    for _ in 0..TRIES {
        match to.write(piece) {
            Err(error) if error.kind() == ErrorKind::Interrupted => {}
            answer => return answer,
        }
    }
    Err(io::Error::from(ErrorKind::TimedOut))
}

/// Flushes, and again where a signal interrupts it.
fn flush_again<W: Write>(to: &mut W) -> io::Result<()>
    ensures bytes { Keeps (W.contents to.old) (W.contents to.new) }
    ensures not_interrupted { IfErr result (λ e. error_kind e ≢ ErrorKind.Interrupted) }
{
    for _ in 0..TRIES {
        match to.flush() {
            Err(error) if error.kind() == ErrorKind::Interrupted => {}
            answer => return answer,
        }
    }
    Err(io::Error::from(ErrorKind::TimedOut))
}

/// A stream of output, which is flushed with each piece.
#[derive(Drop)]
pub struct Stream<W: Write + Drop> {
    to: W,
    faults: u64,
}

impl<W: Write + Drop> Stream<W> {
    /// No call has failed yet.
    pub fn new(to: W) -> Stream<W>
        ensures { result.faults ≡ 0 }
    {
        Stream { to, faults: 0 }
    }
}

impl<W: Write + Drop> Sink for Stream<W> {
    ghost use Rattle.std.specs.Prelude.{None};

    ghost written = { λ stream. None };

    ghost faults = { λ stream. stream.faults };

    ghost refusals = { λ stream. 0 };

    fn put(&mut self, piece: &[u8]) -> Put
        ensures faults_stay { self.old.faults ≤ self.new.faults }
        ensures failed_counted { OnPutFailed result (Rose self.old.faults self.new.faults) }
        ensures memory { OnPutNoMemory result ⊥ }
        // what the stream's writer holds, where that is known
        ensures reaches { OnPut result (Appends (W.contents self.old.to) (W.contents self.new.to) piece.now) }
        ensures part { AppendsFront (W.contents self.old.to) (W.contents self.new.to) piece.now }
    {
        match put_flushed(&mut self.to, piece) {
            Ok(()) => Put::Ok,
            Err(_) => {
                self.faults = self.faults.saturating_add(1);
                Put::Failed
            }
        }
    }
}

/// Writes the piece and flushes it.
#[tactic(auto, using(crate::proofs::Adapters::appends_kept, crate::proofs::Adapters::front_kept))]
fn put_flushed<W: Write>(to: &mut W, piece: &[u8]) -> io::Result<()>
    ensures whole { OnOk result (Appends (W.contents to.old) (W.contents to.new) piece.now) }
    ensures part { AppendsFront (W.contents to.old) (W.contents to.new) piece.now }
    ensures not_interrupted { IfErr result (λ e. error_kind e ≢ ErrorKind.Interrupted) }
{
    write_each(to, piece)?;
    flush_again(to)
}
