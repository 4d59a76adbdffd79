//! Makes bytes the whole of a real file. Where a regular file or none has that name, the bytes are written to
//! a new file beside it, which then takes the name, so that what the name held is lost only once the new bytes
//! are whole. Anything else, as a device, a pipe or a symbolic link, is written in place. What a real file
//! holds is outside every proof: docs/COMMANDS.md, "What is written", says what happens, and checks/ try it.

use crate::outside::write_each;
use cm_io::Wrote;
use std::alloc::Global;
use std::fs::{self, OpenFile, OpenOptions, Permissions};
use std::io::{self, ErrorKind, Write};
use std::path::{Path, PathBuf};
use std::rt::Files;

/// How many names are tried for the file beside, of which others may exist.
const TRIED_NAMES: u32 = 1000;

/// Makes the bytes the whole file of that name. With `NoMemory` the file is as before.
pub fn write_whole<R: Files>(files: &R, alloc: Global, name: &str, bytes: &[u8]) -> Wrote {
    let permissions = match fs::symlink_metadata(files, name) {
        Ok(metadata) if metadata.is_file() => Some(metadata.permissions()),
        Ok(_) => {
            return match write_in_place(files, name, bytes) {
                Ok(()) => Wrote::Ok,
                Err(_) => Wrote::Failed,
            };
        }
        Err(error) if error.kind() == ErrorKind::NotFound => None,
        Err(_) => return Wrote::Failed,
    };
    match replace(files, alloc, name, bytes, permissions) {
        Ok(()) => Wrote::Ok,
        Err(error) if error.kind() == ErrorKind::OutOfMemory => Wrote::NoMemory,
        Err(_) => Wrote::Failed,
    }
}

fn write_in_place<R: Files>(files: &R, name: &str, bytes: &[u8]) -> io::Result<()> {
    let mut file = fs::create(files, name)?;
    write_each(&mut file, bytes)?;
    match file.sync_all() {
        // a pipe or a terminal can't be synced
        Err(error) if error.kind() == ErrorKind::InvalidInput => Ok(()),
        synced => synced,
    }
}

/// Writes a new file beside the name and gives it the name. With an error the name holds what it held, and the
/// new file is removed. The permissions are those of the regular file that has the name.
fn replace<R: Files>(
    files: &R,
    alloc: Global,
    name: &str,
    bytes: &[u8],
    permissions: Option<Permissions>,
) -> io::Result<()> {
    if permissions.is_some() {
        // a file that may not be written is not replaced either
        OpenOptions::new().write(true).open(files, name)?;
    }
    let (beside, file) = create_beside(files, alloc, name)?;
    let done = match fill(file, bytes, permissions) {
        Ok(()) => fs::rename(files, beside.as_str(), name),
        Err(error) => Err(error),
    };
    if done.is_err() {
        let _ = fs::remove_file(files, beside.as_str());
    }
    done
}

/// A new file in the folder of that name, and its name.
fn create_beside<R: Files>(files: &R, alloc: Global, name: &str) -> io::Result<(PathBuf, R::File)> {
    for number in 0..TRIED_NAMES {
        let last = format!(in alloc; ".hezgrolk-{number}")?;
        let beside = Path::new(name).with_file_name(alloc, last.as_str())?;
        match OpenOptions::new()
            .write(true)
            .create_new(true)
            .open(files, beside.as_str())
        {
            Ok(file) => return Ok((beside, file)),
            Err(error) if error.kind() == ErrorKind::AlreadyExists => {}
            Err(error) => return Err(error),
        }
    }
    Err(io::Error::from(ErrorKind::AlreadyExists))
}

/// Writes and closes a new file, whose permissions are set before it holds anything. The system has taken all
/// of it once it is synced, so closing it can't fail any more.
fn fill<F: Write + OpenFile + Drop>(
    mut file: F,
    bytes: &[u8],
    permissions: Option<Permissions>,
) -> io::Result<()> {
    if let Some(permissions) = permissions {
        file.set_permissions(permissions)?;
    }
    write_each(&mut file, bytes)?;
    file.sync_all()
}
