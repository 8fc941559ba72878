//! Calls of the system on the files and folders of a store, by their paths.

ghost use Rattle.std.specs.Prelude.{IfOk};
ghost use Rattle.repo_disk.specs.Disks.{HasLength};

use crate::folders::{is_folder, make_private};
use crate::interruptions::retry_interrupted;
use crate::listings::entries_at_rest;
use repo_disk::Part;
use repo_name::{Bytes, Text};
use std::alloc::AllocGlobal;
use std::fs::{File, Files, OpenFile, OpenOptions};
use std::io::{ErrorKind, Read, Seek, SeekFrom, Write};
use std::os::unix::fs::OpenOptionsExt;
use std::{fs, io};

/// The mode of a file that its owner alone may read and write, whatever the process's mask is.
pub const PRIVATE_FILE: u32 = 0o600;

/// What came of a call on a path; `None` where nothing has it.
pub fn if_there<T>(outcome: io::Result<T>) -> io::Result<Option<T>> {
    match outcome {
        Ok(value) => Ok(Some(value)),
        Err(error) if error.kind() == ErrorKind::NotFound => Ok(None),
        Err(error) => Err(error),
    }
}

/// A file's bytes; `None` where nothing has the path.
pub fn read_file<R: Files + AllocGlobal>(rt: &R, path: &str) -> io::Result<Option<Bytes>> {
    match if_there(fs::read(rt, path))? {
        Some(bytes) => Ok(Some(Bytes::of(bytes))),
        None => Ok(None),
    }
}

/// So many bytes of a file at an offset.
pub fn read_part<R: Files + AllocGlobal>(
    rt: &R,
    path: &str,
    offset: u32,
    length: u32,
) -> io::Result<Part>
    ensures { IfOk result (HasLength length) }
{
    let Some(mut file) = if_there(File::open(rt, path))? else {
        return Ok(Part::Missing);
    };
    let size = retry_interrupted(|| file.metadata())?.len();
    if size < offset as u64 + length as u64 {
        return Ok(Part::Outside);
    }
    file.seek(SeekFrom::Start(offset as u64))?;
    let mut bytes = vec![in rt.alloc(); 0u8; length as usize]?;
    file.read_exact(bytes.as_mut_slice())?;
    Ok(Part::Found(Bytes::of(bytes)))
}

/// The names in a folder that are texts: no other one is a store's. A listing that the system cut off is an error, unless two
/// listings in a row were cut off at the same place.
pub fn names_in<R: Files + AllocGlobal + Clone + Drop>(
    rt: &R,
    path: &str,
) -> io::Result<Vec<Text>> {
    let mut names = Vec::new(rt.alloc());
    for name in entries_at_rest(rt, path)?.names {
        names.push(Text::of(name))?;
    }
    Ok(names)
}

/// Makes a file that its owner alone may read, or empties the one that is there, and writes all of these bytes.
pub fn write_file<R: Files>(rt: &R, path: &str, bytes: &[u8]) -> io::Result<R::File> {
    let mut file = OpenOptions::new()
        .write(true)
        .create(true)
        .truncate(true)
        .mode(PRIVATE_FILE)
        .open(rt, path)?;
    file.write_all(bytes)?;
    Ok(file)
}

/// Removes a file.
pub fn remove_file<R: Files>(rt: &R, path: &str) -> io::Result<()> {
    retry_interrupted(|| fs::remove_file(rt, path))
}

/// Gives a file another path. A file that has it is replaced.
pub fn rename<R: Files>(rt: &R, from: &str, to: &str) -> io::Result<()> {
    retry_interrupted(|| fs::rename(rt, from, to))
}

/// Makes a folder that its owner alone may look into, where it isn't there.
pub fn make_folder<R: Files>(rt: &R, path: &str) -> io::Result<()> {
    match make_private(rt, path) {
        Err(error) if !is_folder(rt, path) => Err(error),
        _ => Ok(()),
    }
}
