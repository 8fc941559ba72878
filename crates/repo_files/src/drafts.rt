//! Files that are written under another name until they are whole.

use crate::identities::{Links, look};
use crate::system::{remove_file, rename};
use std::alloc::{AllocError, Global};
use std::fs::{File, Files};
use std::io;
use std::io::{ErrorKind, Write};

/// A file that is being written.
#[derive(Drop)]
pub struct Draft<F> {
    pub file: F,
    /// Where it is written.
    pub temporary: String,
    /// Where it is to stand.
    pub place: String,
    /// How many bytes were written to it.
    pub length: u64,
}

/// A file that has its name.
#[derive(Drop)]
pub struct Placed {
    pub place: String,
    /// How many bytes were written to it.
    pub length: u64,
}

/// A file that has its name, and is held open by the handle that wrote it, until that is synced.
#[derive(Drop)]
pub struct Written<F> {
    pub handle: F,
    pub placed: Placed,
}

/// Adds bytes to the file. On an error it is removed.
pub fn fill<R: Files>(
    rt: &R,
    mut draft: Draft<R::File>,
    bytes: &[u8],
) -> io::Result<Draft<R::File>> {
    match draft.file.write_all(bytes) {
        Ok(()) => {
            draft.length = draft.length.saturating_add(bytes.len() as u64);
            Ok(draft)
        }
        Err(error) => {
            remove(rt, draft);
            Err(error)
        }
    }
}

/// Lets the file stand in its place. It stays open, by the handle that wrote it. On an error it is removed.
pub fn settle<R: Files>(rt: &R, draft: Draft<R::File>) -> io::Result<Written<R::File>> {
    begin_writing_out(rt, &draft);
    match give_name(rt, &draft) {
        Ok(()) => Ok(Written {
            handle: draft.file,
            placed: Placed {
                place: draft.place,
                length: draft.length,
            },
        }),
        Err(error) => {
            remove(rt, draft);
            Err(error)
        }
    }
}

/// Has the system begin to write the file's bytes to the disk, as far as it does. Nothing waits for that, and no error is seen.
///
/// ext4, XFS and Btrfs begin when any handle of a file is closed that was cut to no bytes. So another one is opened and closed. A sync
/// of many files then finds most of the work done.
fn begin_writing_out<R: Files>(rt: &R, draft: &Draft<R::File>) {
    if draft.length > 0 {
        let _ = File::open(rt, draft.temporary.as_str());
    }
}

/// Gives the file its name, which nothing has.
fn give_name<R: Files>(rt: &R, draft: &Draft<R::File>) -> io::Result<()> {
    match look(rt, draft.place.as_str(), Links::NotFollowed) {
        Ok(_) => Err(io::Error::from(ErrorKind::AlreadyExists)),
        Err(error) if error.kind() == ErrorKind::NotFound => {
            rename(rt, draft.temporary.as_str(), draft.place.as_str())
        }
        Err(error) => Err(error),
    }
}

/// Removes the file, as far as that can be done.
pub fn remove<R: Files>(rt: &R, draft: Draft<R::File>) {
    let _ = remove_file(rt, draft.temporary.as_str());
}

/// Closes these files.
pub fn close<F: Drop>(alloc: Global, files: Vec<Written<F>>) -> Result<Vec<Placed>, AllocError> {
    let mut closed = Vec::new(alloc);
    for file in files {
        closed.push(file.placed)?;
    }
    Ok(closed)
}

impl Placed {
    /// Checks that the file has the length that was written to it.
    pub fn check_length<R: Files>(&self, rt: &R) -> io::Result<()> {
        let found = look(rt, self.place.as_str(), Links::NotFollowed)?;
        if found.len() != self.length {
            return Err(io::Error::from(ErrorKind::Other));
        }
        Ok(())
    }
}
