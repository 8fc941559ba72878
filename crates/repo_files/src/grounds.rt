//! The folder that is restored into.

ghost use Rattle.std.specs.Prelude.{◌≡◌, IfOk, OnOk, string_bytes};
ghost use Rattle.repo_files.specs.inner.Places.{place_of};
ghost use Rattle.repo_tree.specs.Paths.{IsPath};

use crate::drafts::{Draft, Placed, Written, close};
use crate::folders::{Folder, FolderSync, make_private, sync_folder};
use crate::identities::{Links, look};
use crate::listings::entries_at_rest;
use crate::places::{place_below, place_in, without_slash};
use crate::safe_targets::is_safe_target;
use crate::system::{PRIVATE_FILE, if_there};
use repo_tree::{Path, is_path};
use std::alloc::{AllocError, AllocGlobal};
use std::fs::{Files, OpenFile, OpenOptions};
use std::io::ErrorKind;
use std::os::unix::fs::OpenOptionsExt;
use std::{io, mem};

/// What a temporary name begins with; a number follows.
const TEMPORARY: &str = "!restoring-";

/// The directory that a new ext4 file system has.
const LOST_AND_FOUND: &str = "lost+found";

/// So many files are held open at most until they are synced, and so many bytes are written to these.
const MOST_FILES: usize = 100;

const MOST_BYTES: u64 = 64 << 20;

/// Whether the folder of this path is empty, has a directory `lost+found` alone, or isn't there.
fn is_empty<R: Files + AllocGlobal + Clone + Drop>(rt: &R, path: &str) -> io::Result<bool> {
    if if_there(look(rt, path, Links::Followed))?.is_none() {
        return Ok(true);
    }
    let found = entries_at_rest(rt, path)?;
    match found.names.as_slice() {
        _ if found.unnamed > 0 => Ok(false),
        [] => Ok(true),
        [name] if name.as_str() == LOST_AND_FOUND => {
            let place = place_in(rt.alloc(), without_slash(path), name.as_str())?;
            is_directory(rt, place.as_str())
        }
        _ => Ok(false),
    }
}

/// Whether a path leads to a directory, and to no link.
fn is_directory<R: Files>(rt: &R, path: &str) -> io::Result<bool> {
    Ok(look(rt, path, Links::NotFollowed)?.is_dir())
}

/// Checks that each of these files, which were closed, has the length that was written to it.
fn check_lengths<R: Files>(rt: &R, files: &[Placed]) -> io::Result<()> {
    for file in files {
        file.check_length(rt)?;
    }
    Ok(())
}

/// The folder that is restored into.
#[derive(Drop)]
pub struct Ground<R: Files> {
    pub rt: R,
    /// Its path, as it was told.
    told: String,
    /// The same without the `/` at its end.
    folder: String,
    /// The number of the next temporary name.
    number: u64,
    /// The places of all directories that were made, which are synced at the end: the folder's own, and those in it.
    directories: Vec<String>,
    /// The files that were written and aren't synced yet.
    files: Vec<Written<R::File>>,
    /// How many bytes were written to these.
    bytes: u64,
}

impl<R: Files + AllocGlobal + Clone + Drop> Ground<R> {
    /// The folder of this path, if it is empty, has a directory `lost+found` alone, or isn't there; else `None`. Nothing is made.
    pub fn of(rt: R, told: &str) -> io::Result<Option<Ground<R>>> {
        if !is_empty(&rt, told)? {
            return Ok(None);
        }
        let alloc = rt.alloc();
        let folder = String::from_str(alloc, without_slash(told))?;
        let told = String::from_str(alloc, told)?;
        Ok(Some(Ground {
            rt,
            told,
            folder,
            number: 0,
            directories: Vec::new(alloc),
            files: Vec::new(alloc),
            bytes: 0,
        }))
    }

    /// Makes the folder if it isn't there, with all above it, so that it lasts. The folder is its owner's alone. If it isn't safe then
    /// ([`is_safe_target`]), that is an error: somebody else made it meanwhile.
    pub fn open(&mut self) -> io::Result<()> {
        let folder = Folder::of(self.rt.clone()?, self.told.as_str())?;
        folder.make_whole(FolderSync::IfPossible)?;
        if !is_safe_target(&self.rt, folder.root.as_str())? {
            return Err(io::Error::from(ErrorKind::PermissionDenied));
        }
        self.directories.push(folder.root)?;
        Ok(())
    }

    /// The place of an entry. The error tells, but for memory, that its path isn't one: it is empty, or
    /// names `.`, `..` or something with a `/`.
    fn place(&self, path: &Path) -> io::Result<String>
        ensures path { OnOk result (IsPath path.now) }
        ensures place { IfOk result (λ place. string_bytes place ≡ place_of (string_bytes self.now.folder) path.now) }
    {
        let path = path.as_slice();
        if !is_path(path) {
            return Err(io::Error::from(ErrorKind::InvalidInput));
        }
        Ok(place_below(self.rt.alloc(), self.folder.as_str(), path)?)
    }

    /// Makes a directory, which isn't there yet, and is its owner's alone. A directory `lost+found` may be in the folder already.
    pub fn make(&mut self, path: &Path) -> io::Result<()>
        ensures { OnOk result (IsPath path.now) }
    {
        let place = self.place(path)?;
        match make_private(&self.rt, place.as_str()) {
            Err(error) if !self.has_lost_and_found(path, place.as_str()) => return Err(error),
            _ => {}
        }
        self.directories.push(place)?;
        Ok(())
    }

    /// Whether a path is that of a directory `lost+found` in the folder, which is there, and which no other user can change
    /// ([`is_safe_target`]).
    fn has_lost_and_found(&self, path: &Path, place: &str) -> bool {
        let is_named = match path.as_slice() {
            [name] => name.as_str() == LOST_AND_FOUND,
            _ => false,
        };
        is_named
            && is_directory(&self.rt, place).unwrap_or(false)
            && is_safe_target(&self.rt, place).unwrap_or(false)
    }

    /// Keeps a file until it is synced. Once 100 files are kept, or 64 MiB were written to them, all of these are synced.
    ///
    /// Each is synced by the handle that wrote it. A file system may report to that handle alone that it didn't keep what it took. A
    /// handle that is opened later gets no error then.
    pub fn keep(&mut self, file: Written<R::File>) -> io::Result<()> {
        self.bytes = self.bytes.saturating_add(file.placed.length);
        self.files.push(file)?;
        if self.files.len() >= MOST_FILES || self.bytes >= MOST_BYTES {
            self.sync_files()?;
        }
        Ok(())
    }

    /// Syncs the files that are kept, closes them, and checks their lengths.
    ///
    /// A file system may answer the sync that it kept all bytes, and report only at the close that it didn't. The kit drops the error of
    /// a close. The file is shorter then, or away.
    fn sync_files(&mut self) -> io::Result<()> {
        self.bytes = 0;
        let files = mem::replace(&mut self.files, Vec::new(self.rt.alloc()));
        for file in &files {
            file.handle.sync_all()?;
        }
        check_lengths(&self.rt, close(self.rt.alloc(), files)?.as_slice())
    }

    /// Syncs all that was made and isn't synced yet, so that it lasts: the files, and then the directories.
    pub fn sync(&mut self) -> io::Result<()> {
        self.sync_files()?;
        for place in &self.directories {
            sync_folder(&self.rt, place.as_str(), FolderSync::IfPossible)?;
        }
        Ok(())
    }

    /// Makes a file under this name, which nothing has. It is its owner's alone.
    fn create(&self, path: &str) -> io::Result<R::File> {
        OpenOptions::new()
            .read(true)
            .write(true)
            .create_new(true)
            .mode(PRIVATE_FILE)
            .open(&self.rt, path)
    }

    /// Makes a file as `create` does. If it can't be made while files are kept, these are synced and closed, and it is tried once more: the
    /// process may have too many open files.
    fn create_after_sync(&mut self, path: &str) -> io::Result<R::File> {
        match self.create(path) {
            Err(error) if error.kind() != ErrorKind::AlreadyExists && !self.files.is_empty() => {
                self.sync_files()?;
                self.create(path)
            }
            created => created,
        }
    }

    /// Begins a file, under the first temporary name that isn't taken.
    ///
    /// The file is cut to no bytes, though it has none. Some file systems put off choosing the blocks of a new file. They begin to
    /// write a file that was cut so once a handle of it is closed, and the sync then finds it written.
    pub fn begin(&mut self, path: &Path) -> io::Result<Draft<R::File>>
        ensures path { OnOk result (IsPath path.now) }
        ensures place { IfOk result (λ draft. string_bytes draft.place ≡ place_of (string_bytes self.old.folder) path.now) }
    {
        let place = self.place(path)?;
        for number in self.number..u64::MAX {
            self.number = number;
            let temporary = self.temporary(place.as_str())?;
            if temporary.as_str() == place.as_str() {
                continue;
            }
            match self.create_after_sync(temporary.as_str()) {
                Ok(file) => {
                    let _ = file.set_len(0);
                    return Ok(Draft {
                        file,
                        temporary,
                        place,
                        length: 0,
                    });
                }
                Err(error) if error.kind() == ErrorKind::AlreadyExists => {}
                Err(error) => return Err(error),
            }
        }
        Err(io::Error::from(ErrorKind::AlreadyExists))
    }

    /// The temporary place beside the place of a file.
    fn temporary(&self, place: &str) -> io::Result<String> {
        let directory = match place.rsplit_once('/') {
            Some((directory, _)) => directory,
            None => "",
        };
        let number = self.number;
        Ok(format!(in self.rt.alloc(); "{directory}/{TEMPORARY}{number}")?)
    }
}
