//! A disk of the system's files.

ghost use Rattle.std.specs.Prelude.{◌≡◌, IfOk, Ok};
ghost use Rattle.repo_disk.specs.Disks.{HasCause};

use crate::folders::{Folder, sync_at};
use crate::holding::HoldFile;
use crate::identities::{Links, look};
use crate::listings::list;
use crate::rooms::{Rooms, path_in};
use crate::system::{
    if_there, make_folder, names_in, read_file, read_part, remove_file, rename, write_file,
};
use repo_disk::{Disk, DiskError, Part, Room};
use repo_folder::is_draft;
use repo_name::{Bytes, Text};
use std::alloc::{AllocError, AllocGlobal, Global};
use std::fs::{Files, OpenFile};
use std::io;
use std::io::ErrorKind;

/// A store's folder as a disk: each call is one or two calls of the system. It holds the folder until it is dropped: no
/// other program writes there meanwhile.
///
/// It is never claimed to be faithful: that a file system does what the calls of a disk say is a premise about the
/// machine. So what is proved over faithful disks rests on that, and on these lines.
#[derive(Drop)]
pub struct FileDisk<R: Files> {
    rt: R,
    rooms: Rooms,
    /// The file by which the folder is held.
    held: R::File,
    /// The file that was written last, until it is synced.
    draft: Option<Draft<R::File>>,
    failures: u64,
}

/// A file that is being written, by its name.
#[derive(Drop)]
struct Draft<F> {
    name: String,
    file: F,
}

impl<R: Files + AllocGlobal + Clone + Drop> FileDisk<R> {
    /// The disk of a folder, which it holds. Where another program holds it, the error is of the kind `WouldBlock`. It
    /// counts no failure yet.
    pub(crate) fn hold(folder: Folder<R>) -> io::Result<FileDisk<R>>
    where
        R::File: HoldFile,
        ensures { IfOk result (λ disk. disk.failures ≡ 0) }
    {
        let rooms = Rooms::of(folder.rt.alloc(), folder.root.as_str())?;
        let held = folder.hold()?;
        Ok(FileDisk {
            rt: folder.rt,
            rooms,
            held,
            draft: None,
            failures: 0,
        })
    }

    /// Removes what writes that were cut off left among the files that are being written, as far as that can be done:
    /// files of the names that a shelf gives while it writes, and no others.
    pub fn clean(&self) {
        let Ok(listing) = list(&self.rt, self.rooms.path(Room::Temporary)) else {
            return;
        };
        for name in &listing.names {
            if is_draft(name.as_str()) {
                self.remove_draft(name.as_str());
            }
        }
    }

    /// Removes a file that is being written, as far as that can be done.
    fn remove_draft(&self, name: &str) {
        if let Ok(path) = self.path(Room::Temporary, name) {
            let _ = remove_file(&self.rt, path.as_str());
        }
    }

    /// The path of a file.
    fn path(&self, room: Room, name: &str) -> Result<String, AllocError> {
        path_in(self.rt.alloc(), self.rooms.path(room), name)
    }

    /// Tells what came of a call that changes no name: want of memory as such, and any other error as a failure.
    fn told<T>(&mut self, outcome: io::Result<T>) -> Result<T, DiskError>
        ensures value { IfOk result (λ value. outcome ≡ Ok value) }
        ensures cause { HasCause self.old.failures result self.new.failures }
    {
        match outcome {
            Err(error) if error.kind() == ErrorKind::OutOfMemory => Err(DiskError::Memory),
            other => self.made(other),
        }
    }

    /// Tells what came of a change, or of a sync: any error is a failure, since it may have been made.
    fn made<T>(&mut self, outcome: io::Result<T>) -> Result<T, DiskError>
        ensures value { IfOk result (λ value. outcome ≡ Ok value) }
        ensures cause { HasCause self.old.failures result self.new.failures }
    {
        match outcome {
            Ok(value) => Ok(value),
            Err(_) => {
                self.failures = self.failures.saturating_add(1);
                Err(DiskError::Failed)
            }
        }
    }
}

impl<R: Files + AllocGlobal + Clone + Drop> Disk for FileDisk<R> {
    ghost use Rattle.repo_files.specs.inner.Unknown.{unknown};

    ghost state = { λ _. unknown };

    ghost failed = { λ d. d.failures };

    ghost faithful = { λ _. ⊥ };

    fn read(&mut self, room: Room, name: &str) -> Result<Option<Bytes>, DiskError> {
        let path = self.path(room, name)?;
        let read = read_file(&self.rt, path.as_str());
        self.told(read)
    }

    fn has(&mut self, room: Room, name: &str) -> Result<bool, DiskError> {
        let path = self.path(room, name)?;
        let found = if_there(look(&self.rt, path.as_str(), Links::Followed));
        Ok(self.told(found)?.is_some())
    }

    fn read_part(
        &mut self,
        room: Room,
        name: &str,
        offset: u32,
        length: u32,
    ) -> Result<Part, DiskError> {
        let path = self.path(room, name)?;
        let read = read_part(&self.rt, path.as_str(), offset, length);
        self.told(read)
    }

    fn names(&mut self, room: Room) -> Result<Vec<Text>, DiskError> {
        let names = names_in(&self.rt, self.rooms.path(room));
        self.told(names)
    }

    fn draft(&mut self, name: &str, bytes: &[u8]) -> Result<(), DiskError> {
        let path = self.path(Room::Temporary, name)?;
        let name = String::from_str(self.rt.alloc(), name)?;
        let written = write_file(&self.rt, path.as_str(), bytes);
        let file = self.told(written)?;
        self.draft = Some(Draft { name, file });
        Ok(())
    }

    // The file is the one that was opened to write it, so a failure to write what it has is told here.
    fn sync_draft(&mut self, name: &str) -> Result<(), DiskError> {
        let synced = match self.draft.take() {
            Some(draft) if draft.name.as_str() == name => draft.file.sync_all(),
            _ => Err(io::Error::from(ErrorKind::NotFound)),
        };
        self.told(synced)
    }

    fn discard(&mut self, name: &str) {
        self.remove_draft(name);
    }

    fn place(&mut self, draft: &str, room: Room, name: &str) -> Result<(), DiskError> {
        let from = self.path(Room::Temporary, draft)?;
        let to = self.path(room, name)?;
        let renamed = rename(&self.rt, from.as_str(), to.as_str());
        self.made(renamed)
    }

    fn unlink(&mut self, room: Room, name: &str) -> Result<bool, DiskError> {
        let path = self.path(room, name)?;
        let removed = if_there(remove_file(&self.rt, path.as_str()));
        Ok(self.made(removed)?.is_some())
    }

    fn make(&mut self, room: Room) -> Result<(), DiskError> {
        let made = make_folder(&self.rt, self.rooms.path(room));
        self.told(made)
    }

    // A folder that isn't there has nothing to last; that it isn't lasts once the one above it is synced.
    fn sync(&mut self, room: Room) -> Result<(), DiskError> {
        let synced = if_there(sync_at(&self.rt, self.rooms.path(room)));
        self.made(synced)?;
        Ok(())
    }

    fn failures(&self) -> u64 {
        self.failures
    }
}
