//! The store in a folder is made, or opened.

ghost use Rattle.std.specs.Prelude.{◌≡◌, IfOk, Ok};
ghost use Rattle.repo_folder.specs.declared.folders.Standing.{Standing};

use crate::file_disk::FileDisk;
use crate::folders::{Folder, FolderSync};
use crate::holding::HoldFile;
use repo_folder::{DirShelf, Unopened};
use repo_store::ShelfError;
use std::alloc::AllocGlobal;
use std::fs::Files;
use std::io;
use std::io::ErrorKind;

/// Whether a folder has a config, whatever it holds.
pub fn has_config<R: Files + AllocGlobal + Clone + Drop>(rt: &R, root: &str) -> io::Result<bool> {
    Folder::of(rt.clone()?, root)?.has_config()
}

/// The shelf in the folder of this path, which is made where it isn't there, with all that it
/// holds: its folders and, where none is there, a fresh ledger. What is made is its owner's alone, whatever the process's mask
/// is: no other user may read a file of the store, or hold its lock. The mode of what is there stays. All of it is on the
/// disk then, its name in the folder above too, which is shown by tests and no clause. Where it was cut off before, it is made
/// whole. What else is in the folder stays as it is. The shelf holds the folder until it is dropped: no other one is opened
/// there meanwhile.
///
/// Nothing is made where there is a config, or something of somebody else's at a name that is a store's
/// own: then the error is of the kind `AlreadyExists`. Where another shelf holds the folder, it is of the
/// kind `WouldBlock`; where there is no memory, of the kind `OutOfMemory`.
pub fn create_store<R: Files + AllocGlobal + Clone + Drop>(
    rt: R,
    root: &str,
) -> io::Result<DirShelf<FileDisk<R>>>
where
    R::File: HoldFile,
{
    let folder = Folder::of(rt.clone()?, root)?;
    if folder.has_config()? || !folder.is_free()? {
        return Err(io::Error::from(ErrorKind::AlreadyExists));
    }
    folder.make_whole(FolderSync::Required)?;
    let disk = FileDisk::hold(folder)?;
    or_error(DirShelf::create(disk, rt.alloc()))
}

/// The shelf in the folder of this path, which has to be a store. A store has a file `config` that reads as a config, of this version
/// of the program or of a newer one. Or it has a ledger, and no file `config`. Otherwise
/// the error is of the kind `NotFound`, and nothing is made; where another shelf holds the folder, of the kind `WouldBlock`; where there
/// is no memory, of the kind `OutOfMemory`. The shelf holds the folder until it is dropped.
///
/// Nothing but the file by which it is held is made, and nothing is removed: where there is no ledger, each
/// call that reads it fails. All that is there lasts then: where a folder of the store can't be synced, that is an
/// error.
pub fn open_store<R: Files + AllocGlobal + Clone + Drop>(
    rt: R,
    root: &str,
) -> io::Result<DirShelf<FileDisk<R>>>
where
    R::File: HoldFile,
    ensures { IfOk result (λ shelf. shelf.folder.standing ≡ Standing.Settled) }
{
    let folder = Folder::of(rt.clone()?, root)?;
    if !folder.is_store()? {
        return Err(io::Error::from(ErrorKind::NotFound));
    }
    let disk = FileDisk::hold(folder)?;
    or_error(DirShelf::open(disk, rt.alloc()))
}

/// The shelf, or why it wasn't opened, as the system tells it: want of memory as such. The disk is let go then.
fn or_error<D: Drop>(outcome: Result<DirShelf<D>, Unopened<D>>) -> io::Result<DirShelf<D>>
    ensures { IfOk result (λ shelf. outcome ≡ Ok shelf) }
{
    match outcome {
        Ok(shelf) => Ok(shelf),
        Err(unopened) => match unopened.error {
            ShelfError::Memory => Err(io::Error::from(ErrorKind::OutOfMemory)),
            ShelfError::Fault => Err(io::Error::from(ErrorKind::Other)),
        },
    }
}
