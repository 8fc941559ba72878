//! A folder by its path, and its making.

use crate::identities::{Links, look};
use crate::interruptions::retry_interrupted;
use std::alloc::{AllocError, AllocGlobal};
use std::fs::{DirBuilder, File, Files, OpenFile};
use std::io;
use std::io::ErrorKind;
use std::os::unix::fs::DirBuilderExt;

/// Whether it is an error that a folder can't be synced because of its file system or its mode.
#[derive(Clone, Copy, Debug, PartialEq, Eq)]
pub enum FolderSync {
    /// It is.
    Required,
    /// It isn't: the file system can't sync folders, or the folder may not be opened.
    IfPossible,
}

/// A folder, by its path.
#[derive(Debug, Drop)]
pub struct Folder<R> {
    pub rt: R,
    pub root: String,
}

impl<R: Files + AllocGlobal + Clone + Drop> Folder<R> {
    /// The folder of this path, whether it is there or not.
    pub fn of(rt: R, root: &str) -> Result<Folder<R>, AllocError> {
        let root = String::from_str(rt.alloc(), root)?;
        Ok(Folder { rt, root })
    }

    /// The path of a file or folder in it.
    pub fn path(&self, below: &str, name: &str) -> Result<String, AllocError> {
        let mut path = String::from_str(self.rt.alloc(), self.root.as_str())?;
        for part in [below, name] {
            if !part.is_empty() {
                path.push('/')?;
                path.push_str(part)?;
            }
        }
        Ok(path)
    }

    /// Makes it, so that its owner alone may look into it, and each folder above, so that its owner alone may write there. What is
    /// there stays as it is. Each folder that is made is synced into the one above it. A path may end with slashes, and with dots
    /// by themselves.
    pub fn make_whole(&self, sync: FolderSync) -> io::Result<()> {
        let root = self.root.as_str();
        for end in 1..root.len() {
            if let Some((above, rest)) = root.split_at_checked(end)
                && rest.starts_with('/')
            {
                let mode = if names_nothing(rest) { PRIVATE } else { SHARED };
                make_named(&self.rt, above, mode, sync)?;
            }
        }
        make_named(&self.rt, root, PRIVATE, sync)
    }
}

/// The mode of a folder into which its owner alone may look, and of one in which its owner alone may write. The process's mask can
/// only take rights away from these.
const PRIVATE: u32 = 0o700;

const SHARED: u32 = 0o755;

/// Whether the end of a path names nothing more: it is of slashes, and of dots by themselves.
fn names_nothing(rest: &str) -> bool {
    for part in rest.split('/') {
        if !part.is_empty() && part != "." {
            return false;
        }
    }
    true
}

/// Whether a folder of this path is there.
pub fn is_folder<R: Files>(rt: &R, path: &str) -> bool {
    match look(rt, path, Links::Followed) {
        Ok(found) => found.is_dir(),
        Err(_) => false,
    }
}

/// Syncs what is at a path: a file, so that its bytes last, or a folder, so that the names in it do.
pub fn sync_at<R: Files>(rt: &R, path: &str) -> io::Result<()> {
    File::open(rt, path)?.sync_all()
}

/// Syncs a folder, so that the names in it last, as far as that is asked for.
pub fn sync_folder<R: Files>(rt: &R, path: &str, sync: FolderSync) -> io::Result<()> {
    match sync {
        FolderSync::Required => sync_at(rt, path),
        FolderSync::IfPossible => sync_if_possible(rt, path),
    }
}

/// Syncs a folder. That it may not be opened, or that its file system can't sync folders, is no error.
fn sync_if_possible<R: Files>(rt: &R, path: &str) -> io::Result<()> {
    let folder = match File::open(rt, path) {
        Ok(folder) => folder,
        Err(error) if error.kind() == ErrorKind::PermissionDenied => return Ok(()),
        Err(error) => return Err(error),
    };
    match folder.sync_all() {
        Err(error) if says_no_sync(error.kind()) => Ok(()),
        synced => synced,
    }
}

/// Whether a sync that ends so says that the file system has no sync of folders.
fn says_no_sync(kind: ErrorKind) -> bool {
    kind == ErrorKind::InvalidInput || kind == ErrorKind::Unsupported
}

/// Makes a folder with this mode.
fn make_folder_with<R: Files>(rt: &R, path: &str, mode: u32) -> io::Result<()> {
    retry_interrupted(|| DirBuilder::new().mode(mode).create(rt, path))
}

/// Makes a folder into which its owner alone may look.
pub fn make_private<R: Files>(rt: &R, path: &str) -> io::Result<()> {
    make_folder_with(rt, path, PRIVATE)
}

/// Makes a folder with this mode, where it isn't there, and syncs the one that it stands in, so that its name lasts. Where it
/// was there already, and the one that it stands in can't be synced, that is let be.
fn make_named<R: Files>(rt: &R, path: &str, mode: u32, sync: FolderSync) -> io::Result<()> {
    match make_folder_with(rt, path, mode) {
        Ok(()) => sync_folder(rt, parent_of(path), sync),
        Err(error) if !is_folder(rt, path) => Err(error),
        Err(_) => {
            let _ = sync_at(rt, parent_of(path));
            Ok(())
        }
    }
}

/// The path of the folder in which a path stands.
pub fn parent_of(path: &str) -> &str {
    match path.trim_end_matches('/').rsplit_once('/') {
        None => ".",
        Some(("", _)) => "/",
        Some((parent, _)) => parent,
    }
}
