//! Which file or folder a path leads to.

use crate::interruptions::retry_interrupted;
use std::alloc::AllocGlobal;
use std::fs::{Files, Metadata};
use std::io::ErrorKind;
use std::os::unix::fs::MetadataExt;
use std::{fs, io};

/// A file or folder: the number of its device, and its own number there.
#[derive(Clone, Copy, Debug, PartialEq, Eq)]
pub struct Identity {
    device: u64,
    inode: u64,
}

impl Identity {
    /// The identity of what was looked at.
    pub fn of(found: &Metadata) -> Identity {
        Identity {
            device: found.dev(),
            inode: found.ino(),
        }
    }
}

/// Whether a path that leads to a link leads to what the link names.
#[derive(Clone, Copy, Debug, PartialEq, Eq)]
pub enum Links {
    Followed,
    NotFollowed,
}

/// Looks at what a path leads to.
pub fn look<R: Files>(rt: &R, path: &str, links: Links) -> io::Result<Metadata> {
    match links {
        Links::Followed => retry_interrupted(|| fs::metadata(rt, path)),
        Links::NotFollowed => retry_interrupted(|| fs::symlink_metadata(rt, path)),
    }
}

/// Checks that a path still leads to this folder, and that the folder wasn't removed. Else the error is of the kind `NotFound`.
///
/// The path `.` leads to a folder that was removed, too, so its links are counted. Some file systems count no links of any
/// folder: there the folder has to have a path from the root.
pub fn check_stays<R: Files + AllocGlobal>(
    rt: &R,
    path: &str,
    links: Links,
    folder: Identity,
) -> io::Result<()> {
    let found = look(rt, path, links)?;
    if Identity::of(&found) != folder {
        return Err(io::Error::from(ErrorKind::NotFound));
    }
    if found.nlink() == 0 {
        retry_interrupted(|| fs::canonicalize(rt, path))?;
    }
    Ok(())
}
