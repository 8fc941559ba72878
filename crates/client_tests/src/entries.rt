//! Which entries no backup is begun with, and which hosts nobody has.

use repo_backup::{Backup, BackupError};
use repo_name::{Bytes, Instance, Text};
use repo_session::{Who, WhoError};
use repo_tree::{Entry, EntryKind, Path};
use std::alloc::{AllocError, Global};

/// The path of these names.
fn path(alloc: Global, names: &[&str]) -> Result<Path, AllocError> {
    let mut texts = Vec::new(alloc);
    for name in names {
        texts.push(Text::of(String::from_str(alloc, name)?))?;
    }
    Ok(Path::of(texts))
}

/// An empty file.
fn file(alloc: Global, names: &[&str]) -> Result<Entry, AllocError> {
    Ok(Entry {
        path: path(alloc, names)?,
        what: EntryKind::File(Bytes::of(Vec::new(alloc))),
    })
}

/// Directories, each in the one before it, so many.
fn nested(alloc: Global, depth: usize) -> Result<Vec<Entry>, AllocError> {
    let (mut entries, mut names) = (Vec::new(alloc), Vec::new(alloc));
    for _ in 0..depth {
        names.push("d")?;
        entries.push(Entry {
            path: path(alloc, names.as_slice())?,
            what: EntryKind::Dir,
        })?;
    }
    Ok(entries)
}

/// Empty files of these paths.
fn files(alloc: Global, paths: &[&[&str]]) -> Result<Vec<Entry>, AllocError> {
    let mut entries = Vec::new(alloc);
    for names in paths {
        entries.push(file(alloc, names)?)?;
    }
    Ok(entries)
}

/// Why a backup of these entries isn't begun; `None` if it is.
fn refusal(alloc: Global, entries: Result<Vec<Entry>, AllocError>) -> Option<BackupError> {
    let Ok(entries) = entries else {
        return Some(BackupError::Memory);
    };
    let Ok(who) = Who::new(alloc, Instance([1; 16]), "a", 5) else {
        return Some(BackupError::Memory);
    };
    Backup::new(alloc, who, entries).err()
}

/// Why nobody has a host of so many letters.
fn host_refusal(alloc: Global, length: usize) -> Option<WhoError> {
    let mut host = String::new(alloc);
    for _ in 0..length {
        if host.push_str("h").is_err() {
            return Some(WhoError::Memory);
        }
    }
    Who::new(alloc, Instance([1; 16]), host.as_str(), 5).err()
}

#[test]
fn entries_are_refused_for_their_first_reason(rt: HostRuntime) {
    let alloc = rt.alloc();
    let came = [
        refusal(alloc, files(alloc, &[&["b"], &["a"]])),
        refusal(alloc, files(alloc, &[&["d", "x"]])),
        refusal(alloc, files(alloc, &[&[".."]])),
        refusal(alloc, nested(alloc, 101)),
        refusal(alloc, nested(alloc, 100)),
        refusal(alloc, files(alloc, &[&["a"], &["b"]])),
    ];
    let wanted = [
        Some(BackupError::Order),
        Some(BackupError::Order),
        Some(BackupError::BadPath),
        Some(BackupError::TooDeep),
        None,
        None,
    ];
    assert!(rt; came == wanted);
}

#[test]
fn hosts_have_1_to_255_bytes(rt: HostRuntime) {
    let alloc = rt.alloc();
    let came = [
        host_refusal(alloc, 0),
        host_refusal(alloc, 1),
        host_refusal(alloc, 255),
        host_refusal(alloc, 256),
    ];
    assert!(rt; came == [Some(WhoError::Host), None, None, Some(WhoError::Host)]);
}
