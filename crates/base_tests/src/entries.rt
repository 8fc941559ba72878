//! Entries of a backup, and their paths.

use crate::trials::Trial;
use repo_name::{Bytes, Text};
use repo_tree::{Entry, EntryKind, Path, is_below, is_path};
use std::alloc::{AllocError, Global};

/// The path of these components, a line each.
fn path(alloc: Global, text: &str) -> Result<Path, AllocError> {
    let mut path = Vec::new(alloc);
    for part in text.lines() {
        path.push(Text::of(String::from_str(alloc, part)?))?;
    }
    Ok(Path::of(path))
}

/// Whether an empty file has a copy at the same path, of two components.
fn is_copied(alloc: Global) -> Result<bool, AllocError> {
    let entry = Entry {
        path: path(alloc, "d\nx")?,
        what: EntryKind::File(Bytes::of(Vec::new(alloc))),
    };
    let copy: Result<Entry, AllocError> = entry.clone();
    let parts = copy?.path.into_components();
    Ok(match parts.as_slice() {
        [first, second] => {
            is_path(parts.as_slice()) && first.as_str() == "d" && second.as_str() == "x"
        }
        _ => false,
    })
}

/// Whether one path is below another.
fn stands_below(alloc: Global, first: &str, second: &str) -> Result<bool, AllocError> {
    let (first, second) = (path(alloc, first)?, path(alloc, second)?);
    Ok(is_below(first.as_slice(), second.as_slice()))
}

impl Trial {
    /// An entry is copied, again where there was no memory.
    pub fn entries(&mut self) {
        let mut copied = is_copied(self.alloc);
        if copied.is_err() {
            self.lack();
            copied = is_copied(self.alloc);
        }
        self.count(copied == Ok(true));
    }

    /// The first path is below the second, or isn't.
    fn goes_below(&mut self, first: &str, second: &str, wanted: bool) {
        self.count(stands_below(self.alloc, first, second) == Ok(wanted));
    }
}

// A directory is below what is in it, and that below whatever comes after the directory: `a/b` below `a!`, though not as texts.
#[test]
fn paths_go_by_their_components(rt: HostRuntime) {
    let mut trial = Trial::new(rt.alloc());
    trial.goes_below("a", "a\nb", true);
    trial.goes_below("a\nb", "a!", true);
    trial.goes_below("a!", "a\nb", false);
    trial.goes_below("a\nb", "a", false);
    trial.goes_below("a", "a", false);
    trial.goes_below("B", "a", true);
    trial.end(&rt);
}
