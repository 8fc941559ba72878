//! A folder of a test's own, and what is tried in it.

use crate::cutting::Cut;
use crate::fuses::{Fuse, Trick};
use std::alloc::{AllocError, Global};
use std::process::Abort;
use std::{env, fs, io};

/// A folder of a test's own, and the number of the first step in it that wasn't as wanted: 0 where all were.
#[derive(Drop)]
pub struct Yard {
    pub rt: HostRuntime,
    /// The folder's path.
    root: String,
    tried: u64,
    first: u64,
}

/// A text, or the empty one where there was no memory for it: no file has that path, and no step wants it.
pub(crate) fn text_or_none(alloc: Global, text: Result<String, AllocError>) -> String {
    match text {
        Ok(text) => text,
        Err(_) => String::new(alloc),
    }
}

impl Yard {
    /// A folder of this test's own, which isn't there yet.
    pub(crate) fn new(rt: HostRuntime, test: &str) -> io::Result<Yard> {
        let temporary = env::temp_dir(&rt)?;
        let root = format!(in rt.alloc(); "{}/jibrekt-{test}", temporary.as_str())?;
        let _ = fs::remove_dir_all(&rt, root.as_str());
        Ok(Yard {
            rt,
            root,
            tried: 0,
            first: 0,
        })
    }

    /// Counts a step.
    pub(crate) fn count(&mut self, is_so: bool) {
        self.tried = self.tried.saturating_add(1);
        if !is_so && self.first == 0 {
            self.first = self.tried;
        }
    }

    /// Removes the folder, and ends the test, which fails where a step wasn't as wanted.
    pub(crate) fn end(&mut self, rt: &impl Abort) {
        let is_removed = fs::remove_dir_all(&self.rt, self.root.as_str()).is_ok();
        self.count(is_removed);
        assert_eq!(rt; self.first, 0);
    }

    /// A fuse that passes so many calls on.
    pub(crate) fn fuse(&self, calls: u64, trick: Trick) -> Fuse {
        Fuse::new(self.rt.alloc(), calls, trick)
    }

    /// The files with this fuse.
    pub(crate) fn cut<'a>(&self, fuse: &'a Fuse) -> Cut<'a> {
        Cut::new(self.rt, fuse)
    }

    /// The path of a name in the folder.
    pub(crate) fn place(&self, name: &str) -> String {
        let alloc = self.rt.alloc();
        text_or_none(alloc, format!(in alloc; "{}/{name}", self.root.as_str()))
    }

    /// Makes a folder, with those above it.
    pub(crate) fn makes(&mut self, name: &str) {
        let is_made = fs::create_dir_all(&self.rt, self.place(name).as_str()).is_ok();
        self.count(is_made);
    }

    pub(crate) fn writes(&mut self, name: &str, text: &str) {
        let is_written = fs::write(&self.rt, self.place(name).as_str(), text.as_bytes()).is_ok();
        self.count(is_written);
    }

    /// Whether a file has this text.
    pub(crate) fn has(&self, name: &str, text: &str) -> bool {
        let found = fs::read_to_string(&self.rt, self.place(name).as_str());
        matches!(found, Ok(found) if found.as_str() == text)
    }

    /// Whether nothing has this name.
    pub(crate) fn lacks(&self, name: &str) -> bool {
        let place = self.place(name);
        !place.is_empty() && fs::symlink_metadata(&self.rt, place.as_str()).is_err()
    }

    /// Removes a folder with all that is in it, if it is there.
    pub(crate) fn clears(&mut self, name: &str) {
        let _ = fs::remove_dir_all(&self.rt, self.place(name).as_str());
    }

    /// How many entries a folder has; 99 where it is none.
    pub(crate) fn entries(&self, name: &str) -> usize {
        match fs::read_dir(&self.rt, self.place(name).as_str()) {
            Ok(found) => found.count(),
            Err(_) => 99,
        }
    }
}
