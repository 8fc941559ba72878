//! How many calls of a file system are still passed on, and what those did that were.

use crate::lasting::last;
use std::alloc::Global;
use std::cell::Cell;
use std::io;
use std::io::ErrorKind;

/// What a call does.
#[derive(Clone, Copy)]
pub enum What {
    /// It opens, reads, or tries to make a folder, and changes nothing.
    Look,
    /// It makes a folder.
    Make,
    /// It writes to a file.
    Write,
    /// It syncs a file or a folder.
    Sync,
    /// It was to sync one, and failed: what changed before may be lost, also where a later sync succeeds.
    Lose,
    /// A file leaves its place for another.
    Leave,
    /// A file comes from another place.
    Come,
    /// It removes a file.
    Remove,
}

/// A call, and the path that it was about.
#[derive(Drop)]
pub struct Step {
    pub what: What,
    pub path: String,
    /// Where a file comes or is removed: the bytes of the file that had the name before, if one had.
    pub before: Option<Vec<u8>>,
}

/// What a file system does besides.
#[derive(Clone, Copy)]
pub enum Trick {
    /// Nothing: once no call is left, each fails.
    None,
    /// One call fails, and those after it are passed on again.
    FailsOnce,
    /// Where a file is opened, another one has come in its place, whose name has `-other` behind it.
    OtherFile,
    /// Once no call is left, the folder `other` has come in the place of the folder `d/e`, and all calls are passed on.
    OtherFolder,
    /// Each call that the kit doesn't make again by itself is interrupted once, before it is passed on.
    Interrupts,
}

/// How many calls are still passed on, and those that were.
#[derive(Drop)]
pub struct Fuse {
    pub trick: Trick,
    left: Cell<u64>,
    was_interrupted: Cell<bool>,
    steps: Cell<Vec<Step>>,
    pub alloc: Global,
}

impl Fuse {
    /// So many calls are passed on.
    pub(crate) fn new(alloc: Global, left: u64, trick: Trick) -> Fuse {
        Fuse {
            trick,
            left: Cell::new(left),
            was_interrupted: Cell::new(false),
            steps: Cell::new(Vec::new(alloc)),
            alloc,
        }
    }

    /// All calls are passed on, by a machine that is started again.
    pub(crate) fn goes_on(&self) {
        self.left.set(u64::MAX);
    }

    /// How many calls were made, of all.
    pub(crate) fn spent(&self) -> u64 {
        u64::MAX.saturating_sub(self.left.get())
    }

    /// Whether another folder has come in the place of one.
    pub(crate) fn has_other_folder(&self) -> bool {
        matches!(self.trick, Trick::OtherFolder) && self.left.get() == 0
    }

    /// Does as [`Fuse::burn`], of a call that may be interrupted.
    pub(crate) fn burn_or_interrupt(&self, what: What, path: &str) -> io::Result<()> {
        let was_interrupted = self.was_interrupted.get();
        self.was_interrupted.set(!was_interrupted);
        if matches!(self.trick, Trick::Interrupts) && !was_interrupted {
            return Err(io::Error::from(ErrorKind::Interrupted));
        }
        self.burn(what, path)
    }

    /// Lets one call pass, and notes what it does; once none is left it fails.
    pub(crate) fn burn(&self, what: What, path: &str) -> io::Result<()> {
        if let Some(left) = self.left.get().checked_sub(1) {
            self.left.set(left);
            return self.note(what, path, None);
        }
        if self.has_other_folder() {
            return Ok(());
        }
        if let Trick::FailsOnce = self.trick {
            self.goes_on();
        }
        if let What::Sync = what {
            self.note(What::Lose, path, None)?;
        }
        Err(io::Error::from(ErrorKind::Other))
    }

    /// Notes what a call does.
    pub(crate) fn note(&self, what: What, path: &str, before: Option<Vec<u8>>) -> io::Result<()> {
        let path = String::from_str(self.alloc, path)?;
        let mut steps = self.steps();
        let noted = steps.push(Step { what, path, before });
        self.steps.set(steps);
        noted?;
        Ok(())
    }

    /// Whether all that was changed is on the disk.
    pub(crate) fn lasts(&self, is_store: bool) -> bool {
        let steps = self.steps();
        let lasts = last(steps.as_slice(), is_store);
        self.steps.set(steps);
        lasts
    }

    /// The calls since the last time.
    pub(crate) fn steps(&self) -> Vec<Step> {
        self.steps.replace(Vec::new(self.alloc))
    }
}
