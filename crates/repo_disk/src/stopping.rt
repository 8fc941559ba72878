//! A disk that stops after some calls.

ghost use Rattle.std.specs.Prelude.{◌≡◌, ◌≤◌, ◌+◌, ◌-◌, ◌^◌, ◌↔◌, min, ℕ, IsOk, OnOk, OnErr, IsErrOf};
ghost use Rattle.repo_disk.specs.declared.disks.DiskError.{DiskError};

use crate::disks::{Cuts, Disk, DiskError};
use crate::files::Part;
use crate::rooms::Room;
use repo_name::{Bytes, Text};

/// A disk that passes so many calls on, and then fails in each without doing anything. A cut behind that is one at
/// that moment: what the call that was cut off had done is what its failure may have done.
#[derive(Debug, Drop)]
pub struct Stopping<D> {
    inner: D,
    left: u64,
    count: u64,
}

impl<D> Stopping<D> {
    /// This disk, which stops after so many calls.
    pub fn new(inner: D, left: u64) -> Stopping<D>
        ensures { result ≡ record { inner = inner; left = left; count = 0 } }
    {
        Stopping {
            inner,
            left,
            count: 0,
        }
    }

    /// Lets one call pass, just where one is left; else it counts a failure.
    fn pass(&mut self) -> Result<(), DiskError>
        ensures inner { self.new.inner ≡ self.old.inner }
        ensures passes { IsOk result ↔ (1 ≤ self.old.left) }
        ensures left { OnOk result (self.new.left + 1 ≡ self.old.left) }
        ensures ok { OnOk result (self.new.count ≡ self.old.count) }
        ensures err { OnErr result (self.new.count ≡ min (self.old.count + 1) (2 ^ 64 - 1)) }
        ensures failed { OnErr result (IsErrOf result DiskError.Failed) }
    {
        match self.left.checked_sub(1) {
            None => {
                self.count = self.count.saturating_add(1);
                Err(DiskError::Failed)
            }
            Some(left) => {
                self.left = left;
                Ok(())
            }
        }
    }
}

impl<D: Disk> Disk for Stopping<D> {
    ghost use Rattle.std.specs.Prelude.{◌+◌, ◌-◌, ◌^◌, min};

    ghost state = { λ d. D.state d.inner };

    ghost failed = { λ d. min (D.failed d.inner + d.count) (2 ^ 64 - 1) };

    ghost faithful = { λ d. D.faithful d.inner };

    fn read(&mut self, room: Room, name: &str) -> Result<Option<Bytes>, DiskError> {
        self.pass()?;
        self.inner.read(room, name)
    }

    fn has(&mut self, room: Room, name: &str) -> Result<bool, DiskError> {
        self.pass()?;
        self.inner.has(room, name)
    }

    fn read_part(
        &mut self,
        room: Room,
        name: &str,
        offset: u32,
        length: u32,
    ) -> Result<Part, DiskError> {
        self.pass()?;
        self.inner.read_part(room, name, offset, length)
    }

    fn names(&mut self, room: Room) -> Result<Vec<Text>, DiskError> {
        self.pass()?;
        self.inner.names(room)
    }

    fn draft(&mut self, name: &str, bytes: &[u8]) -> Result<(), DiskError> {
        self.pass()?;
        self.inner.draft(name, bytes)
    }

    fn sync_draft(&mut self, name: &str) -> Result<(), DiskError> {
        self.pass()?;
        self.inner.sync_draft(name)
    }

    fn discard(&mut self, name: &str) {
        if self.pass().is_ok() {
            self.inner.discard(name);
        }
    }

    fn place(&mut self, draft: &str, room: Room, name: &str) -> Result<(), DiskError> {
        self.pass()?;
        self.inner.place(draft, room, name)
    }

    fn unlink(&mut self, room: Room, name: &str) -> Result<bool, DiskError> {
        self.pass()?;
        self.inner.unlink(room, name)
    }

    fn make(&mut self, room: Room) -> Result<(), DiskError> {
        self.pass()?;
        self.inner.make(room)
    }

    fn sync(&mut self, room: Room) -> Result<(), DiskError> {
        self.pass()?;
        self.inner.sync(room)
    }

    fn failures(&self) -> u64 {
        self.inner.failures().saturating_add(self.count)
    }
}

impl<D: Cuts> Cuts for Stopping<D> {
    /// After the cut it doesn't stop any more.
    fn cut(self) -> Self {
        let Stopping { inner, count, .. } = self;
        Stopping {
            inner: inner.cut(),
            left: u64::MAX,
            count,
        }
    }
}
