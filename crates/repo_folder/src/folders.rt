//! A store's folder on a disk, and the files that are kept in it.

ghost use Rattle.std.specs.Prelude.{◌≡◌, ◌≤◌, ◌⊎◌, ◌↔◌, ℕ, List, Some, None, true, false, IsOk, IsErr, OnOk, IfOk, is_some};
ghost use Rattle.repo_disk.specs.Disks.{State, seen, IsPart, IsListing, HasLength, HasCause, ChangesDrafts};
ghost use Rattle.repo_disk.specs.declared.rooms.Room.{Room};
ghost use Rattle.repo_folder.specs.Folders.{IsKept, IsHonest, IsSteady, Stays, IsListed, Shows, noted};
ghost use Rattle.repo_folder.specs.declared.folders.Standing.{Standing};

use crate::syncing::sync_all;
use repo_disk::{Disk, DiskError, Part, Room};
use repo_name::{Bytes, Text};

/// What is known of all that is visible in a folder.
#[derive(Clone, Copy, Debug, PartialEq, Eq)]
pub enum Standing {
    /// All of it lasts.
    Settled,
    /// A change may be undone: one failed, or nothing is known yet.
    Unsettled,
}

/// A store's folder on a disk.
#[derive(Debug, Drop)]
pub struct Folder<D> {
    pub disk: D,
    standing: Standing,
    /// Whether a change failed since it was opened.
    has_failed: bool,
}

/// What is known of all that is visible after a sync of what had changed.
fn noted(synced: &Result<(), DiskError>) -> Standing
    ensures { result ≡ noted synced.now }
{
    match synced {
        Ok(()) => Standing::Settled,
        Err(_) => Standing::Unsettled,
    }
}

impl<D: Disk> Folder<D> {
    /// The folder on this disk, whatever happened before: nothing is known to last.
    pub fn of(disk: D) -> Folder<D>
        ensures { result ≡ record { disk = disk; standing = Standing.Unsettled; has_failed = false } }
    {
        Folder {
            disk,
            standing: Standing::Unsettled,
            has_failed: false,
        }
    }

    /// Makes sure that all that is visible lasts. Where that isn't known all folders are synced.
    pub fn settle(&mut self) -> Result<(), DiskError>
        ensures same { D.faithful self.old.disk → IsSteady (D.state self.old.disk) (D.state self.new.disk) }
        ensures honest { IsHonest (D.faithful self.old.disk) self.old.standing (D.state self.old.disk)
            → IsHonest (D.faithful self.new.disk) self.new.standing (D.state self.new.disk) }
        ensures settled { OnOk result (self.new.standing ≡ Standing.Settled) }
        ensures cause { HasCause (D.failed self.old.disk) result (D.failed self.new.disk) }
        ensures failed { self.new.has_failed ≡ self.old.has_failed }
    {
        if self.standing == Standing::Settled {
            return Ok(());
        }
        sync_all(&mut self.disk)?;
        self.standing = Standing::Settled;
        Ok(())
    }

    /// Notes what came of a change, which lasts where it and the sync of its folder came to their ends.
    pub(crate) fn note(&mut self, is_made: bool, synced: &Result<(), DiskError>)
        ensures disk { self.new.disk ≡ self.old.disk }
        ensures standing { self.new.standing ≡ noted synced.now }
        ensures failed { (self.new.has_failed ≡ true) ↔ ((self.old.has_failed ≡ true) ⊎ ((is_made ≡ false) ⊎ IsErr synced.now)) }
    {
        self.standing = noted(synced);
        if !is_made || synced.is_err() {
            self.has_failed = true;
        }
    }

    /// Whether a change failed since it was opened.
    pub(crate) fn has_failed(&self) -> bool
        ensures { result ≡ self.now.has_failed }
    {
        self.has_failed
    }

    /// A file's bytes, whole; `None` where nothing has the name.
    pub fn read(&mut self, room: Room, name: &str) -> Result<Option<Bytes>, DiskError>
        requires { IsKept room }
        ensures law { IsHonest (D.faithful self.old.disk) self.old.standing (D.state self.old.disk)
            → Shows (λ found. found ≡ (D.state self.old.disk).fate room name.now) (D.state self.old.disk) result (D.state self.new.disk) }
        ensures honest { IsHonest (D.faithful self.old.disk) self.old.standing (D.state self.old.disk)
            → IsHonest (D.faithful self.new.disk) self.new.standing (D.state self.new.disk) }
        ensures cause { HasCause (D.failed self.old.disk) result (D.failed self.new.disk) }
        ensures failed { self.new.has_failed ≡ self.old.has_failed }
    {
        self.settle()?;
        self.disk.read(room, name)
    }

    /// Whether something has the name.
    pub fn has(&mut self, room: Room, name: &str) -> Result<bool, DiskError>
        requires { IsKept room }
        ensures law { IsHonest (D.faithful self.old.disk) self.old.standing (D.state self.old.disk)
            → Shows (λ is_there. is_there ≡ is_some ((D.state self.old.disk).fate room name.now)) (D.state self.old.disk) result (D.state self.new.disk) }
        ensures honest { IsHonest (D.faithful self.old.disk) self.old.standing (D.state self.old.disk)
            → IsHonest (D.faithful self.new.disk) self.new.standing (D.state self.new.disk) }
        ensures cause { HasCause (D.failed self.old.disk) result (D.failed self.new.disk) }
        ensures failed { self.new.has_failed ≡ self.old.has_failed }
    {
        self.settle()?;
        self.disk.has(room, name)
    }

    /// So many bytes of a file at an offset.
    pub fn read_part(
        &mut self,
        room: Room,
        name: &str,
        offset: u32,
        length: u32,
    ) -> Result<Part, DiskError>
        requires { IsKept room }
        ensures law { IsHonest (D.faithful self.old.disk) self.old.standing (D.state self.old.disk)
            → Shows (IsPart ((D.state self.old.disk).fate room name.now) offset length) (D.state self.old.disk) result (D.state self.new.disk) }
        ensures length { IfOk result (HasLength length) }
        ensures honest { IsHonest (D.faithful self.old.disk) self.old.standing (D.state self.old.disk)
            → IsHonest (D.faithful self.new.disk) self.new.standing (D.state self.new.disk) }
        ensures cause { HasCause (D.failed self.old.disk) result (D.failed self.new.disk) }
        ensures failed { self.new.has_failed ≡ self.old.has_failed }
    {
        self.settle()?;
        self.disk.read_part(room, name, offset, length)
    }

    /// The names of a folder that have something, in any order.
    pub fn names(&mut self, room: Room) -> Result<Vec<Text>, DiskError>
        requires { IsKept room }
        ensures law { IsHonest (D.faithful self.old.disk) self.old.standing (D.state self.old.disk)
            → Shows (λ names. IsListed ((D.state self.old.disk).fate room) names.items) (D.state self.old.disk) result (D.state self.new.disk) }
        ensures honest { IsHonest (D.faithful self.old.disk) self.old.standing (D.state self.old.disk)
            → IsHonest (D.faithful self.new.disk) self.new.standing (D.state self.new.disk) }
        ensures cause { HasCause (D.failed self.old.disk) result (D.failed self.new.disk) }
        ensures failed { self.new.has_failed ≡ self.old.has_failed }
    {
        self.settle()?;
        self.disk.names(room)
    }
}
