//! Files are written into a store's folder, and removed there, so that what is told lasts.

ghost use Rattle.std.specs.Prelude.{◌≡◌, ◌≤◌, ◌⊎◌, ◌↔◌, ℕ, List, Some, None, true, false, IsErr, OnOk, OnErr};
ghost use Rattle.repo_disk.specs.Disks.{HasCause, ChangesDrafts, Makes, Places};
ghost use Rattle.repo_disk.specs.Drafts.{IsDraft};
ghost use Rattle.repo_disk.specs.declared.rooms.Room.{Room};
ghost use Rattle.repo_folder.specs.Folders.{IsKept, IsHonest, Stays, Comes, Puts, Keeps, noted};
ghost use Rattle.repo_folder.specs.declared.folders.Standing.{Standing};

use crate::folders::Folder;
use repo_disk::{Disk, DiskError, Room};

impl<D: Disk> Folder<D> {
    /// Writes a file among those that are being written, so that its bytes last.
    fn write(&mut self, draft: &str, bytes: &[u8]) -> Result<(), DiskError>
        requires { IsDraft draft.now }
        ensures drafts { D.faithful self.old.disk → ChangesDrafts (D.state self.old.disk) (D.state self.new.disk) }
        ensures faithful { D.faithful self.old.disk → D.faithful self.new.disk }
        ensures ok { D.faithful self.old.disk
            → OnOk result ((D.state self.new.disk).now Room.Temporary draft.now ≡ Some (record { bytes = bytes.now; lasts = true })) }
        ensures standing { self.new.standing ≡ self.old.standing }
        ensures cause { HasCause (D.failed self.old.disk) result (D.failed self.new.disk) }
        ensures failed { self.new.has_failed ≡ self.old.has_failed }
    {
        self.disk.draft(draft, bytes)?;
        self.disk.sync_draft(draft)
    }

    /// The same, once all that is visible lasts. Where it fails, what was written is removed, as far as that can be done.
    fn prepare(&mut self, draft: &str, bytes: &[u8]) -> Result<(), DiskError>
        requires { IsDraft draft.now }
        ensures honest { IsHonest (D.faithful self.old.disk) self.old.standing (D.state self.old.disk)
            → IsHonest (D.faithful self.new.disk) self.new.standing (D.state self.new.disk) }
        ensures same { IsHonest (D.faithful self.old.disk) self.old.standing (D.state self.old.disk) → Stays (D.state self.old.disk) (D.state self.new.disk) }
        ensures ok { IsHonest (D.faithful self.old.disk) self.old.standing (D.state self.old.disk) → OnOk result ((self.new.standing ≡ Standing.Settled)
            × ((D.state self.new.disk).now Room.Temporary draft.now ≡ Some (record { bytes = bytes.now; lasts = true }))) }
        ensures cause { HasCause (D.failed self.old.disk) result (D.failed self.new.disk) }
        ensures failed { self.new.has_failed ≡ self.old.has_failed }
    {
        self.settle()?;
        let written = self.write(draft, bytes);
        if written.is_err() {
            self.disk.discard(draft);
        }
        written
    }

    /// Renames the file that was written into its place. Where that fails, what is left of it is removed, as far as that
    /// can be done.
    fn place(&mut self, draft: &str, room: Room, name: &str) -> Result<(), DiskError>
        requires draft { IsDraft draft.now }
        requires kept { IsKept room }
        ensures law { D.faithful self.old.disk → Makes (Places draft.now room name.now) (D.state self.old.disk) result (D.state self.new.disk) }
        ensures faithful { D.faithful self.old.disk → D.faithful self.new.disk }
        ensures cause { HasCause (D.failed self.old.disk) result (D.failed self.new.disk) }
        ensures failed { self.new.has_failed ≡ self.old.has_failed }
    {
        let placed = self.disk.place(draft, room, name);
        if placed.is_err() {
            self.disk.discard(draft);
        }
        placed
    }

    /// Gives the file that was written its name, so that it lasts.
    fn give(&mut self, draft: &str, room: Room, name: &str) -> Result<(), DiskError>
        requires draft { IsDraft draft.now }
        requires kept { IsKept room }
        ensures honest { (bytes : List ℕ) → (D.state self.old.disk).now Room.Temporary draft.now ≡ Some (record { bytes = bytes; lasts = true })
            → IsHonest (D.faithful self.old.disk) Standing.Settled (D.state self.old.disk)
            → IsHonest (D.faithful self.new.disk) self.new.standing (D.state self.new.disk) }
        ensures law { (bytes : List ℕ) → (D.state self.old.disk).now Room.Temporary draft.now ≡ Some (record { bytes = bytes; lasts = true })
            → IsHonest (D.faithful self.old.disk) Standing.Settled (D.state self.old.disk)
            → Keeps (Comes room name.now (Some bytes)) (D.state self.old.disk) result (D.state self.new.disk) }
        ensures cause { HasCause (D.failed self.old.disk) result (D.failed self.new.disk) }
        ensures failed { (self.new.has_failed ≡ true) ↔ ((self.old.has_failed ≡ true) ⊎ IsErr result) }
    {
        let placed = self.place(draft, room, name);
        let synced = self.disk.sync(room);
        self.note(placed.is_ok(), &synced);
        placed?;
        synced
    }

    /// Keeps a file whole, in place of what has its name.
    pub fn keep(
        &mut self,
        draft: &str,
        room: Room,
        name: &str,
        bytes: &[u8],
    ) -> Result<(), DiskError>
        requires draft { IsDraft draft.now }
        requires kept { IsKept room }
        ensures law { IsHonest (D.faithful self.old.disk) self.old.standing (D.state self.old.disk)
            → Keeps (Comes room name.now (Some bytes.now)) (D.state self.old.disk) result (D.state self.new.disk) }
        ensures honest { IsHonest (D.faithful self.old.disk) self.old.standing (D.state self.old.disk)
            → IsHonest (D.faithful self.new.disk) self.new.standing (D.state self.new.disk) }
        ensures cause { HasCause (D.failed self.old.disk) result (D.failed self.new.disk) }
        ensures remembered { self.old.has_failed ≡ true → self.new.has_failed ≡ true }
        ensures quiet { OnOk result (self.new.has_failed ≡ self.old.has_failed) }
        ensures noted { IsHonest (D.faithful self.old.disk) self.old.standing (D.state self.old.disk)
            → OnErr result ((self.new.has_failed ≡ true) ⊎ Stays (D.state self.old.disk) (D.state self.new.disk)) }
    {
        self.prepare(draft, bytes)?;
        self.give(draft, room, name)
    }

    /// Takes a name away, if something has it, where all that is visible lasts.
    fn take_settled(&mut self, room: Room, name: &str) -> Result<(), DiskError>
        requires { IsKept room }
        ensures honest { IsHonest (D.faithful self.old.disk) Standing.Settled (D.state self.old.disk)
            → IsHonest (D.faithful self.new.disk) self.new.standing (D.state self.new.disk) }
        ensures law { IsHonest (D.faithful self.old.disk) Standing.Settled (D.state self.old.disk)
            → Keeps (Comes room name.now None) (D.state self.old.disk) result (D.state self.new.disk) }
        ensures cause { HasCause (D.failed self.old.disk) result (D.failed self.new.disk) }
        ensures failed { (self.new.has_failed ≡ true) ↔ ((self.old.has_failed ≡ true) ⊎ IsErr result) }
    {
        let taken = self.disk.unlink(room, name);
        if matches!(taken, Ok(false)) {
            return Ok(());
        }
        let lasting = self.disk.sync(room);
        self.note(taken.is_ok(), &lasting);
        taken?;
        lasting
    }

    /// Takes a name away, if something has it.
    pub fn take(&mut self, room: Room, name: &str) -> Result<(), DiskError>
        requires { IsKept room }
        ensures law { IsHonest (D.faithful self.old.disk) self.old.standing (D.state self.old.disk)
            → Keeps (Comes room name.now None) (D.state self.old.disk) result (D.state self.new.disk) }
        ensures honest { IsHonest (D.faithful self.old.disk) self.old.standing (D.state self.old.disk)
            → IsHonest (D.faithful self.new.disk) self.new.standing (D.state self.new.disk) }
        ensures cause { HasCause (D.failed self.old.disk) result (D.failed self.new.disk) }
        ensures remembered { self.old.has_failed ≡ true → self.new.has_failed ≡ true }
        ensures quiet { OnOk result (self.new.has_failed ≡ self.old.has_failed) }
        ensures noted { IsHonest (D.faithful self.old.disk) self.old.standing (D.state self.old.disk)
            → OnErr result ((self.new.has_failed ≡ true) ⊎ Stays (D.state self.old.disk) (D.state self.new.disk)) }
    {
        self.settle()?;
        self.take_settled(room, name)
    }

    /// Keeps a file anew that is there, if it has these bytes.
    fn renew(&mut self, draft: &str, room: Room, name: &str, bytes: &[u8]) -> Result<(), DiskError>
        requires draft { IsDraft draft.now }
        requires kept { IsKept room }
        ensures same { IsHonest (D.faithful self.old.disk) self.old.standing (D.state self.old.disk) → Stays (D.state self.old.disk) (D.state self.new.disk) }
        ensures honest { IsHonest (D.faithful self.old.disk) self.old.standing (D.state self.old.disk)
            → IsHonest (D.faithful self.new.disk) self.new.standing (D.state self.new.disk) }
        ensures cause { HasCause (D.failed self.old.disk) result (D.failed self.new.disk) }
        ensures remembered { self.old.has_failed ≡ true → self.new.has_failed ≡ true }
        ensures quiet { OnOk result (self.new.has_failed ≡ self.old.has_failed) }
        ensures noted { IsHonest (D.faithful self.old.disk) self.old.standing (D.state self.old.disk)
            → OnErr result ((self.new.has_failed ≡ true) ⊎ Stays (D.state self.old.disk) (D.state self.new.disk)) }
    {
        let Some(found) = self.read(room, name)? else {
            return Ok(());
        };
        if found.as_slice() != bytes {
            return Ok(());
        }
        self.keep(draft, room, name, bytes)
    }

    /// Keeps a file whole, where nothing has its name; else nothing changes. Where a change failed before, a file that is
    /// there is written again, if it has these bytes.
    pub fn put(
        &mut self,
        draft: &str,
        room: Room,
        name: &str,
        bytes: &[u8],
    ) -> Result<(), DiskError>
        requires draft { IsDraft draft.now }
        requires kept { IsKept room }
        ensures law { IsHonest (D.faithful self.old.disk) self.old.standing (D.state self.old.disk)
            → Keeps (Puts room name.now bytes.now) (D.state self.old.disk) result (D.state self.new.disk) }
        ensures honest { IsHonest (D.faithful self.old.disk) self.old.standing (D.state self.old.disk)
            → IsHonest (D.faithful self.new.disk) self.new.standing (D.state self.new.disk) }
        ensures cause { HasCause (D.failed self.old.disk) result (D.failed self.new.disk) }
        ensures remembered { self.old.has_failed ≡ true → self.new.has_failed ≡ true }
        ensures quiet { OnOk result (self.new.has_failed ≡ self.old.has_failed) }
        ensures noted { IsHonest (D.faithful self.old.disk) self.old.standing (D.state self.old.disk)
            → OnErr result ((self.new.has_failed ≡ true) ⊎ Stays (D.state self.old.disk) (D.state self.new.disk)) }
    {
        if !self.has(room, name)? {
            return self.keep(draft, room, name, bytes);
        }
        if !self.has_failed() {
            return Ok(());
        }
        self.renew(draft, room, name, bytes)
    }
}
