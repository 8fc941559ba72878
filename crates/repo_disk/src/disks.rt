//! What a store's folder asks of a disk.

ghost use Rattle.std.specs.Prelude.{◌≡◌, ◌≤◌, ℕ, IfOk, is_some};
ghost use Rattle.repo_disk.specs.Disks.{State, seen, Looks, Makes, Drafts, DraftLasts, ChangesDrafts, Places, Takes, MakesRoom, Syncs, IsCut, IsPart, HasLength, IsListing, HasCause};
ghost use Rattle.repo_disk.specs.Drafts.{IsDraft};

use crate::files::Part;
use crate::rooms::Room;
use repo_name::{Bytes, Text};
use std::alloc::AllocError;
use thiserror::Error;

/// Why a disk's call failed.
#[derive(Clone, Copy, Debug, PartialEq, Eq, Error)]
pub enum DiskError {
    /// The disk failed. A change may be made, whole, or not.
    #[error("disk failed")]
    Failed,
    /// There was no memory. Nothing changed but among the files that are being written.
    #[error("out of memory")]
    Memory,
}

impl From<AllocError> for DiskError {
    ghost use Rattle.std.specs.Prelude.{◌≡◌};
    ghost use Rattle.repo_disk.specs.declared.disks.DiskError.{DiskError};

    ghost from_gives = { λ e r. r ≡ DiskError.Memory };

    fn from(_: AllocError) -> DiskError {
        DiskError::Memory
    }
}

/// The folders of a store on a disk to which nobody else writes. What its calls promise holds where it is faithful,
/// which each call keeps. A name is a text without `/`; that of a file which is being written ends as one of those
/// (`IsDraft`).
pub trait Disk {
    /// What has each name, what it comes to, and which folders last.
    ghost state: { Self → State };
    /// How many calls have failed.
    ghost failed: { Self → ℕ };
    /// The disk does what its calls say.
    ghost faithful: { Self → Type 0 };

    /// A file's bytes, whole; `None` where nothing has the name.
    fn read(&mut self, room: Room, name: &str) -> Result<Option<Bytes>, DiskError>
        ensures law { faithful self.old → Looks (λ found. found ≡ seen (state self.old) room name.now) (state self.old) result (state self.new) }
        ensures cause { HasCause (failed self.old) result (failed self.new) }
        ensures faithful { faithful self.old → faithful self.new };

    /// Whether something has the name.
    fn has(&mut self, room: Room, name: &str) -> Result<bool, DiskError>
        ensures law { faithful self.old → Looks (λ is_there. is_there ≡ is_some (seen (state self.old) room name.now)) (state self.old) result (state self.new) }
        ensures cause { HasCause (failed self.old) result (failed self.new) }
        ensures faithful { faithful self.old → faithful self.new };

    /// So many bytes of a file at an offset.
    fn read_part(
        &mut self,
        room: Room,
        name: &str,
        offset: u32,
        length: u32,
    ) -> Result<Part, DiskError>
        ensures law { faithful self.old → Looks (IsPart (seen (state self.old) room name.now) offset length) (state self.old) result (state self.new) }
        ensures length { IfOk result (HasLength length) }
        ensures cause { HasCause (failed self.old) result (failed self.new) }
        ensures faithful { faithful self.old → faithful self.new };

    /// The names of a folder, in any order.
    fn names(&mut self, room: Room) -> Result<Vec<Text>, DiskError>
        ensures law { faithful self.old → Looks (λ names. IsListing ((state self.old).now room) names.items) (state self.old) result (state self.new) }
        ensures cause { HasCause (failed self.old) result (failed self.new) }
        ensures faithful { faithful self.old → faithful self.new };

    /// Writes a file whole among those that are being written, in place of one of this name.
    fn draft(&mut self, name: &str, bytes: &[u8]) -> Result<(), DiskError>
        requires { IsDraft name.now }
        ensures law { faithful self.old → Drafts name.now bytes.now (state self.old) result (state self.new) }
        ensures cause { HasCause (failed self.old) result (failed self.new) }
        ensures faithful { faithful self.old → faithful self.new };

    /// Syncs the file that was written there, so that its bytes last.
    fn sync_draft(&mut self, name: &str) -> Result<(), DiskError>
        requires { IsDraft name.now }
        ensures law { faithful self.old → DraftLasts name.now (state self.old) result (state self.new) }
        ensures cause { HasCause (failed self.old) result (failed self.new) }
        ensures faithful { faithful self.old → faithful self.new };

    /// Removes a file that was being written, as far as that can be done.
    fn discard(&mut self, name: &str)
        requires { IsDraft name.now }
        ensures law { faithful self.old → ChangesDrafts (state self.old) (state self.new) }
        ensures count { failed self.old ≤ failed self.new }
        ensures faithful { faithful self.old → faithful self.new };

    /// Renames the file that was written there into its place.
    fn place(&mut self, draft: &str, room: Room, name: &str) -> Result<(), DiskError>
        requires { IsDraft draft.now }
        ensures law { faithful self.old → Makes (Places draft.now room name.now) (state self.old) result (state self.new) }
        ensures cause { HasCause (failed self.old) result (failed self.new) }
        ensures faithful { faithful self.old → faithful self.new };

    /// Takes away a name, if something has it; whether something had it.
    fn unlink(&mut self, room: Room, name: &str) -> Result<bool, DiskError>
        ensures law { faithful self.old → Takes room name.now (state self.old) result (state self.new) }
        ensures cause { HasCause (failed self.old) result (failed self.new) }
        ensures faithful { faithful self.old → faithful self.new };

    /// Makes a folder, where it isn't there.
    fn make(&mut self, room: Room) -> Result<(), DiskError>
        ensures law { faithful self.old → Makes (MakesRoom room) (state self.old) result (state self.new) }
        ensures cause { HasCause (failed self.old) result (failed self.new) }
        ensures faithful { faithful self.old → faithful self.new };

    /// Syncs a folder: the names in it last, if the folder does, and so do the folders that stand in it. That holds
    /// after a sync that failed, too. It takes no memory.
    fn sync(&mut self, room: Room) -> Result<(), DiskError>
        ensures law { faithful self.old → Syncs room (state self.old) result (state self.new) }
        ensures cause { HasCause (failed self.old) result (failed self.new) }
        ensures faithful { faithful self.old → faithful self.new };

    /// How many calls have failed. At its greatest the count stays.
    fn failures(&self) -> u64
        ensures { result ≡ failed self.now };
}

/// A disk whose power can be cut.
pub trait Cuts: Disk {
    /// The power is cut, and comes back.
    fn cut(self) -> Self
        ensures cut { Self.faithful self → IsCut (Self.state self) (Self.state result) }
        ensures faithful { Self.faithful self → Self.faithful result };
}
