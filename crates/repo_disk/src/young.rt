//! Folders that a power cut can still take away.

ghost use Rattle.std.specs.Prelude.{◌≡◌, ◌⊎◌, false, true, OnOk, OnErr};
ghost use Rattle.repo_disk.specs.Disks.{StandsIn};
ghost use Rattle.repo_disk.specs.Memory.{is_young};
ghost use Rattle.repo_disk.specs.declared.rooms.Room.{Room};

use crate::rooms::Room;
use std::alloc::{AllocError, Global};

/// Which folders were made since the one above them was synced.
#[derive(Debug, Drop)]
pub struct Young {
    temporary: bool,
    data: bool,
    indexes: bool,
    snapshots: bool,
    /// Those of packs.
    packs: Vec<u8>,
}

impl Young {
    /// Each folder lasts.
    pub fn none(alloc: Global) -> Young
        ensures { (room : Room) → is_young result room ≡ false }
    {
        Young {
            temporary: false,
            data: false,
            indexes: false,
            snapshots: false,
            packs: Vec::new(alloc),
        }
    }

    /// A folder is made. It fails for memory alone.
    pub fn make(&mut self, room: Room) -> Result<(), AllocError>
        ensures ok { OnOk result ((r : Room) → (r ≡ room) ⊎ (is_young self.new r ≡ is_young self.old r)) }
        ensures err { OnErr result ((r : Room) → is_young self.new r ≡ is_young self.old r) }
    {
        match room {
            Room::Top => {}
            Room::Temporary => self.temporary = true,
            Room::Data => self.data = true,
            Room::Packs(first) => self.packs.insert(0, first)?,
            Room::Indexes => self.indexes = true,
            Room::Snapshots => self.snapshots = true,
        }
        Ok(())
    }

    /// A folder is synced.
    pub fn sync(&mut self, room: Room)
        ensures stays { (r : Room) → is_young self.old r ≡ false → is_young self.new r ≡ false }
        ensures below { (r : Room) → StandsIn r room → is_young self.old room ≡ false → is_young self.new r ≡ false }
    {
        match room {
            Room::Top => {
                self.temporary = false;
                self.data = false;
                self.indexes = false;
                self.snapshots = false;
            }
            Room::Data if !self.data => self.packs.clear(),
            _ => {}
        }
    }
}
