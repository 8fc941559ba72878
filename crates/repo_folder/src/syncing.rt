//! The folders of a store are synced, so that what is visible in them lasts.

ghost use Rattle.std.specs.Prelude.{◌≡◌, true, OnOk};
ghost use Rattle.repo_disk.specs.Disks.{HasCause, IsDecided};
ghost use Rattle.repo_disk.specs.declared.rooms.Room.{Room};
ghost use Rattle.repo_folder.specs.Folders.{IsKept, IsSteady, AreDecidedBelow, AreDecided};

use repo_disk::{Disk, DiskError, Room};

/// Syncs the store's own folder, and the one in which the folders of packs stand: all folders last then.
fn sync_upper<D: Disk>(disk: &mut D) -> Result<(), DiskError>
    ensures faithful { D.faithful disk.old → D.faithful disk.new }
    ensures steady { D.faithful disk.old → IsSteady (D.state disk.old) (D.state disk.new) }
    ensures lasting { D.faithful disk.old → (D.state disk.old).lasting Room.Top ≡ true → OnOk result ((r : Room) → IsKept r
        → (D.state disk.new).lasting r ≡ true) }
    ensures decided { D.faithful disk.old → (D.state disk.old).lasting Room.Top ≡ true
        → OnOk result (IsDecided (D.state disk.old) Room.Top × IsDecided (D.state disk.old) Room.Data) }
    ensures cause { HasCause (D.failed disk.old) result (D.failed disk.new) }
{
    disk.sync(Room::Top)?;
    disk.sync(Room::Data)
}

/// Syncs the folders of indexes and of snapshots.
fn sync_kinds<D: Disk>(disk: &mut D) -> Result<(), DiskError>
    ensures faithful { D.faithful disk.old → D.faithful disk.new }
    ensures steady { D.faithful disk.old → IsSteady (D.state disk.old) (D.state disk.new) }
    ensures indexes { D.faithful disk.old → (D.state disk.old).lasting Room.Indexes ≡ true → OnOk result (IsDecided (D.state disk.old) Room.Indexes) }
    ensures snapshots { D.faithful disk.old → (D.state disk.old).lasting Room.Snapshots ≡ true → OnOk result (IsDecided (D.state disk.old) Room.Snapshots) }
    ensures cause { HasCause (D.failed disk.old) result (D.failed disk.new) }
{
    disk.sync(Room::Indexes)?;
    disk.sync(Room::Snapshots)
}

/// Syncs the folders of packs.
fn sync_packs<D: Disk>(disk: &mut D) -> Result<(), DiskError>
    ensures faithful { D.faithful disk.old → D.faithful disk.new }
    ensures steady { D.faithful disk.old → IsSteady (D.state disk.old) (D.state disk.new) }
    ensures decided { D.faithful disk.old → OnOk result (AreDecidedBelow 256 (D.state disk.old)) }
    ensures cause { HasCause (D.failed disk.old) result (D.failed disk.new) }
{
    for first in 0..=255u8 {
        disk.sync(Room::Packs(first))?;
    }
    Ok(())
}

/// Syncs all folders in which something is kept, each after the one in which it stands.
pub fn sync_all<D: Disk>(disk: &mut D) -> Result<(), DiskError>
    ensures faithful { D.faithful disk.old → D.faithful disk.new }
    ensures steady { D.faithful disk.old → IsSteady (D.state disk.old) (D.state disk.new) }
    ensures decided { D.faithful disk.old → (D.state disk.old).lasting Room.Top ≡ true → OnOk result (AreDecided (D.state disk.new)) }
    ensures cause { HasCause (D.failed disk.old) result (D.failed disk.new) }
{
    sync_upper(disk)?;
    sync_kinds(disk)?;
    sync_packs(disk)
}
