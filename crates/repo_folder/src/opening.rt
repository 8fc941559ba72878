//! A store's folder is opened, or made.

ghost use Rattle.std.specs.Prelude.{◌≡◌, ◌≢◌, ◌⊎◌, ◌≤◌, false, IfOk, IfErr, OnOk, OnErr};
ghost use Rattle.repo_disk.specs.Disks as disks;
ghost use Rattle.repo_disk.specs.declared.rooms.Room.{Room};
ghost use Rattle.repo_folder.specs.Folders.{IsHonest, IsMade, IsUntouched, Stays};
ghost use Rattle.repo_folder.specs.Spelling.{spelled, HasLedger, IsBegun, BeginsLedger, IsCaused};
ghost use Rattle.repo_store.specs.Laws.{HasCause};
ghost use Rattle.repo_folder.specs.declared.folders.Standing.{Standing};
ghost use Rattle.repo_store.specs.Stores.{empty};

use crate::dir_shelf::DirShelf;
use crate::folders::Folder;
use crate::places::{LEDGER, LEDGER_DRAFT};
use crate::telling::told;
use crate::unopened::Unopened;
use repo_disk::{Disk, DiskError, Room};
use repo_locks::Ledger;
use repo_store::ShelfError;
use std::alloc::Global;

/// Makes a folder other than the store's own, where it isn't there.
fn make_below<D: Disk>(disk: &mut D, room: Room) -> Result<(), DiskError>
    requires { room ≢ Room.Top }
    ensures faithful { D.faithful disk.old → D.faithful disk.new }
    ensures made { D.faithful disk.old → OnOk result (IsMade (D.state disk.old) (D.state disk.new)) }
    ensures kept { D.faithful disk.old → IsUntouched (D.state disk.old) (D.state disk.new) }
    ensures cause { disks.HasCause (D.failed disk.old) result (D.failed disk.new) }
{
    disk.make(room)
}

/// Makes the folders of packs, where they aren't there.
fn make_packs<D: Disk>(disk: &mut D) -> Result<(), DiskError>
    ensures faithful { D.faithful disk.old → D.faithful disk.new }
    ensures made { D.faithful disk.old → OnOk result (IsMade (D.state disk.old) (D.state disk.new)) }
    ensures kept { D.faithful disk.old → IsUntouched (D.state disk.old) (D.state disk.new) }
    ensures cause { disks.HasCause (D.failed disk.old) result (D.failed disk.new) }
{
    for first in 0..=255u8 {
        make_below(disk, Room::Packs(first))?;
    }
    Ok(())
}

/// Makes the folders that stand in the store's own, where they aren't there.
fn make_upper<D: Disk>(disk: &mut D) -> Result<(), DiskError>
    ensures faithful { D.faithful disk.old → D.faithful disk.new }
    ensures made { D.faithful disk.old → OnOk result (IsMade (D.state disk.old) (D.state disk.new)) }
    ensures kept { D.faithful disk.old → IsUntouched (D.state disk.old) (D.state disk.new) }
    ensures cause { disks.HasCause (D.failed disk.old) result (D.failed disk.new) }
{
    make_below(disk, Room::Temporary)?;
    make_below(disk, Room::Data)?;
    make_below(disk, Room::Indexes)?;
    make_below(disk, Room::Snapshots)
}

/// Makes all folders that a store has below its own, where they aren't there.
fn make_all<D: Disk>(disk: &mut D) -> Result<(), DiskError>
    ensures faithful { D.faithful disk.old → D.faithful disk.new }
    ensures made { D.faithful disk.old → OnOk result (IsMade (D.state disk.old) (D.state disk.new)) }
    ensures kept { D.faithful disk.old → IsUntouched (D.state disk.old) (D.state disk.new) }
    ensures cause { disks.HasCause (D.failed disk.old) result (D.failed disk.new) }
{
    make_upper(disk)?;
    make_packs(disk)
}

/// Makes the folders of a store, where they aren't there, as nothing else is known of it than before.
fn make_folders<D: Disk>(disk: D) -> Result<Folder<D>, Unopened<D>>
where
    D: Drop,
    ensures honest { IsHonest (D.faithful disk) Standing.Unsettled (D.state disk)
        → IfOk result (λ folder. IsHonest (D.faithful folder.disk) folder.standing (D.state folder.disk)) }
    ensures same { IsHonest (D.faithful disk) Standing.Unsettled (D.state disk) → IfOk result (λ folder. (D.state folder.disk).fate ≡ (D.state disk).fate) }
    ensures kept { IsHonest (D.faithful disk) Standing.Unsettled (D.state disk) → IfErr result
        (λ e. Stays (D.state disk) (D.state e.disk) × IsHonest (D.faithful e.disk) Standing.Unsettled (D.state e.disk)) }
    ensures cause { IfErr result (λ e. IsCaused (D.failed disk) e.error (D.failed e.disk)) }
    ensures count { IfOk result (λ folder. D.failed disk ≤ D.failed folder.disk) }
    ensures anew { IfOk result (λ folder. folder.has_failed ≡ false) }
{
    let mut disk = disk;
    match told(make_all(&mut disk)) {
        Ok(()) => Ok(Folder::of(disk)),
        Err(error) => Err(Unopened { disk, error }),
    }
}

/// Keeps a fresh ledger, where there is none; else nothing changes.
fn begin_ledger<D: Disk>(folder: &mut Folder<D>, alloc: Global) -> Result<(), ShelfError>
    ensures honest { IsHonest (D.faithful folder.old.disk) folder.old.standing (D.state folder.old.disk)
        → IsHonest (D.faithful folder.new.disk) folder.new.standing (D.state folder.new.disk) }
    ensures begun { IsHonest (D.faithful folder.old.disk) folder.old.standing (D.state folder.old.disk) → IsBegun (D.state folder.old.disk).fate
        → OnOk result (HasLedger (D.state folder.new.disk).fate × (spelled (D.state folder.new.disk).fate ≡ empty)) }
    ensures ok { IsHonest (D.faithful folder.old.disk) folder.old.standing (D.state folder.old.disk)
        → OnOk result (BeginsLedger (D.state folder.old.disk) (D.state folder.new.disk)) }
    ensures err { IsHonest (D.faithful folder.old.disk) folder.old.standing (D.state folder.old.disk)
        → OnErr result (Stays (D.state folder.old.disk) (D.state folder.new.disk) ⊎ BeginsLedger (D.state folder.old.disk) (D.state folder.new.disk)) }
    ensures cause { HasCause (D.failed folder.old.disk) result (D.failed folder.new.disk) }
    ensures quiet { OnOk result (folder.new.has_failed ≡ folder.old.has_failed) }
{
    if told(folder.has(Room::Top, LEDGER))? {
        return Ok(());
    }
    let bytes = Ledger::new(alloc).write()?;
    told(folder.keep(LEDGER_DRAFT, Room::Top, LEDGER, bytes.as_slice()))
}

impl<D: Disk + Drop> DirShelf<D> {
    /// The shelf of a store that is made on this disk, where nothing is kept yet but what a making that was cut off
    /// left: its folders and, last, a fresh ledger. Files that are no store's may be there, too. A ledger that is there, whatever it is, stays, and so does all else.
    /// Where it fails the disk is given back, with all that was kept there, and with the ledger or without.
    pub fn create(disk: D, alloc: Global) -> Result<DirShelf<D>, Unopened<D>>
        ensures honest { IsHonest (D.faithful disk) Standing.Unsettled (D.state disk) → IsBegun (D.state disk).fate → IfOk result
            (λ shelf. IsHonest (D.faithful shelf.folder.disk) shelf.folder.standing (D.state shelf.folder.disk) × HasLedger (D.state shelf.folder.disk).fate) }
        ensures makes { IsHonest (D.faithful disk) Standing.Unsettled (D.state disk) → IfOk result
            (λ shelf. IsHonest (D.faithful shelf.folder.disk) shelf.folder.standing (D.state shelf.folder.disk) × BeginsLedger (D.state disk) (D.state shelf.folder.disk)) }
        ensures empty { IsHonest (D.faithful disk) Standing.Unsettled (D.state disk) → IsBegun (D.state disk).fate
            → IfOk result (λ shelf. spelled (D.state shelf.folder.disk).fate ≡ empty) }
        ensures kept { IsHonest (D.faithful disk) Standing.Unsettled (D.state disk) → IfErr result
            (λ e. (Stays (D.state disk) (D.state e.disk) ⊎ BeginsLedger (D.state disk) (D.state e.disk))
            × IsHonest (D.faithful e.disk) Standing.Unsettled (D.state e.disk)) }
        ensures cause { IfErr result (λ e. IsCaused (D.failed disk) e.error (D.failed e.disk)) }
        ensures count { IfOk result (λ shelf. D.failed disk ≤ D.failed shelf.folder.disk) }
        ensures anew { IfOk result (λ shelf. shelf.folder.has_failed ≡ false) }
    {
        let mut folder = make_folders(disk)?;
        match begin_ledger(&mut folder, alloc) {
            Ok(()) => Ok(DirShelf { folder, alloc }),
            Err(error) => {
                let Folder { disk, .. } = folder;
                Err(Unopened { disk, error })
            }
        }
    }
}
