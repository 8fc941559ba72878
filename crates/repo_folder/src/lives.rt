//! A store's folder after the power was cut, or its program was killed.

ghost use Rattle.std.specs.Prelude.{◌≡◌, ◌≤◌, false, IfOk, IfErr};
ghost use Rattle.repo_disk.specs.Disks.{IsCut};
ghost use Rattle.repo_folder.specs.Folders.{IsHonest, Stays};
ghost use Rattle.repo_folder.specs.Spelling.{spelled, HasLedger, IsCaused};
ghost use Rattle.repo_folder.specs.declared.folders.Standing.{Standing};

use crate::dir_shelf::DirShelf;
use crate::folders::Folder;
use crate::telling::told;
use crate::unopened::Unopened;
use repo_disk::{Cuts, Disk};
use std::alloc::Global;

impl<D: Disk + Drop> DirShelf<D> {
    /// The shelf of a store's folder on this disk, whatever happened there before. All that is visible lasts then;
    /// where that can't be brought about, the disk's failure is told, and the disk given back, with what was kept there.
    pub fn open(disk: D, alloc: Global) -> Result<DirShelf<D>, Unopened<D>>
        ensures honest { IsHonest (D.faithful disk) Standing.Unsettled (D.state disk)
            → IfOk result (λ shelf. IsHonest (D.faithful shelf.folder.disk) shelf.folder.standing (D.state shelf.folder.disk)) }
        ensures ledger { IsHonest (D.faithful disk) Standing.Unsettled (D.state disk) → HasLedger (D.state disk).fate
            → IfOk result (λ shelf. HasLedger (D.state shelf.folder.disk).fate) }
        ensures same { IsHonest (D.faithful disk) Standing.Unsettled (D.state disk)
            → IfOk result (λ shelf. spelled (D.state shelf.folder.disk).fate ≡ spelled (D.state disk).fate) }
        ensures stays { IsHonest (D.faithful disk) Standing.Unsettled (D.state disk) → IfOk result (λ shelf. Stays (D.state disk) (D.state shelf.folder.disk)) }
        ensures settled { IfOk result (λ shelf. shelf.folder.standing ≡ Standing.Settled) }
        ensures anew { IfOk result (λ shelf. shelf.folder.has_failed ≡ false) }
        ensures kept { IsHonest (D.faithful disk) Standing.Unsettled (D.state disk) → IfErr result
            (λ e. Stays (D.state disk) (D.state e.disk) × IsHonest (D.faithful e.disk) Standing.Unsettled (D.state e.disk)) }
        ensures cause { IfErr result (λ e. IsCaused (D.failed disk) e.error (D.failed e.disk)) }
        ensures count { IfOk result (λ shelf. D.failed disk ≤ D.failed shelf.folder.disk) }
    {
        let mut folder = Folder::of(disk);
        match told(folder.settle()) {
            Ok(()) => Ok(DirShelf { folder, alloc }),
            Err(error) => {
                let Folder { disk, .. } = folder;
                Err(Unopened { disk, error })
            }
        }
    }

    /// The disk of a shelf that is closed.
    pub fn close(self) -> D
        ensures { result ≡ self.folder.disk }
    {
        let DirShelf { folder, .. } = self;
        let Folder { disk, .. } = folder;
        disk
    }

    /// The program is killed, whatever happened before, and starts again: the disk and the store are the same, and nothing
    /// is known of what lasts, nor of what failed.
    pub fn kill(self) -> DirShelf<D>
        ensures anew { result.folder ≡ record { disk = self.folder.disk; standing = Standing.Unsettled; has_failed = false } }
        ensures honest { IsHonest (D.faithful self.folder.disk) self.folder.standing (D.state self.folder.disk)
            → IsHonest (D.faithful result.folder.disk) result.folder.standing (D.state result.folder.disk) }
        ensures ledger { HasLedger (D.state self.folder.disk).fate → HasLedger (D.state result.folder.disk).fate }
        ensures same { IsHonest (D.faithful self.folder.disk) self.folder.standing (D.state self.folder.disk)
            → spelled (D.state result.folder.disk).fate ≡ spelled (D.state self.folder.disk).fate }
    {
        let DirShelf { folder, alloc } = self;
        let Folder { disk, .. } = folder;
        DirShelf {
            folder: Folder::of(disk),
            alloc,
        }
    }
}

impl<D: Cuts + Drop> DirShelf<D> {
    /// The power is cut, whatever happened before, and comes back: the disk is as a cut leaves it, the store is the same,
    /// and nothing is known of what lasts, nor of what failed.
    pub fn cut(self) -> DirShelf<D>
        ensures cut { D.faithful self.folder.disk → IsCut (D.state self.folder.disk) (D.state result.folder.disk) }
        ensures anew { (result.folder.standing ≡ Standing.Unsettled) × (result.folder.has_failed ≡ false) }
        ensures honest { IsHonest (D.faithful self.folder.disk) self.folder.standing (D.state self.folder.disk)
            → IsHonest (D.faithful result.folder.disk) result.folder.standing (D.state result.folder.disk) }
        ensures ledger { D.faithful self.folder.disk → HasLedger (D.state self.folder.disk).fate → HasLedger (D.state result.folder.disk).fate }
        ensures same { IsHonest (D.faithful self.folder.disk) self.folder.standing (D.state self.folder.disk)
            → spelled (D.state result.folder.disk).fate ≡ spelled (D.state self.folder.disk).fate }
    {
        let DirShelf { folder, alloc } = self;
        let Folder { disk, .. } = folder;
        DirShelf {
            folder: Folder::of(disk.cut()),
            alloc,
        }
    }
}
