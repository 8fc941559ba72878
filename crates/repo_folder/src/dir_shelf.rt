//! The shelf in a folder.

ghost use Rattle.std.specs.Prelude.{◌≡◌, ◌≢◌, ◌≤◌, ℕ, List, length, All, IfOk, IsErrOf, Option, Some, option_map};
ghost use Rattle.repo_name.specs.Naming.{IsName};
ghost use Rattle.repo_disk.specs.Disks.{IsPart};
ghost use Rattle.repo_disk.specs.Disks as disks;
ghost use Rattle.repo_locks.specs.Lawful.{IsLedger};
ghost use Rattle.repo_locks.specs.LedgerBytes.{ledger_bytes};
ghost use Rattle.repo_locks.specs.TokenMachine.{Tokens, live_as};
ghost use Rattle.repo_store.specs.Laws.{Reads, HasCause};
ghost use Rattle.repo_store.specs.Slices.{IsSlice, HasLength};
ghost use Rattle.repo_store.specs.declared.shelves.ShelfError.{ShelfError};
ghost use Rattle.repo_folder.specs.Folders.{IsHonest, Stays};
ghost use Rattle.repo_folder.specs.Spelling.{spelled, Stands, HasLedger, StandsLive};

use crate::folders::Folder;
use crate::places::{CONFIG, CONFIG_DRAFT, LEDGER, LEDGER_DRAFT, draft_of, room_of};
use crate::telling::told;
use repo_disk::{Disk, Part, Room};
use repo_locks::{Ledger, LedgerError};
use repo_name::{Bytes, Kind, Name, Token};
use repo_store::{Page, Shelf, ShelfError, Slice};
use std::alloc::Global;

/// A shelf that keeps a store in a folder on a disk.
///
/// Each call first makes sure that all that is visible lasts: after a change that failed, and before the first call
/// where it was killed or cut off, it syncs all folders, and is a `Fault` where one can't be synced. A ledger that isn't
/// there, or whose bytes are no ledger's, is a `Fault`, too, which an honest shelf never meets.
#[derive(Debug, Drop)]
pub struct DirShelf<D> {
    pub folder: Folder<D>,
    pub alloc: Global,
}

/// A part of a file, as a shelf tells it of a pack.
fn slice_of(part: Part) -> Slice
    ensures slice { (file : Option (List ℕ)) (offset len : ℕ) → IsPart file offset len part → IsSlice file offset len result }
    ensures length { (len : ℕ) → disks.HasLength len part → HasLength len result }
{
    match part {
        Part::Found(bytes) => Slice::Found(bytes),
        Part::Missing => Slice::Missing,
        Part::Outside => Slice::Outside,
    }
}

/// The ledger of a file, if there is one. It is `Fault` only where the bytes are no ledger's.
fn ledger_of(alloc: Global, file: Option<Bytes>) -> Result<Ledger, ShelfError>
    ensures ok { (l : Tokens) → IsLedger l → file ≡ Some (ledger_bytes l) → IfOk result (λ ledger. ledger ≡ l) }
    ensures read { IfOk result (λ ledger. IsLedger ledger × (file ≡ Some (ledger_bytes ledger))) }
    ensures fault { IsErrOf result ShelfError.Fault → (l : Tokens) → IsLedger l → file ≢ Some (ledger_bytes l) }
{
    let Some(bytes) = file else {
        return Err(ShelfError::Fault);
    };
    match Ledger::read(alloc, bytes.as_slice()) {
        Ok(ledger) => Ok(ledger),
        Err(LedgerError::Memory) => Err(ShelfError::Memory),
        Err(LedgerError::Shape) => Err(ShelfError::Fault),
    }
}

impl<D: Disk> Shelf for DirShelf<D> {
    ghost use Rattle.repo_folder.specs.Folders.{IsHonest};
    ghost use Rattle.repo_folder.specs.Spelling.{spelled, HasLedger};
    ghost use Rattle.repo_store.specs.declared.faults.Armed.{Armed};

    ghost store = { λ d. spelled (D.state d.folder.disk).fate };

    ghost failed = { λ d. D.failed d.folder.disk };

    ghost armed = { λ d. Armed.Nothing };

    ghost own = { λ d. D.failed d.folder.disk };

    ghost reads = { λ d. 0 };

    ghost writes = { λ d. 0 };

    ghost faults = { λ d. 0 };

    ghost honest = { λ d. IsHonest (D.faithful d.folder.disk) d.folder.standing (D.state d.folder.disk) × HasLedger (D.state d.folder.disk).fate };

    fn get(&mut self, kind: Kind, name: &Name) -> Result<Option<Bytes>, ShelfError> {
        let file = name.to_hex(self.alloc)?;
        told(self.folder.read(room_of(kind, name), file.as_str()))
    }

    fn range(&mut self, pack: &Name, offset: u32, length: u32) -> Result<Slice, ShelfError> {
        let file = pack.to_hex(self.alloc)?;
        let room = room_of(Kind::Pack, pack);
        match told(self.folder.read_part(room, file.as_str(), offset, length)) {
            Ok(part) => Ok(slice_of(part)),
            Err(error) => Err(error),
        }
    }

    fn put(&mut self, kind: Kind, name: &Name, bytes: &[u8]) -> Result<(), ShelfError> {
        let file = name.to_hex(self.alloc)?;
        let draft = draft_of(self.alloc, file.as_str())?;
        told(
            self.folder
                .put(draft.as_str(), room_of(kind, name), file.as_str(), bytes),
        )
    }

    fn remove(&mut self, kind: Kind, name: &Name) -> Result<(), ShelfError> {
        let file = name.to_hex(self.alloc)?;
        told(self.folder.take(room_of(kind, name), file.as_str()))
    }

    fn names_after(
        &mut self,
        kind: Kind,
        after: Option<&Name>,
        limit: usize,
    ) -> Result<Page, ShelfError> {
        match kind {
            Kind::Pack => self.pack_page(after, limit),
            Kind::Index => self.room_page(kind, Room::Indexes, after, limit),
            Kind::Snapshot => self.room_page(kind, Room::Snapshots, after, limit),
        }
    }

    /// The ledger that stands in its file: where none does, none is given.
    fn ledger(&mut self) -> Result<Ledger, ShelfError>
        ensures stands { IsHonest (D.faithful self.old.folder.disk) self.old.folder.standing (D.state self.old.folder.disk) → IfOk result (Stands (D.state self.old.folder.disk).fate) }
        ensures stays { IsHonest (D.faithful self.old.folder.disk) self.old.folder.standing (D.state self.old.folder.disk) → Stays (D.state self.old.folder.disk) (D.state self.new.folder.disk) }
        ensures steady { IsHonest (D.faithful self.old.folder.disk) self.old.folder.standing (D.state self.old.folder.disk)
            → IsHonest (D.faithful self.new.folder.disk) self.new.folder.standing (D.state self.new.folder.disk) }
        ensures law { IsHonest (D.faithful self.old.folder.disk) self.old.folder.standing (D.state self.old.folder.disk) × HasLedger (D.state self.old.folder.disk).fate
            → Reads (λ ledger. ledger ≡ (spelled (D.state self.old.folder.disk).fate).tokens) (spelled (D.state self.old.folder.disk).fate) result (spelled (D.state self.new.folder.disk).fate) }
        ensures cause { IsHonest (D.faithful self.old.folder.disk) self.old.folder.standing (D.state self.old.folder.disk) × HasLedger (D.state self.old.folder.disk).fate
            → HasCause (D.failed self.old.folder.disk) result (D.failed self.new.folder.disk) }
    {
        let bytes = told(self.folder.read(Room::Top, LEDGER))?;
        ledger_of(self.alloc, bytes)
    }

    fn live_as(&mut self, token: Token) -> Result<Option<bool>, ShelfError>
        ensures stands { IsHonest (D.faithful self.old.folder.disk) self.old.folder.standing (D.state self.old.folder.disk) → IfOk result (StandsLive (D.state self.old.folder.disk).fate token) }
        ensures stays { IsHonest (D.faithful self.old.folder.disk) self.old.folder.standing (D.state self.old.folder.disk) → Stays (D.state self.old.folder.disk) (D.state self.new.folder.disk) }
        ensures steady { IsHonest (D.faithful self.old.folder.disk) self.old.folder.standing (D.state self.old.folder.disk)
            → IsHonest (D.faithful self.new.folder.disk) self.new.folder.standing (D.state self.new.folder.disk) }
        ensures law { IsHonest (D.faithful self.old.folder.disk) self.old.folder.standing (D.state self.old.folder.disk) × HasLedger (D.state self.old.folder.disk).fate
            → Reads (λ live. live ≡ live_as (spelled (D.state self.old.folder.disk).fate).tokens token) (spelled (D.state self.old.folder.disk).fate) result (spelled (D.state self.new.folder.disk).fate) }
        ensures cause { IsHonest (D.faithful self.old.folder.disk) self.old.folder.standing (D.state self.old.folder.disk) × HasLedger (D.state self.old.folder.disk).fate
            → HasCause (D.failed self.old.folder.disk) result (D.failed self.new.folder.disk) }
    {
        Ok(self.ledger()?.live_as(token))
    }

    fn save_ledger(&mut self, ledger: &Ledger) -> Result<(), ShelfError> {
        let bytes = ledger.write()?;
        told(
            self.folder
                .keep(LEDGER_DRAFT, Room::Top, LEDGER, bytes.as_slice()),
        )
    }

    fn config(&mut self) -> Result<Option<Bytes>, ShelfError> {
        told(self.folder.read(Room::Top, CONFIG))
    }

    fn save_config(&mut self, bytes: &[u8]) -> Result<(), ShelfError> {
        told(self.folder.keep(CONFIG_DRAFT, Room::Top, CONFIG, bytes))
    }

    fn failures(&self) -> u64 {
        self.folder.disk.failures()
    }

    fn append_only(&self) -> bool {
        false
    }
}
