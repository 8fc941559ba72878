//! The device that a store keeps everything on.

ghost use Rattle.std.specs.Prelude.{◌≡◌, ◌≤◌, ◌+◌, ℕ, length, option_map, All, IfOk};
ghost use Rattle.repo_name.specs.declared.kinds.Kind.{Kind};
ghost use Rattle.repo_name.specs.Naming.{IsName};
ghost use Rattle.repo_locks.specs.TokenMachine.{live_as};
ghost use Rattle.repo_store.specs.Faults.{ReadsAsArmed, MayReadAsArmed, MakesAsArmed};
ghost use Rattle.repo_store.specs.Laws.{Reads, Writes, HasCause, CountsFaults};
ghost use Rattle.repo_store.specs.Pages.{ReadsPage};
ghost use Rattle.repo_store.specs.Slices.{IsSlice, HasLength};
ghost use Rattle.repo_store.specs.declared.faults.Armed.{Armed};
ghost use Rattle.repo_store.specs.Stores.{Store, PutsObject, RemovesObject, SavesTokens, SavesConfig};

use repo_locks::Ledger;
use repo_name::{Bytes, Kind, Name, Names, Token};
use std::alloc::AllocError;
use thiserror::Error;

/// Why a shelf's call failed.
#[derive(Clone, Copy, Debug, PartialEq, Eq, Error)]
pub enum ShelfError {
    /// The device failed. A writing call may have made its change, whole, or not.
    #[error("shelf failed")]
    Fault,
    /// There was no memory. Nothing changed.
    #[error("out of memory")]
    Memory,
}

impl From<AllocError> for ShelfError {
    ghost use Rattle.std.specs.Prelude.{◌≡◌};
    ghost use Rattle.repo_store.specs.declared.shelves.ShelfError.{ShelfError};

    ghost from_gives = { λ e r. r ≡ ShelfError.Memory };

    fn from(_: AllocError) -> ShelfError {
        ShelfError::Memory
    }
}

/// What a device has of a pack at an offset and a length.
#[derive(Debug, Drop, PartialEq)]
pub enum Slice {
    /// Those bytes.
    Found(Bytes),
    /// There is no such pack.
    Missing,
    /// The pack ends before the last of these bytes.
    Outside,
}

/// The least names of a kind after a given one, ascending, and whether more follow.
#[derive(Debug, Drop, PartialEq)]
pub struct Page {
    pub names: Names,
    pub more: bool,
}

/// A device that keeps a store. What its calls promise holds where it is honest, which each call keeps.
pub trait Shelf {
    /// What is stored.
    ghost store: { Self → Store };
    /// How many calls have failed by the device's own fault.
    ghost failed: { Self → ℕ };
    /// The call that is to fail, as it was told to.
    ghost armed: { Self → Armed };
    /// How many calls have failed that weren't told to.
    ghost own: { Self → ℕ };
    /// How many reading calls were made, as far as the device counts them.
    ghost reads: { Self → ℕ };
    /// How many writing calls were made, as far as the device counts them.
    ghost writes: { Self → ℕ };
    /// How many calls told a fault, as far as the device counts them.
    ghost faults: { Self → ℕ };
    /// The device keeps what it was given.
    ghost honest: { Self → Type 0 };

    /// An object's bytes, whole. It changes nothing but the count of failures.
    fn get(&mut self, kind: Kind, name: &Name) -> Result<Option<Bytes>, ShelfError>
        ensures law { honest self.old → Reads (λ found. found ≡ (store self.old).objects kind name.now) (store self.old) result (store self.new) }
        ensures cause { honest self.old → HasCause (failed self.old) result (failed self.new) }
        ensures armed { honest self.old → ReadsAsArmed (armed self.old) (own self.old) result (armed self.new) (own self.new) }
        ensures honest { honest self.old → honest self.new }
        ensures told { CountsFaults (faults self.old) result (faults self.new) }
        ensures read { reads self.new ≤ reads self.old + 1 }
        ensures quiet { writes self.new ≡ writes self.old };

    /// So many bytes of a pack at an offset. It changes nothing but the count of failures.
    fn range(&mut self, pack: &Name, offset: u32, length: u32) -> Result<Slice, ShelfError>
        ensures law { honest self.old → Reads (IsSlice ((store self.old).objects Kind.Pack pack.now) offset length) (store self.old) result (store self.new) }
        ensures cause { honest self.old → HasCause (failed self.old) result (failed self.new) }
        ensures armed { honest self.old → ReadsAsArmed (armed self.old) (own self.old) result (armed self.new) (own self.new) }
        ensures honest { honest self.old → honest self.new }
        ensures told { CountsFaults (faults self.old) result (faults self.new) }
        ensures read { reads self.new ≤ reads self.old + 1 }
        ensures quiet { writes self.new ≡ writes self.old }
        ensures length { IfOk result (HasLength length) };

    /// Puts an object, where none has its kind and name; else nothing changes. After a fault it may be
    /// there or not.
    fn put(&mut self, kind: Kind, name: &Name, bytes: &[u8]) -> Result<(), ShelfError>
        ensures law { honest self.old → Writes (PutsObject kind name.now bytes.now) (store self.old) result (store self.new) }
        ensures cause { honest self.old → HasCause (failed self.old) result (failed self.new) }
        ensures armed { MakesAsArmed honest armed own store (PutsObject kind name.now bytes.now) self.old result self.new }
        ensures honest { honest self.old → honest self.new }
        ensures told { CountsFaults (faults self.old) result (faults self.new) }
        ensures unread { reads self.new ≡ reads self.old }
        ensures once { writes self.new ≤ writes self.old + 1 };

    /// Removes an object, if there is one. After a fault it may be there or not.
    fn remove(&mut self, kind: Kind, name: &Name) -> Result<(), ShelfError>
        ensures law { honest self.old → Writes (RemovesObject kind name.now) (store self.old) result (store self.new) }
        ensures cause { honest self.old → HasCause (failed self.old) result (failed self.new) }
        ensures armed { MakesAsArmed honest armed own store (RemovesObject kind name.now) self.old result self.new }
        ensures honest { honest self.old → honest self.new }
        ensures told { CountsFaults (faults self.old) result (faults self.new) }
        ensures unread { reads self.new ≡ reads self.old }
        ensures once { writes self.new ≤ writes self.old + 1 };

    /// The least names of a kind after the given one, at most `limit`. It changes nothing but the count
    /// of failures.
    fn names_after(
        &mut self,
        kind: Kind,
        after: Option<&Name>,
        limit: usize,
    ) -> Result<Page, ShelfError>
        ensures law { honest self.old → ReadsPage kind (option_map (λ name. name.now) after.entry) limit (store self.old) result (store self.new) }
        ensures cause { honest self.old → HasCause (failed self.old) result (failed self.new) }
        ensures armed { honest self.old → MayReadAsArmed (armed self.old) (own self.old) result (armed self.new) (own self.new) }
        ensures honest { honest self.old → honest self.new }
        ensures told { CountsFaults (faults self.old) result (faults self.new) }
        ensures read { reads self.new ≤ reads self.old + 1 }
        ensures quiet { writes self.new ≡ writes self.old }
        ensures few { IfOk result (λ page. length page.names ≤ limit) }
        ensures names { IfOk result (λ page. All IsName page.names) };

    /// The ledger, as it was saved last. It changes nothing but the count of failures.
    fn ledger(&mut self) -> Result<Ledger, ShelfError>
        ensures law { honest self.old → Reads (λ ledger. ledger ≡ (store self.old).tokens) (store self.old) result (store self.new) }
        ensures cause { honest self.old → HasCause (failed self.old) result (failed self.new) }
        ensures armed { honest self.old → MayReadAsArmed (armed self.old) (own self.old) result (armed self.new) (own self.new) }
        ensures honest { honest self.old → honest self.new }
        ensures told { CountsFaults (faults self.old) result (faults self.new) }
        ensures read { reads self.new ≤ reads self.old + 1 }
        ensures quiet { writes self.new ≡ writes self.old };

    /// How a token's lock is live, by the ledger as it was saved last: `None` where it isn't, else whether it is
    /// exclusive. It changes nothing but the count of failures.
    fn live_as(&mut self, token: Token) -> Result<Option<bool>, ShelfError>
        ensures law { honest self.old → Reads (λ live. live ≡ live_as (store self.old).tokens token) (store self.old) result (store self.new) }
        ensures cause { honest self.old → HasCause (failed self.old) result (failed self.new) }
        ensures armed { honest self.old → MayReadAsArmed (armed self.old) (own self.old) result (armed self.new) (own self.new) }
        ensures honest { honest self.old → honest self.new }
        ensures told { CountsFaults (faults self.old) result (faults self.new) }
        ensures read { reads self.new ≤ reads self.old + 1 }
        ensures quiet { writes self.new ≡ writes self.old };

    /// Keeps the ledger in place of the one before. After a fault it may be kept or not.
    fn save_ledger(&mut self, ledger: &Ledger) -> Result<(), ShelfError>
        ensures law { honest self.old → Writes (SavesTokens ledger.now) (store self.old) result (store self.new) }
        ensures cause { honest self.old → HasCause (failed self.old) result (failed self.new) }
        ensures armed { MakesAsArmed honest armed own store (SavesTokens ledger.now) self.old result self.new }
        ensures honest { honest self.old → honest self.new }
        ensures told { CountsFaults (faults self.old) result (faults self.new) }
        ensures unread { reads self.new ≡ reads self.old }
        ensures once { writes self.new ≤ writes self.old + 1 };

    /// The config's bytes, if there is one. It changes nothing but the count of failures.
    fn config(&mut self) -> Result<Option<Bytes>, ShelfError>
        ensures law { honest self.old → Reads (λ found. found ≡ (store self.old).config) (store self.old) result (store self.new) }
        ensures cause { honest self.old → HasCause (failed self.old) result (failed self.new) }
        ensures armed { honest self.old → ReadsAsArmed (armed self.old) (own self.old) result (armed self.new) (own self.new) }
        ensures honest { honest self.old → honest self.new }
        ensures told { CountsFaults (faults self.old) result (faults self.new) }
        ensures read { reads self.new ≤ reads self.old + 1 }
        ensures quiet { writes self.new ≡ writes self.old };

    /// Keeps these bytes as the config. After a fault they may be kept or not.
    fn save_config(&mut self, bytes: &[u8]) -> Result<(), ShelfError>
        ensures law { honest self.old → Writes (SavesConfig bytes.now) (store self.old) result (store self.new) }
        ensures cause { honest self.old → HasCause (failed self.old) result (failed self.new) }
        ensures armed { MakesAsArmed honest armed own store (SavesConfig bytes.now) self.old result self.new }
        ensures honest { honest self.old → honest self.new }
        ensures told { CountsFaults (faults self.old) result (faults self.new) }
        ensures unread { reads self.new ≡ reads self.old }
        ensures once { writes self.new ≤ writes self.old + 1 };

    /// How many calls have failed by the device's own fault. At its greatest the count stays.
    fn failures(&self) -> u64
        ensures { result ≡ failed self.now };

    /// Whether the store only appends: it refuses to delete any object. No call changes it.
    fn append_only(&self) -> bool
        ensures { honest self.now → result ≡ (store self.now).append_only };
}
