//! A shelf whose store only appends.

ghost use Rattle.std.specs.Prelude.{◌≡◌};

use crate::shelves::{Page, Shelf, ShelfError, Slice};
use repo_locks::Ledger;
use repo_name::{Bytes, Kind, Name, Token};

/// A shelf around another, whose store only appends: no request deletes an object of it.
///
/// It is the answer to a request that refuses so. The shelf itself says that its store only appends, and
/// passes all calls down, removals too.
#[derive(Debug, Drop)]
pub struct AppendOnly<S> {
    inner: S,
}

impl<S> AppendOnly<S> {
    /// A shelf around this one. It takes no memory.
    pub fn new(inner: S) -> AppendOnly<S>
        ensures { result ≡ record { inner = inner } }
    {
        AppendOnly { inner }
    }

    /// The shelf that it is around.
    pub fn into_inner(self) -> S
        ensures { result ≡ self.inner }
    {
        self.inner
    }
}

impl<S: Shelf> Shelf for AppendOnly<S> {
    ghost use Rattle.repo_store.specs.Stores.{appending};

    ghost store = { λ a. appending (S.store a.inner) };

    ghost failed = { λ a. S.failed a.inner };

    ghost armed = { λ a. S.armed a.inner };

    ghost own = { λ a. S.own a.inner };

    ghost reads = { λ a. S.reads a.inner };

    ghost writes = { λ a. S.writes a.inner };

    ghost faults = { λ a. S.faults a.inner };

    ghost honest = { λ a. S.honest a.inner };

    fn get(&mut self, kind: Kind, name: &Name) -> Result<Option<Bytes>, ShelfError> {
        self.inner.get(kind, name)
    }

    fn range(&mut self, pack: &Name, offset: u32, length: u32) -> Result<Slice, ShelfError> {
        self.inner.range(pack, offset, length)
    }

    fn put(&mut self, kind: Kind, name: &Name, bytes: &[u8]) -> Result<(), ShelfError> {
        self.inner.put(kind, name, bytes)
    }

    fn remove(&mut self, kind: Kind, name: &Name) -> Result<(), ShelfError> {
        self.inner.remove(kind, name)
    }

    fn names_after(
        &mut self,
        kind: Kind,
        after: Option<&Name>,
        limit: usize,
    ) -> Result<Page, ShelfError> {
        self.inner.names_after(kind, after, limit)
    }

    fn ledger(&mut self) -> Result<Ledger, ShelfError> {
        self.inner.ledger()
    }

    fn live_as(&mut self, token: Token) -> Result<Option<bool>, ShelfError> {
        self.inner.live_as(token)
    }

    fn save_ledger(&mut self, ledger: &Ledger) -> Result<(), ShelfError> {
        self.inner.save_ledger(ledger)
    }

    fn config(&mut self) -> Result<Option<Bytes>, ShelfError> {
        self.inner.config()
    }

    fn save_config(&mut self, bytes: &[u8]) -> Result<(), ShelfError> {
        self.inner.save_config(bytes)
    }

    fn failures(&self) -> u64 {
        self.inner.failures()
    }

    fn append_only(&self) -> bool {
        true
    }
}
