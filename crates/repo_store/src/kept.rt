//! A shelf that remembers.

ghost use Rattle.std.specs.Prelude.{◌≡◌, ◌≤◌};
ghost use Rattle.repo_store.specs.Kept.{nothing, armed_as};
ghost use Rattle.repo_store.specs.declared.faults.Armed.{Armed};
ghost use Rattle.repo_store.specs.declared.shelves.ShelfError.{ShelfError};

use crate::faults::{Fail, FaultShelf};
use crate::known::Known;
use crate::memory::page_after;
use crate::pages::all_names;
use crate::shelves::{Page, Shelf, ShelfError, Slice};
use repo_locks::Ledger;
use repo_name::{Bytes, Kind, Name, Token};
use std::alloc::Global;

/// A shelf around another, which reads the ledger and the names of each kind once, and remembers them. So
/// nobody else may write to the inner shelf.
///
/// It begins not knowing them, and doesn't know them again after a writing call that failed. Objects and the
/// config are read each time.
#[derive(Debug, Drop)]
pub struct Kept<S> {
    inner: S,
    known: Known,
    alloc: Global,
}

impl<S> Kept<S> {
    /// A shelf around this one, which knows nothing. It takes no memory.
    pub fn new(alloc: Global, inner: S) -> Kept<S>
        ensures { result ≡ record { inner = inner; known = nothing; alloc = alloc } }
    {
        Kept {
            inner,
            known: Known::nothing(),
            alloc,
        }
    }

    /// The shelf that it is around.
    pub fn into_inner(self) -> S
        ensures { result ≡ self.inner }
    {
        self.inner
    }

    /// Forgets what was remembered. It takes no memory.
    pub fn forget(&mut self)
        ensures { self.new ≡ record { inner = self.old.inner; known = nothing; alloc = self.old.alloc } }
    {
        self.known = Known::nothing();
    }

    /// After a writing call of the inner shelf that failed: whether its change was made isn't known.
    fn failed(&mut self, error: ShelfError) -> ShelfError
        ensures error { result ≡ error }
        ensures inner { self.new.inner ≡ self.old.inner }
        ensures fault { error ≡ ShelfError.Fault → self.new.known ≡ nothing }
        ensures memory { error ≡ ShelfError.Memory → self.new.known ≡ self.old.known }
    {
        match error {
            ShelfError::Fault => self.forget(),
            ShelfError::Memory => {}
        }
        error
    }
}

impl<S> Kept<FaultShelf<S>> {
    /// Arms the inner shelf's next call of a sort, in place of what was armed. It waits for its call.
    pub fn arm(&mut self, fail: Fail)
        ensures { self.new ≡ armed_as (Armed.Next fail) self.old }
    {
        self.inner.arm(fail);
    }

    /// Arms the inner shelf's call of this number from now, counted from 1, in place of what was armed. If it
    /// is a writing one its change is made where `applied`.
    pub fn arm_at(&mut self, number: u64, applied: bool)
        requires { 1 ≤ number }
        ensures { self.new ≡ armed_as (Armed.Call number applied) self.old }
    {
        self.inner.arm_at(number, applied);
    }

    /// Arms nothing.
    pub fn disarm(&mut self)
        ensures { self.new ≡ armed_as Armed.Nothing self.old }
    {
        self.inner.disarm();
    }
}

impl<S: Shelf> Shelf for Kept<S> {
    ghost use Rattle.repo_store.specs.Kept.{Agrees};

    ghost store = { λ k. S.store k.inner };

    ghost failed = { λ k. S.failed k.inner };

    ghost armed = { λ k. S.armed k.inner };

    ghost own = { λ k. S.own k.inner };

    ghost reads = { λ k. S.reads k.inner };

    ghost writes = { λ k. S.writes k.inner };

    ghost faults = { λ k. S.faults k.inner };

    ghost honest = { λ k. S.honest k.inner × Agrees k.known (S.store k.inner) };

    fn get(&mut self, kind: Kind, name: &Name) -> Result<Option<Bytes>, ShelfError> {
        self.inner.get(kind, name)
    }

    fn range(&mut self, pack: &Name, offset: u32, length: u32) -> Result<Slice, ShelfError> {
        self.inner.range(pack, offset, length)
    }

    fn put(&mut self, kind: Kind, name: &Name, bytes: &[u8]) -> Result<(), ShelfError> {
        let added = self.known.note(kind, name)?;
        match self.inner.put(kind, name, bytes) {
            Ok(()) => Ok(()),
            Err(error) => {
                self.known.take_back(kind, name, added);
                Err(self.failed(error))
            }
        }
    }

    fn remove(&mut self, kind: Kind, name: &Name) -> Result<(), ShelfError> {
        match self.inner.remove(kind, name) {
            Ok(()) => {
                self.known.strike(kind, name);
                Ok(())
            }
            Err(error) => Err(self.failed(error)),
        }
    }

    fn names_after(
        &mut self,
        kind: Kind,
        after: Option<&Name>,
        limit: usize,
    ) -> Result<Page, ShelfError> {
        if let Some(names) = self.known.names(kind) {
            return Ok(page_after(self.alloc, names, after, limit)?);
        }
        let names = all_names(self.alloc, &mut self.inner, kind)?;
        let page = page_after(self.alloc, &names, after, limit);
        self.known.learn(kind, names);
        Ok(page?)
    }

    fn ledger(&mut self) -> Result<Ledger, ShelfError> {
        if let Some(ledger) = &self.known.ledger {
            return Ok(ledger.copy()?);
        }
        let ledger = self.inner.ledger()?;
        let copied = ledger.copy();
        self.known.ledger = Some(ledger);
        Ok(copied?)
    }

    fn live_as(&mut self, token: Token) -> Result<Option<bool>, ShelfError> {
        if let Some(ledger) = &self.known.ledger {
            return Ok(ledger.live_as(token));
        }
        let ledger = self.inner.ledger()?;
        let live = ledger.live_as(token);
        self.known.ledger = Some(ledger);
        Ok(live)
    }

    fn save_ledger(&mut self, ledger: &Ledger) -> Result<(), ShelfError> {
        let copied = ledger.copy()?;
        match self.inner.save_ledger(ledger) {
            Ok(()) => {
                self.known.ledger = Some(copied);
                Ok(())
            }
            Err(error) => Err(self.failed(error)),
        }
    }

    fn config(&mut self) -> Result<Option<Bytes>, ShelfError> {
        self.inner.config()
    }

    fn save_config(&mut self, bytes: &[u8]) -> Result<(), ShelfError> {
        match self.inner.save_config(bytes) {
            Ok(()) => Ok(()),
            Err(error) => Err(self.failed(error)),
        }
    }

    fn failures(&self) -> u64 {
        self.inner.failures()
    }

    fn append_only(&self) -> bool {
        self.inner.append_only()
    }
}
