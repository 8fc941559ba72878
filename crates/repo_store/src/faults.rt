//! A shelf that fails as it is told, around another.

ghost use Rattle.std.specs.Prelude.{◌≡◌, ◌≢◌, ◌≤◌, ◌+◌, ◌^◌, ◌-◌, ℕ, min, length, option_map, All, Bool, true, false, Some, None, IfOk, Err, IsErrOf};
ghost use Rattle.repo_name.specs.declared.kinds.Kind.{Kind};
ghost use Rattle.repo_name.specs.Naming.{IsName};
ghost use Rattle.repo_locks.specs.TokenMachine.{live_as};
ghost use Rattle.repo_store.specs.Faults.{fails_reading, fails_writing, one_less, count_of, ReadsAsArmed, ArmIsSpent};
ghost use Rattle.repo_store.specs.Laws.{Reads, Writes, HasCause, CountsFaults};
ghost use Rattle.repo_store.specs.Pages.{ReadsPage};
ghost use Rattle.repo_store.specs.Slices.{IsSlice, HasLength};
ghost use Rattle.repo_store.specs.Stores.{PutsObject, RemovesObject, SavesTokens, SavesConfig};
ghost use Rattle.repo_store.specs.declared.faults.Armed.{Armed};
ghost use Rattle.repo_store.specs.declared.faults.Fail.{Fail};
ghost use Rattle.repo_store.specs.declared.shelves.ShelfError.{ShelfError};

use crate::shelves::{Page, Shelf, ShelfError, Slice};
use repo_locks::Ledger;
use repo_name::{Bytes, Kind, Name, Token};

/// The call that is to fail next.
#[derive(Clone, Copy, Debug, PartialEq, Eq)]
pub enum Fail {
    /// The next reading call.
    Read,
    /// The next writing call: with true its change is made, and a fault is told all the same.
    Write(bool),
}

/// What is armed.
#[derive(Clone, Copy, Debug, PartialEq, Eq)]
pub enum Armed {
    /// No call.
    Nothing,
    /// The next call of a sort.
    Next(Fail),
    /// The call of this number from now, counted from 1. If it is a writing one its change is made or not.
    Call { number: u64, applied: bool },
}

/// A shelf around another, which fails in just the call that was armed, and counts that failure once. All
/// other calls are the inner shelf's.
#[derive(Debug, Drop)]
pub struct FaultShelf<S> {
    inner: S,
    armed: Armed,
    count: u64,
}

impl<S> FaultShelf<S> {
    /// A shelf around this one, with nothing armed.
    pub fn new(inner: S) -> FaultShelf<S>
        ensures { result ≡ record { inner = inner; armed = Armed.Nothing; count = 0 } }
    {
        FaultShelf {
            inner,
            armed: Armed::Nothing,
            count: 0,
        }
    }

    /// Arms the next call of a sort, in place of what was armed. It waits for its call.
    pub fn arm(&mut self, fail: Fail)
        ensures { self.new ≡ record { inner = self.old.inner; armed = Armed.Next fail; count = self.old.count } }
    {
        self.armed = Armed::Next(fail);
    }

    /// Arms the call of this number from now, counted from 1, in place of what was armed. If it is a
    /// writing one its change is made where `applied`.
    pub fn arm_at(&mut self, number: u64, applied: bool)
        requires { 1 ≤ number }
        ensures { self.new ≡ record { inner = self.old.inner; armed = Armed.Call number applied; count = self.old.count } }
    {
        self.armed = Armed::Call { number, applied };
    }

    /// Arms nothing.
    pub fn disarm(&mut self)
        ensures { self.new ≡ record { inner = self.old.inner; armed = Armed.Nothing; count = self.old.count } }
    {
        self.armed = Armed::Nothing;
    }

    /// Counts one failure more, and arms nothing.
    fn fail(&mut self) -> ShelfError
        ensures fault { result ≡ ShelfError.Fault }
        ensures inner { self.new.inner ≡ self.old.inner }
        ensures armed { self.new.armed ≡ Armed.Nothing }
        ensures count { self.new.count ≡ min (self.old.count + 1) (2 ^ 64 - 1) }
    {
        self.armed = Armed::Nothing;
        self.count = self.count.saturating_add(1);
        ShelfError::Fault
    }

    /// The inner shelf failed in the armed call. A fault of its own is told in place of the armed one, and the inner
    /// shelf counts it. Without memory the call is armed still.
    fn failed(&mut self, error: ShelfError) -> ShelfError
        ensures error { result ≡ error }
        ensures inner { self.new.inner ≡ self.old.inner }
        ensures spent { ArmIsSpent self.old.armed (Err error) self.new.armed }
        ensures count { self.new.count ≡ self.old.count }
    {
        match error {
            ShelfError::Fault => self.disarm(),
            ShelfError::Memory => {}
        }
        error
    }

    /// Passes a call that isn't the armed one.
    fn pass(&mut self)
        ensures inner { self.new.inner ≡ self.old.inner }
        ensures armed { self.new.armed ≡ one_less self.old.armed }
        ensures count { self.new.count ≡ self.old.count }
    {
        if let Armed::Call { number, applied } = self.armed {
            let number = number.saturating_sub(1);
            self.armed = Armed::Call { number, applied };
        }
    }

    /// Whether this reading call is the armed one.
    fn fails_reading(&mut self) -> bool
        ensures fails { result ≡ fails_reading self.old.armed }
        ensures inner { self.new.inner ≡ self.old.inner }
        ensures armed { result ≡ true → (self.new.armed ≡ Armed.Nothing) × (self.new.count ≡ min (self.old.count + 1) (2 ^ 64 - 1)) }
        ensures other { result ≡ false → (self.new.armed ≡ one_less self.old.armed) × (self.new.count ≡ self.old.count) }
    {
        match self.armed {
            Armed::Next(Fail::Read) => {}
            Armed::Call { number, .. } if number == 1 => {}
            _ => {
                self.pass();
                return false;
            }
        }
        self.fail();
        true
    }

    /// Whether this writing call is the armed one, and then whether its change is made. Any other one passes.
    fn fails_writing(&mut self) -> Option<bool>
        ensures fails { result ≡ fails_writing self.old.armed }
        ensures inner { self.new.inner ≡ self.old.inner }
        ensures armed { result ≢ None → self.new.armed ≡ self.old.armed }
        ensures other { result ≡ None → self.new.armed ≡ one_less self.old.armed }
        ensures count { self.new.count ≡ self.old.count }
    {
        match self.armed {
            Armed::Next(Fail::Write(applied)) => Some(applied),
            Armed::Call { number, applied } if number == 1 => Some(applied),
            _ => {
                self.pass();
                None
            }
        }
    }
}

impl<S: Shelf> Shelf for FaultShelf<S> {
    ghost use Rattle.repo_store.specs.Faults.{count_of};

    ghost store = { λ f. S.store f.inner };

    ghost failed = { λ f. count_of (S.failed f.inner) f.count };

    ghost armed = { λ f. f.armed };

    ghost own = { λ f. S.failed f.inner };

    ghost reads = { λ f. S.reads f.inner };

    ghost writes = { λ f. S.writes f.inner };

    ghost faults = { λ f. S.faults f.inner + f.count };

    ghost honest = { λ f. S.honest f.inner };

    fn get(&mut self, kind: Kind, name: &Name) -> Result<Option<Bytes>, ShelfError> {
        if self.fails_reading() {
            return Err(ShelfError::Fault);
        }
        self.inner.get(kind, name)
    }

    fn range(&mut self, pack: &Name, offset: u32, length: u32) -> Result<Slice, ShelfError> {
        if self.fails_reading() {
            return Err(ShelfError::Fault);
        }
        self.inner.range(pack, offset, length)
    }

    fn put(&mut self, kind: Kind, name: &Name, bytes: &[u8]) -> Result<(), ShelfError> {
        match self.fails_writing() {
            None => self.inner.put(kind, name, bytes),
            Some(false) => Err(self.fail()),
            Some(true) => match self.inner.put(kind, name, bytes) {
                Ok(()) => Err(self.fail()),
                Err(error) => Err(self.failed(error)),
            },
        }
    }

    fn remove(&mut self, kind: Kind, name: &Name) -> Result<(), ShelfError> {
        match self.fails_writing() {
            None => self.inner.remove(kind, name),
            Some(false) => Err(self.fail()),
            Some(true) => match self.inner.remove(kind, name) {
                Ok(()) => Err(self.fail()),
                Err(error) => Err(self.failed(error)),
            },
        }
    }

    fn names_after(
        &mut self,
        kind: Kind,
        after: Option<&Name>,
        limit: usize,
    ) -> Result<Page, ShelfError>
        ensures law { S.honest self.old.inner → ReadsPage kind (option_map (λ name. name.now) after.entry) limit (S.store self.old.inner) result (S.store self.new.inner) }
        ensures cause { S.honest self.old.inner → HasCause (count_of (S.failed self.old.inner) self.old.count) result (count_of (S.failed self.new.inner) self.new.count) }
        ensures armed { S.honest self.old.inner → ReadsAsArmed self.old.armed (S.failed self.old.inner) result self.new.armed (S.failed self.new.inner) }
        ensures honest { S.honest self.old.inner → S.honest self.new.inner }
        ensures told { CountsFaults (S.faults self.old.inner + self.old.count) result (S.faults self.new.inner + self.new.count) }
        ensures read { S.reads self.new.inner ≤ S.reads self.old.inner + 1 }
        ensures quiet { S.writes self.new.inner ≡ S.writes self.old.inner }
        ensures few { IfOk result (λ page. length page.names ≤ limit) }
        ensures names { IfOk result (λ page. All IsName page.names) }
    {
        if self.fails_reading() {
            return Err(ShelfError::Fault);
        }
        self.inner.names_after(kind, after, limit)
    }

    fn ledger(&mut self) -> Result<Ledger, ShelfError>
        ensures law { S.honest self.old.inner → Reads (λ ledger. ledger ≡ (S.store self.old.inner).tokens) (S.store self.old.inner) result (S.store self.new.inner) }
        ensures cause { S.honest self.old.inner → HasCause (count_of (S.failed self.old.inner) self.old.count) result (count_of (S.failed self.new.inner) self.new.count) }
        ensures armed { S.honest self.old.inner → ReadsAsArmed self.old.armed (S.failed self.old.inner) result self.new.armed (S.failed self.new.inner) }
        ensures honest { S.honest self.old.inner → S.honest self.new.inner }
        ensures told { CountsFaults (S.faults self.old.inner + self.old.count) result (S.faults self.new.inner + self.new.count) }
        ensures read { S.reads self.new.inner ≤ S.reads self.old.inner + 1 }
        ensures quiet { S.writes self.new.inner ≡ S.writes self.old.inner }
    {
        if self.fails_reading() {
            return Err(ShelfError::Fault);
        }
        self.inner.ledger()
    }

    fn live_as(&mut self, token: Token) -> Result<Option<bool>, ShelfError>
        ensures law { S.honest self.old.inner → Reads (λ live. live ≡ live_as (S.store self.old.inner).tokens token) (S.store self.old.inner) result (S.store self.new.inner) }
        ensures cause { S.honest self.old.inner → HasCause (count_of (S.failed self.old.inner) self.old.count) result (count_of (S.failed self.new.inner) self.new.count) }
        ensures armed { S.honest self.old.inner → ReadsAsArmed self.old.armed (S.failed self.old.inner) result self.new.armed (S.failed self.new.inner) }
        ensures honest { S.honest self.old.inner → S.honest self.new.inner }
        ensures told { CountsFaults (S.faults self.old.inner + self.old.count) result (S.faults self.new.inner + self.new.count) }
        ensures read { S.reads self.new.inner ≤ S.reads self.old.inner + 1 }
        ensures quiet { S.writes self.new.inner ≡ S.writes self.old.inner }
    {
        if self.fails_reading() {
            return Err(ShelfError::Fault);
        }
        self.inner.live_as(token)
    }

    fn save_ledger(&mut self, ledger: &Ledger) -> Result<(), ShelfError> {
        match self.fails_writing() {
            None => self.inner.save_ledger(ledger),
            Some(false) => Err(self.fail()),
            Some(true) => match self.inner.save_ledger(ledger) {
                Ok(()) => Err(self.fail()),
                Err(error) => Err(self.failed(error)),
            },
        }
    }

    fn config(&mut self) -> Result<Option<Bytes>, ShelfError> {
        if self.fails_reading() {
            return Err(ShelfError::Fault);
        }
        self.inner.config()
    }

    fn save_config(&mut self, bytes: &[u8]) -> Result<(), ShelfError> {
        match self.fails_writing() {
            None => self.inner.save_config(bytes),
            Some(false) => Err(self.fail()),
            Some(true) => match self.inner.save_config(bytes) {
                Ok(()) => Err(self.fail()),
                Err(error) => Err(self.failed(error)),
            },
        }
    }

    fn failures(&self) -> u64 {
        self.inner.failures().saturating_add(self.count)
    }

    fn append_only(&self) -> bool {
        self.inner.append_only()
    }
}
