//! The ledger: the next number, the fresh ones, and the rows of the live ones.

ghost use Rattle.std.specs.Prelude.{◌≡◌, ◌≢◌, ◌++◌, ◌∷◌, [], IfOk, IsErrOf, OnOk, OnErr};
ghost use Rattle.repo_name.specs.Rows.{IsHost};
ghost use Rattle.repo_locks.specs.TokenMachine.{Tokens, start, is_fresh, is_live, is_exclusive, is_busy, live_as, with_room, granted, TicketStep, LockStep, RefreshStep, UnlockStep, MayBeGranted};
ghost use Rattle.repo_locks.specs.Lawful.{Ascends, IsLedger};
ghost use Rattle.repo_locks.specs.LedgerBytes.{ledger_bytes};
ghost use Rattle.repo_locks.specs.declared.outcomes.LedgerError.{LedgerError};

use crate::checks::{is_lawful, numbers_ascend};
use crate::limits::{FRESH_LIMIT, LIVE_LIMIT};
use crate::making::{list_of_rows, map_of_rows, set_of_numbers};
use crate::outcomes::{Grant, LedgerError, LockError, RefreshError, TicketError};
use crate::reading::{Parts, parts_of};
use crate::searches::{
    bring_up, first_is_exclusive, is_among, kind_among, leave_out, leave_out_row, put_row,
};
use crate::writing::{append_fresh, append_live, append_number};
use repo_name::{LockRow, LockRows, Text, Token};
use std::alloc::{AllocError, Global};
use std::collections::{BTreeMap, BTreeSet};
use std::marker::Model;

/// A store's numbers: each is not yet issued, fresh, live or dead. A call that looks for a number takes
/// logarithmic time.
#[derive(Clone, Debug, Drop)]
pub struct Ledger {
    next: u64,
    fresh: BTreeSet<Token>,
    live: BTreeMap<Token, LockRow>,
    alloc: Global,
}

impl Model for Ledger {
    ghost use Rattle.repo_locks.specs.TokenMachine.{Tokens};
    ghost use Rattle.repo_locks.specs.Lawful.{IsLedger};
    ghost use Rattle.repo_locks.specs.TokenMaps.{AreUnderTokens};
    ghost use Rattle.std.specs.BTreeMap.{values};

    ghost Value = { Tokens };

    ghost view = { λ l. record { next = l.next; fresh = l.fresh.keys; live = values l.live } };

    ghost invariant = { λ l. IsLedger (record { next = l.next; fresh = l.fresh.keys; live = values l.live }) × AreUnderTokens l.live.entries };
}

/// Puts a number at the end of the fresh ones, which are below it. Where as many were there as may be, the
/// least goes. It fails for memory alone, and then all are there as before.
fn put_fresh(fresh: &mut BTreeSet<Token>, token: Token) -> Result<(), AllocError>
    requires { Ascends 0 token.0 fresh.old.keys }
    ensures ok { OnOk result (fresh.new.keys ≡ with_room fresh.old.keys ++ token ∷ []) }
    ensures err { OnErr result (fresh.new.keys ≡ fresh.old.keys) }
{
    let is_full = fresh.len() == FRESH_LIMIT;
    fresh.insert(token)?;
    if is_full {
        fresh.pop_first();
    }
    Ok(())
}

impl Ledger {
    /// The ledger before any ticket. It takes no memory.
    pub fn new(alloc: Global) -> Ledger
        ensures { result ≡ start }
    {
        Ledger {
            next: 1,
            fresh: BTreeSet::new(alloc),
            live: BTreeMap::new(alloc),
            alloc,
        }
    }

    /// Issues the next number, which is fresh from then on. Where as many are fresh as may be, the
    /// least of them is dead from then on. On an error nothing changed.
    pub fn ticket(&mut self) -> Result<Token, TicketError>
        ensures { TicketStep self.old result self.new }
    {
        if self.next == u64::MAX {
            return Err(TicketError::Exhausted);
        }
        let token = Token(self.next);
        put_fresh(&mut self.fresh, token)?;
        self.next += 1;
        Ok(token)
    }

    /// How the number is live: `None` where it isn't, else whether it is exclusive.
    pub fn live_as(&self, token: Token) -> Option<bool>
        ensures { result ≡ live_as self.now token }
    {
        kind_among(&self.live, token)
    }

    /// Whether the number is live.
    pub fn is_live(&self, token: Token) -> bool
        ensures { result ≡ is_live self.now token }
    {
        self.live_as(token).is_some()
    }

    /// Whether the number is live and exclusive.
    pub fn is_exclusive(&self, token: Token) -> bool
        ensures { result ≡ is_exclusive self.now token }
    {
        self.live_as(token).unwrap_or(false)
    }

    /// Whether something live stands against a lock of this kind.
    fn is_busy(&self, exclusive: bool) -> bool
        ensures { result ≡ is_busy self.now exclusive }
    {
        if exclusive {
            return !self.live.is_empty();
        }
        first_is_exclusive(&self.live)
    }

    /// Makes a fresh number live.
    fn grant(
        &mut self,
        token: Token,
        exclusive: bool,
        time: u64,
        host: &str,
    ) -> Result<(), AllocError>
        requires may { MayBeGranted self.old token exclusive }
        requires host { IsHost host.now }
        ensures ok { OnOk result (self.new ≡ granted self.old (record { token = token; exclusive = exclusive; time = time; host = host.now })) }
        ensures err { OnErr result (self.new ≡ self.old) }
    {
        let host = Text::of(String::from_str(self.alloc, host)?);
        let row = LockRow {
            token,
            exclusive,
            time,
            host,
        };
        put_row(&mut self.live, row)?;
        leave_out(&mut self.fresh, token);
        Ok(())
    }

    /// Makes a fresh number live, shared or exclusive, with a time in seconds since 1970 and the name
    /// of the client's machine. A number that is live in that way stays as it is. On an error nothing
    /// changed: after `Busy`, `Full` and `Memory` the number is still fresh.
    pub fn lock(
        &mut self,
        token: Token,
        exclusive: bool,
        time: u64,
        host: &str,
    ) -> Result<Grant, LockError>
        requires { IsHost host.now }
        ensures { LockStep self.old token exclusive time host.now result self.new }
    {
        if let Some(kind) = self.live_as(token) {
            if kind == exclusive {
                return Ok(Grant::Held);
            }
            return Err(LockError::OtherKind);
        }
        if !is_among(&self.fresh, token) {
            return Err(LockError::Dead);
        }
        if self.is_busy(exclusive) {
            return Err(LockError::Busy);
        }
        if self.live.len() >= LIVE_LIMIT {
            return Err(LockError::Full);
        }
        self.grant(token, exclusive, time, host)?;
        Ok(Grant::New)
    }

    /// Brings a live number's time up to this one, where it isn't later. On an error nothing changed. It
    /// takes no memory.
    pub fn refresh(&mut self, token: Token, time: u64) -> Result<(), RefreshError>
        ensures { RefreshStep self.old token time result self.new }
    {
        if !bring_up(&mut self.live, token, time) {
            return Err(RefreshError::Dead);
        }
        Ok(())
    }

    /// Makes a fresh or live number dead, and says whether it was either. It takes no memory.
    pub fn unlock(&mut self, token: Token) -> bool
        ensures { UnlockStep self.old token result self.new }
    {
        let was_fresh = leave_out(&mut self.fresh, token);
        let was_live = leave_out_row(&mut self.live, token);
        was_fresh || was_live
    }

    /// The rows of the live numbers, ascending by token: a list of their own. It fails for memory alone.
    pub fn locks(&self, alloc: Global) -> Result<LockRows, AllocError>
        ensures rows { IfOk result (λ rows. rows ≡ self.now.live) }
        ensures lawful { IsLedger self.now }
    {
        Ok(LockRows::of(list_of_rows(alloc, &self.live)?))
    }

    /// An equal ledger. It fails for memory alone.
    pub fn copy(&self) -> Result<Ledger, AllocError>
        ensures { IfOk result (λ copied. copied ≡ self.now) }
    {
        self.clone()
    }

    /// The ledger's bytes, all big-endian: the next number (8 bytes), the count of fresh numbers (2), these
    /// ascending (8 each), the count of live rows (2), these ascending by token, each in the form of
    /// [`LockRow`]. It fails for memory alone.
    pub fn write(&self) -> Result<Vec<u8>, AllocError>
        ensures bytes { IfOk result (λ bytes. bytes.items ≡ ledger_bytes self.now) }
        ensures lawful { IsLedger self.now }
    {
        let mut bytes = Vec::new(self.alloc);
        append_number(self.next, &mut bytes)?;
        append_fresh(&self.fresh, &mut bytes)?;
        append_live(&self.live, &mut bytes)?;
        Ok(bytes)
    }

    /// The ledger whose bytes these are, all of them.
    ///
    /// `Shape` comes only where no lawful ledger has these bytes.
    pub fn read(alloc: Global, bytes: &[u8]) -> Result<Ledger, LedgerError>
        ensures ok { IfOk result (λ ledger. IsLedger ledger × (bytes.now ≡ ledger_bytes ledger)) }
        ensures shape { IsErrOf result LedgerError.Shape → (l : Tokens) → IsLedger l → bytes.now ≢ ledger_bytes l }
    {
        let Parts { next, fresh, live } = parts_of(alloc, bytes)?;
        if !numbers_ascend(&fresh, next) {
            return Err(LedgerError::Shape);
        }
        let fresh = set_of_numbers(alloc, &fresh)?;
        if !is_lawful(next, &fresh, &live) {
            return Err(LedgerError::Shape);
        }
        let live = map_of_rows(alloc, live)?;
        Ok(Ledger {
            next,
            fresh,
            live,
            alloc,
        })
    }
}
