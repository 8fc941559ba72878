//! The answers to what is asked of the locks. The ledger is read once, and saved at most once, at the end.

ghost use Rattle.std.specs.Prelude.{◌≡◌, ◌≤◌, ◌+◌};
ghost use Rattle.repo_name.specs.Rows.{IsHost};
ghost use Rattle.repo_wire.specs.declared.messages.Ask.{Ask};
ghost use Rattle.repo_wire.specs.Messages.{IsSay, IsShortSay};
ghost use Rattle.repo_store.specs.Failing.{AnswersAsArmed};
ghost use Rattle.repo_store.specs.StoreMachine.{lock_refusal, IsQuiet, IsRuledOut, Step, SaysFault, SaysItsFault};

use crate::answers::refusal;
use crate::shelves::Shelf;
use repo_locks::{Grant, LockError, RefreshError, TicketError};
use repo_name::{LockRow, Token};
use repo_wire::{Code, Say};
use std::alloc::Global;

/// The refusal for a lock that isn't granted.
fn lock_refusal(error: LockError) -> Say
    ensures { result ≡ lock_refusal error }
{
    match error {
        LockError::Dead => Say::Refused(Code::Dead),
        LockError::OtherKind => Say::Refused(Code::OtherKind),
        LockError::Busy => Say::Refused(Code::Busy),
        LockError::Full => Say::Refused(Code::Full),
        LockError::Memory => Say::Refused(Code::NoMemory),
    }
}

/// Issues a token.
pub fn answer_ticket<S: Shelf>(shelf: &mut S) -> Say
    ensures step { S.honest shelf.old → Step (S.store shelf.old) Ask.Ticket result (S.store shelf.new) }
    ensures cause { S.honest shelf.old → SaysFault (S.failed shelf.old) result (S.failed shelf.new) }
    ensures armed { AnswersAsArmed S.honest S.armed S.own S.store shelf.old Ask.Ticket result shelf.new }
    ensures honest { S.honest shelf.old → S.honest shelf.new }
    ensures told { SaysItsFault (S.faults shelf.old) result (S.faults shelf.new) }
    ensures read { S.reads shelf.new ≤ S.reads shelf.old + 1 }
    ensures once { S.writes shelf.new ≤ S.writes shelf.old + 1 }
    ensures ruled_out { IsRuledOut result → S.writes shelf.new ≡ S.writes shelf.old }
    ensures within { IsSay result × IsShortSay result }
{
    let mut ledger = match shelf.ledger() {
        Ok(ledger) => ledger,
        Err(error) => return refusal(error),
    };
    let token = match ledger.ticket() {
        Ok(token) => token,
        Err(TicketError::Exhausted) => return Say::Refused(Code::Exhausted),
        Err(TicketError::Memory) => return Say::Refused(Code::NoMemory),
    };
    match shelf.save_ledger(&ledger) {
        Ok(()) => Say::Token(token),
        Err(error) => refusal(error),
    }
}

/// Grants a lock. One that is held already isn't saved again.
pub fn answer_lock<S: Shelf>(shelf: &mut S, row: &LockRow) -> Say
    requires { IsHost row.now.host }
    ensures step { S.honest shelf.old → Step (S.store shelf.old) (Ask.Lock row.now) result (S.store shelf.new) }
    ensures cause { S.honest shelf.old → SaysFault (S.failed shelf.old) result (S.failed shelf.new) }
    ensures armed { AnswersAsArmed S.honest S.armed S.own S.store shelf.old (Ask.Lock row.now) result shelf.new }
    ensures honest { S.honest shelf.old → S.honest shelf.new }
    ensures told { SaysItsFault (S.faults shelf.old) result (S.faults shelf.new) }
    ensures read { S.reads shelf.new ≤ S.reads shelf.old + 1 }
    ensures once { S.writes shelf.new ≤ S.writes shelf.old + 1 }
    ensures quiet { S.honest shelf.old → IsQuiet (S.store shelf.old) (Ask.Lock row.now) → S.writes shelf.new ≡ S.writes shelf.old }
    ensures ruled_out { IsRuledOut result → S.writes shelf.new ≡ S.writes shelf.old }
    ensures within { IsSay result × IsShortSay result }
{
    let mut ledger = match shelf.ledger() {
        Ok(ledger) => ledger,
        Err(error) => return refusal(error),
    };
    match ledger.lock(row.token, row.exclusive, row.time, row.host.as_str()) {
        Ok(Grant::New) => {}
        Ok(Grant::Held) => return Say::Done,
        Err(error) => return lock_refusal(error),
    }
    match shelf.save_ledger(&ledger) {
        Ok(()) => Say::Done,
        Err(error) => refusal(error),
    }
}

/// Brings a lock's time up. It is saved also where the time stays.
pub fn answer_refresh<S: Shelf>(shelf: &mut S, token: Token, time: u64) -> Say
    ensures step { S.honest shelf.old → Step (S.store shelf.old) (Ask.Refresh token time) result (S.store shelf.new) }
    ensures cause { S.honest shelf.old → SaysFault (S.failed shelf.old) result (S.failed shelf.new) }
    ensures armed { AnswersAsArmed S.honest S.armed S.own S.store shelf.old (Ask.Refresh token time) result shelf.new }
    ensures honest { S.honest shelf.old → S.honest shelf.new }
    ensures told { SaysItsFault (S.faults shelf.old) result (S.faults shelf.new) }
    ensures read { S.reads shelf.new ≤ S.reads shelf.old + 1 }
    ensures once { S.writes shelf.new ≤ S.writes shelf.old + 1 }
    ensures ruled_out { IsRuledOut result → S.writes shelf.new ≡ S.writes shelf.old }
    ensures within { IsSay result × IsShortSay result }
{
    let mut ledger = match shelf.ledger() {
        Ok(ledger) => ledger,
        Err(error) => return refusal(error),
    };
    match ledger.refresh(token, time) {
        Ok(()) => {}
        Err(RefreshError::Dead) => return Say::Refused(Code::Dead),
    }
    match shelf.save_ledger(&ledger) {
        Ok(()) => Say::Done,
        Err(error) => refusal(error),
    }
}

/// Ends a lock. Where there is none, nothing is saved.
pub fn answer_unlock<S: Shelf>(shelf: &mut S, token: Token) -> Say
    ensures step { S.honest shelf.old → Step (S.store shelf.old) (Ask.Unlock token) result (S.store shelf.new) }
    ensures cause { S.honest shelf.old → SaysFault (S.failed shelf.old) result (S.failed shelf.new) }
    ensures armed { AnswersAsArmed S.honest S.armed S.own S.store shelf.old (Ask.Unlock token) result shelf.new }
    ensures honest { S.honest shelf.old → S.honest shelf.new }
    ensures told { SaysItsFault (S.faults shelf.old) result (S.faults shelf.new) }
    ensures read { S.reads shelf.new ≤ S.reads shelf.old + 1 }
    ensures once { S.writes shelf.new ≤ S.writes shelf.old + 1 }
    ensures quiet { S.honest shelf.old → IsQuiet (S.store shelf.old) (Ask.Unlock token) → S.writes shelf.new ≡ S.writes shelf.old }
    ensures ruled_out { IsRuledOut result → S.writes shelf.new ≡ S.writes shelf.old }
    ensures within { IsSay result × IsShortSay result }
{
    let mut ledger = match shelf.ledger() {
        Ok(ledger) => ledger,
        Err(error) => return refusal(error),
    };
    if !ledger.unlock(token) {
        return Say::Done;
    }
    match shelf.save_ledger(&ledger) {
        Ok(()) => Say::Done,
        Err(error) => refusal(error),
    }
}

/// Lists the live locks.
pub fn answer_locks<S: Shelf>(alloc: Global, shelf: &mut S) -> Say
    ensures step { S.honest shelf.old → Step (S.store shelf.old) Ask.Locks result (S.store shelf.new) }
    ensures cause { S.honest shelf.old → SaysFault (S.failed shelf.old) result (S.failed shelf.new) }
    ensures armed { AnswersAsArmed S.honest S.armed S.own S.store shelf.old Ask.Locks result shelf.new }
    ensures honest { S.honest shelf.old → S.honest shelf.new }
    ensures told { SaysItsFault (S.faults shelf.old) result (S.faults shelf.new) }
    ensures read { S.reads shelf.new ≤ S.reads shelf.old + 1 }
    ensures quiet { S.writes shelf.new ≡ S.writes shelf.old }
    ensures within { IsSay result × IsShortSay result }
{
    let ledger = match shelf.ledger() {
        Ok(ledger) => ledger,
        Err(error) => return refusal(error),
    };
    match ledger.locks(alloc) {
        Ok(rows) => Say::LockList(rows),
        Err(_) => Say::Refused(Code::NoMemory),
    }
}
