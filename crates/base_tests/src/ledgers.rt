//! The ledger of locks.

use crate::trials::Trial;
use repo_locks::{Grant, Ledger, LockError, TicketError, stale};
use repo_name::{LockRows, Token};

// Of a ledger in which no number is left: the next would be 2^64 - 1, and none is fresh or live.
const LAST: [u8; 12] = [255, 255, 255, 255, 255, 255, 255, 255, 0, 0, 0, 0];

impl Trial {
    /// The next number is this one, asked for again where there was no memory.
    fn takes(&mut self, ledger: &mut Ledger, number: u64) {
        let mut ticket = ledger.ticket();
        if ticket == Err(TicketError::Memory) {
            self.lack();
            ticket = ledger.ticket();
        }
        self.count(ticket == Ok(Token(number)));
    }

    /// An exclusive lock is granted since time 5, asked for again where there was no memory.
    fn locks(&mut self, ledger: &mut Ledger, number: u64) {
        let mut answer = ledger.lock(Token(number), true, 5, "a");
        if answer == Err(LockError::Memory) {
            self.lack();
            answer = ledger.lock(Token(number), true, 5, "a");
        }
        self.count(answer == Ok(Grant::New));
    }

    /// The live rows, asked for again where there was no memory.
    fn live_rows(&mut self, ledger: &Ledger) -> LockRows {
        let mut rows = ledger.locks(self.alloc);
        if rows.is_err() {
            self.lack();
            rows = ledger.locks(self.alloc);
        }
        match rows {
            Ok(rows) => rows,
            Err(_) => {
                self.count(false);
                LockRows::of(Vec::new(self.alloc))
            }
        }
    }

    /// These tokens are stale at a time, asked for again where there was no memory.
    fn has_stale(&mut self, ledger: &Ledger, now: u64, wanted: &[Token]) {
        let rows = self.live_rows(ledger);
        let mut tokens = stale(self.alloc, rows.as_slice(), now);
        if tokens.is_err() {
            self.lack();
            tokens = stale(self.alloc, rows.as_slice(), now);
        }
        match tokens {
            Ok(tokens) => self.count(tokens.as_slice() == wanted),
            Err(_) => self.count(false),
        }
    }

    /// A lock that is granted, and grows old.
    pub fn ledgers(&mut self) {
        let mut ledger = Ledger::new(self.alloc);
        self.takes(&mut ledger, 1);
        self.takes(&mut ledger, 2);
        self.locks(&mut ledger, 2);
        self.has_stale(&ledger, 1_805, &[]);
        self.has_stale(&ledger, 1_806, &[Token(2)]);
    }

    /// What a ledger says of a number: whether it is live, and whether as an exclusive one.
    fn is_live_as(&mut self, ledger: &Ledger, number: u64, wanted: Option<bool>) {
        self.count(ledger.is_live(Token(number)) == wanted.is_some());
        self.count(ledger.is_exclusive(Token(number)) == (wanted == Some(true)));
    }

    /// Numbers that are fresh, live and dead, and those that were never given.
    fn has_live(&mut self, exclusive: bool) {
        let mut ledger = Ledger::new(self.alloc);
        self.takes(&mut ledger, 1);
        self.is_live_as(&ledger, 1, None);
        self.count(ledger.lock(Token(1), exclusive, 5, "a") == Ok(Grant::New));
        self.is_live_as(&ledger, 1, Some(exclusive));
        self.is_live_as(&ledger, 0, None);
        self.is_live_as(&ledger, 2, None);
        self.count(ledger.unlock(Token(1)));
        self.is_live_as(&ledger, 1, None);
    }

    /// Locks of tokens 1 and 2 since these times; at another time these are stale.
    fn stale_at(&mut self, times: [u64; 2], now: u64, wanted: &[Token]) {
        let mut ledger = Ledger::new(self.alloc);
        self.takes(&mut ledger, 1);
        self.takes(&mut ledger, 2);
        self.count(ledger.lock(Token(1), false, times[0], "a") == Ok(Grant::New));
        self.count(ledger.lock(Token(2), false, times[1], "a") == Ok(Grant::New));
        self.has_stale(&ledger, now, wanted);
    }

    /// As many fresh numbers as there may be: the next one has the least of them die.
    pub fn many_tickets(&mut self) {
        let mut ledger = Ledger::new(self.alloc);
        for number in 1..=1_025u64 {
            self.takes(&mut ledger, number);
        }
        self.count(ledger.lock(Token(1), false, 5, "a") == Err(LockError::Dead));
        self.locks(&mut ledger, 2);
    }

    /// The next number of the last ledger is none.
    pub fn ends_numbers(&mut self) {
        match Ledger::read(self.alloc, &LAST) {
            Ok(mut last) => self.count(last.ticket() == Err(TicketError::Exhausted)),
            Err(_) => self.count(false),
        }
    }
}

#[test]
fn numbers_and_ages(rt: HostRuntime) {
    let mut trial = Trial::new(rt.alloc());
    trial.has_live(true);
    trial.has_live(false);
    trial.stale_at([8_200, 8_199], 10_000, &[Token(2)]);
    trial.stale_at([10_001, 10_001], 10_000, &[]);
    trial.stale_at([0, 10_000], 10_000, &[Token(1)]);
    trial.many_tickets();
    trial.end(&rt);
}
