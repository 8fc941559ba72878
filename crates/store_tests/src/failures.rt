//! Each ask while a failure is armed, and which call the armed one is.

ghost use Rattle.std.specs.Prelude.{◌≡◌, ◌≤◌};
ghost use Rattle.repo_tree.specs.ConfigText.{IsTarget};

use crate::asks::{CASES, Case, VERSION_1, VERSION_2, is_told, ready};
use crate::calls::{ROWS, outcome_of};
use repo_chunk::Params;
use repo_name::{Instance, Kind, name_of};
use repo_store::{Fail, FaultShelf, InitError, MemShelf, Shelf, ShelfError, init};
use repo_tree::Config;
use std::alloc::Global;

/// A ledger's bytes in hexadecimal, before an ask: the next number is 3, the number 2 is fresh, and 1 is live at the
/// time 5 for the host `a`.
const SHARED: &str =
    "000000000000000300010000000000000002000100000000000000010000000000000000050161";

const EXCLUSIVE: &str =
    "000000000000000300010000000000000002000100000000000000010100000000000000050161";

/// After a ticket, a lock of the number 2, a refresh of the number 1 to the time 9, and its unlock.
pub const ISSUED: &str =
    "0000000000000004000200000000000000020000000000000003000100000000000000010000000000000000050161";

const LOCKED: &str =
    "0000000000000003000000020000000000000001000000000000000005016100000000000000020000000000000000050161";

const REFRESHED: &str =
    "000000000000000300010000000000000002000100000000000000010000000000000000090161";

const UNLOCKED: &str = "0000000000000003000100000000000000020000";

/// What has to stand in the ledger after an ask, where its writing call made its change or not.
pub fn due_ledger(case: Case, is_made: bool) -> &'static str {
    match (case, is_made) {
        (Case::Ticket, true) => ISSUED,
        (Case::Lock, true) => LOCKED,
        (Case::Refresh, true) => REFRESHED,
        (Case::Unlock, true) => UNLOCKED,
        _ if case.is_exclusive() => EXCLUSIVE,
        _ => SHARED,
    }
}

/// Whether the pack has to be there after an ask, where its writing call made its change or not.
pub fn due_pack(case: Case, is_made: bool) -> bool {
    match case {
        Case::PutOfANewName => is_made,
        Case::DeleteOfWhatIsThere => !is_made,
        _ => case.has_the_pack(),
    }
}

/// The config that has to be there after an ask, where its writing call made its change or not.
pub fn due_config(case: Case, is_made: bool) -> &'static [u8] {
    match (case, is_made) {
        (Case::UpgradeOfVersion1, true) => VERSION_2,
        _ => case.config(),
    }
}

/// A shelf that can fail, and how many things weren't as wanted.
#[derive(Drop)]
struct Trial {
    alloc: Global,
    shelf: FaultShelf<MemShelf>,
    differ: u64,
    /// How many failures there have to be.
    failures: u64,
}

impl Trial {
    fn new(alloc: Global) -> Trial {
        Trial {
            alloc,
            shelf: FaultShelf::new(MemShelf::new(alloc)),
            differ: 0,
            failures: 0,
        }
    }

    fn count(&mut self, is_so: bool) {
        if !is_so {
            self.differ = self.differ.saturating_add(1);
        }
    }

    /// Takes a new shelf of which this is asked.
    fn prepare(&mut self, case: Case) {
        self.failures = 0;
        match ready(self.alloc, case) {
            Ok(shelf) => self.shelf = FaultShelf::new(shelf),
            Err(_) => self.count(false),
        }
    }

    /// The ask is answered with a fault, or as where nothing fails.
    fn asks(&mut self, case: Case, is_fault: bool) {
        let told = is_told(self.alloc, &mut self.shelf, case, is_fault);
        self.count(told == Ok(true));
    }

    fn has_failed(&mut self, is_fault: bool) {
        self.failures = self.failures.saturating_add(is_fault as u64);
        let failures = self.shelf.failures();
        self.count(failures == self.failures);
    }

    fn has_the_pack(&mut self, wanted: bool) {
        match self.shelf.get(Kind::Pack, &name_of(b"abc")) {
            Ok(found) => self.count(found.is_some() == wanted),
            Err(_) => self.count(false),
        }
    }

    fn has_the_config(&mut self, wanted: &[u8]) {
        match self.shelf.config() {
            Ok(Some(config)) => self.count(config.as_slice() == wanted),
            Ok(None) => self.count(wanted.is_empty()),
            Err(_) => self.count(false),
        }
    }

    fn has_the_ledger(&mut self, wanted: &str) {
        let is_so = keeps_ledger(self.alloc, &mut self.shelf, wanted);
        self.count(is_so);
    }

    /// What comes of an ask while this failure is armed: each one reads, so a reading failure meets each.
    fn meets(&mut self, case: Case, fail: Fail) {
        let is_met = fail == Fail::Read || case.writes();
        let is_made = fail == Fail::Write(true) && case.writes();
        self.prepare(case);
        self.shelf.arm(fail);
        self.asks(case, is_met);
        self.has_failed(is_met);
        self.shelf.disarm();
        self.has_the_pack(due_pack(case, is_made));
        self.has_the_ledger(due_ledger(case, is_made));
        self.has_the_config(due_config(case, is_made));
    }

    /// What comes of an ask while its call of this number is armed.
    fn meets_at(&mut self, case: Case, calls: &str, number: u64, applied: bool)
        requires { 1 ≤ number }
    {
        let due = outcome_of(calls, number, applied);
        self.prepare(case);
        self.shelf.arm_at(number, applied);
        self.asks(case, due.is_fault);
        self.has_failed(due.is_fault);
        self.shelf.disarm();
        self.has_the_pack(due_pack(case, due.is_made));
        self.has_the_ledger(due_ledger(case, due.is_made));
        self.has_the_config(due_config(case, due.is_made));
    }

    /// A put of the pack gives this.
    fn puts(&mut self, wanted: Result<(), ShelfError>) {
        let put = self.shelf.put(Kind::Pack, &name_of(b"abc"), b"abc");
        self.count(put == wanted);
        self.has_failed(wanted.is_err());
    }

    /// A removal of the pack gives this.
    fn removes(&mut self, wanted: Result<(), ShelfError>) {
        let removed = self.shelf.remove(Kind::Pack, &name_of(b"abc"));
        self.count(removed == wanted);
        self.has_failed(wanted.is_err());
    }

    /// A new store's making gives this.
    fn begins(&mut self, wanted: Result<(), InitError>) {
        let made = made(self.alloc, &mut self.shelf);
        self.count(made == wanted);
    }
}

/// Whether the ledger's bytes are these, in hexadecimal.
pub fn keeps_ledger<S: Shelf>(alloc: Global, shelf: &mut S, wanted: &str) -> bool {
    let Ok(ledger) = shelf.ledger() else {
        return false;
    };
    let Ok(bytes) = ledger.write() else {
        return false;
    };
    match hex::encode(alloc, bytes.as_slice()) {
        Ok(digits) => digits.as_str() == wanted,
        Err(_) => false,
    }
}

/// A config of small chunks and packs.
pub fn small_config(params: Params) -> Config
    ensures version { result.version ≡ 1 }
    ensures target { IsTarget result.target }
{
    Config {
        version: 1,
        id: Instance([0; 16]),
        params,
        target: 1024,
    }
}

/// What the making of a new store with the small config gives.
pub fn made<S: Shelf>(alloc: Global, shelf: &mut S) -> Result<(), InitError> {
    match Params::new(64, 128, 6) {
        Ok(params) => init(alloc, shelf, &small_config(params)),
        Err(_) => Err(InitError::Fault),
    }
}

#[test]
fn each_ask_meets_each_failure(rt: HostRuntime) {
    let mut trial = Trial::new(rt.alloc());
    for case in CASES {
        for fail in [Fail::Read, Fail::Write(true), Fail::Write(false)] {
            trial.meets(case, fail);
        }
    }
    assert_eq!(rt; trial.differ, 0);
}

#[test]
fn the_call_of_each_number_fails_in_each_ask(rt: HostRuntime) {
    let mut trial = Trial::new(rt.alloc());
    for (case, calls, _) in ROWS {
        for number in 1..=4u64 {
            trial.meets_at(case, calls, number, true);
            trial.meets_at(case, calls, number, false);
        }
    }
    assert_eq!(rt; trial.differ, 0);
}

#[test]
fn a_new_store_meets_each_failure(rt: HostRuntime) {
    let mut trial = Trial::new(rt.alloc());
    trial.shelf.arm(Fail::Read);
    trial.begins(Err(InitError::Fault));
    trial.has_the_config(b"");
    trial.shelf.arm(Fail::Write(false));
    trial.begins(Err(InitError::Fault));
    trial.has_the_config(b"");
    trial.shelf.arm(Fail::Write(true));
    trial.begins(Err(InitError::Fault));
    trial.has_the_config(VERSION_1);
    trial.begins(Err(InitError::Exists));
    assert_eq!(rt; trial.differ, 0);
}

#[test]
fn the_armed_call_fails_alone(rt: HostRuntime) {
    let mut trial = Trial::new(rt.alloc());
    trial.shelf.arm_at(2, true);
    trial.has_the_pack(false);
    trial.puts(Err(ShelfError::Fault));
    trial.has_the_pack(true);
    trial.shelf.arm_at(1, false);
    trial.removes(Err(ShelfError::Fault));
    trial.has_the_pack(true);
    trial.shelf.arm(Fail::Write(true));
    trial.shelf.disarm();
    trial.removes(Ok(()));
    trial.has_the_pack(false);
    assert_eq!(rt; trial.differ, 0);
}
