//! A shelf that remembers, around one that fails as it is told: which asks meet the failure, and when all is read again.

ghost use Rattle.std.specs.Prelude.{◌≤◌};

use crate::asks::{CASES, Case, is_told, ready, said};
use crate::calls::{ROWS, outcome_of};
use crate::failures::{ISSUED, due_config, due_ledger, due_pack, keeps_ledger};
use repo_name::{Kind, name_of};
use repo_store::{Fail, FaultShelf, Kept, MemShelf, Shelf, ShelfError};
use repo_wire::{Ask, Code, Say};
use std::alloc::{AllocError, Global};

/// A shelf that remembers what one that can fail has.
pub type Remembering = Kept<FaultShelf<MemShelf>>;

/// A shelf around this one that knows nothing.
pub fn around(alloc: Global, shelf: MemShelf) -> Remembering {
    Kept::new(alloc, FaultShelf::new(shelf))
}

/// Whether the first packs of a shelf are the pack `abc`, or none.
fn lists_the_pack<S: Shelf>(shelf: &mut S, wanted: bool) -> bool {
    let Ok(page) = shelf.names_after(Kind::Pack, None, 2) else {
        return false;
    };
    match page.names.as_slice() {
        [] => !wanted,
        [name] => wanted && *name == name_of(b"abc"),
        _ => false,
    }
}

/// Whether the config is this one.
fn keeps_config<S: Shelf>(shelf: &mut S, wanted: &[u8]) -> bool {
    match shelf.config() {
        Ok(Some(config)) => config.as_slice() == wanted,
        _ => false,
    }
}

/// Whether a shelf has what it has to have after an ask, where its writing call made its change or not.
pub fn is_after<S: Shelf>(alloc: Global, shelf: &mut S, case: Case, is_made: bool) -> bool {
    keeps_ledger(alloc, shelf, due_ledger(case, is_made))
        && lists_the_pack(shelf, due_pack(case, is_made))
}

/// Whether a failure meets an ask: a reading one meets what is read, and the ledger and the names aren't where they are known.
fn is_met(case: Case, fail: Fail, is_known: bool) -> bool {
    match fail {
        Fail::Read => {
            let is_read = matches!(case, Case::Get | Case::Range | Case::Config);
            !is_known || is_read || case.upgrades()
        }
        Fail::Write(_) => case.writes(),
    }
}

/// A shelf that remembers, and how many things weren't as wanted.
#[derive(Drop)]
struct Trial {
    alloc: Global,
    shelf: Remembering,
    differ: u64,
    /// How many failures there have to be.
    failures: u64,
}

impl Trial {
    /// A trial with a shelf of which this is asked, that knows nothing.
    fn of(alloc: Global, case: Case) -> Trial {
        let mut trial = Trial {
            alloc,
            shelf: around(alloc, MemShelf::new(alloc)),
            differ: 0,
            failures: 0,
        };
        trial.prepare(case);
        trial
    }

    fn count(&mut self, is_so: bool) {
        if !is_so {
            self.differ = self.differ.saturating_add(1);
        }
    }

    /// Takes a new shelf of which this is asked.
    fn prepare(&mut self, case: Case) {
        self.failures = 0;
        match ready(self.alloc, case) {
            Ok(shelf) => self.shelf = around(self.alloc, shelf),
            Err(_) => self.count(false),
        }
    }

    /// The ask is answered with a fault, or as where nothing fails, and the failures are as many.
    fn asks(&mut self, case: Case, is_fault: bool) {
        let told = is_told(self.alloc, &mut self.shelf, case, is_fault);
        self.count(told == Ok(true));
        self.has_failed(is_fault);
    }

    fn has_failed(&mut self, is_fault: bool) {
        self.failures = self.failures.saturating_add(is_fault as u64);
        let failures = self.shelf.failures();
        self.count(failures == self.failures);
    }

    /// The names of packs and the ledger are asked for.
    fn learns(&mut self) {
        let alloc = self.alloc;
        let (kind, after) = (Kind::Pack, None);
        let page = said(alloc, &mut self.shelf, Ask::List { kind, after });
        let locks = said(alloc, &mut self.shelf, Ask::Locks);
        self.count(matches!(page, Say::Names { .. }));
        self.count(matches!(locks, Say::LockList(_)));
    }

    /// What is armed still waits for its call. A removal of nothing is a writing call.
    fn waits(&mut self, fail: Fail) {
        match fail {
            Fail::Read => self.asks(Case::Get, true),
            Fail::Write(_) => {
                let removed = self.shelf.remove(Kind::Index, &name_of(b"abc"));
                self.count(removed == Err(ShelfError::Fault));
                self.has_failed(true);
            }
        }
    }

    /// The names of packs and the ledger are read when they are asked for.
    fn reads_again(&mut self) {
        self.shelf.arm(Fail::Read);
        self.asks(Case::Locks, true);
        self.shelf.arm(Fail::Read);
        self.asks(Case::List, true);
    }

    /// The store is as it has to be, by what is known and by what is read.
    fn is_after(&mut self, case: Case, is_made: bool) {
        let is_so = is_after(self.alloc, &mut self.shelf, case, is_made);
        self.count(is_so);
        self.shelf.forget();
        let is_so = is_after(self.alloc, &mut self.shelf, case, is_made);
        self.count(is_so);
    }

    /// What comes of an ask while this failure is armed.
    fn tries(&mut self, case: Case, fail: Fail, is_met: bool) {
        self.shelf.arm(fail);
        self.asks(case, is_met);
        if !is_met {
            self.waits(fail);
        } else if fail != Fail::Read {
            self.reads_again();
        }
        self.shelf.disarm();
        self.is_after(case, !is_met || fail == Fail::Write(true));
    }

    /// What comes of an ask while this failure is armed, where what was known is forgotten.
    fn meets_unknown(&mut self, case: Case, fail: Fail) {
        self.prepare(case);
        self.learns();
        self.shelf.forget();
        self.tries(case, fail, is_met(case, fail, false));
    }

    /// What comes of an ask while this failure is armed, where the ledger and the names of packs are known.
    fn meets_known(&mut self, case: Case, fail: Fail) {
        self.prepare(case);
        self.learns();
        self.tries(case, fail, is_met(case, fail, true));
    }
}

impl Trial {
    /// What comes of an ask while its call of this number is armed.
    fn meets_at(&mut self, case: Case, calls: &str, number: u64, applied: bool)
        requires { 1 ≤ number }
    {
        let due = outcome_of(calls, number, applied);
        self.shelf.arm_at(number, applied);
        self.asks(case, due.is_fault);
        self.shelf.disarm();
        self.is_after(case, due.is_made);
        let is_so = keeps_config(&mut self.shelf, due_config(case, due.is_made));
        self.count(is_so);
    }

    /// The same of a shelf that knows nothing any more.
    fn meets_at_unknown(&mut self, case: Case, calls: &str, number: u64, applied: bool)
        requires { 1 ≤ number }
    {
        self.prepare(case);
        self.learns();
        self.shelf.forget();
        self.meets_at(case, calls, number, applied);
    }

    /// The same of a shelf that knows the ledger and the names of packs.
    fn meets_at_known(&mut self, case: Case, calls: &str, number: u64, applied: bool)
        requires { 1 ≤ number }
    {
        self.prepare(case);
        self.learns();
        self.meets_at(case, calls, number, applied);
    }
}

/// The row of an unsure put: it is refused and made; then the names are read, and after that they are known.
#[test]
fn an_unsure_put_is_read_again(rt: HostRuntime) {
    let mut trial = Trial::of(rt.alloc(), Case::PutOfANewName);
    trial.shelf.arm(Fail::Write(true));
    trial.asks(Case::PutOfANewName, true);
    trial.shelf.arm(Fail::Read);
    trial.asks(Case::List, true);
    trial.asks(Case::List, false);
    trial.shelf.arm(Fail::Read);
    trial.asks(Case::List, false);
    trial.asks(Case::Get, true);
    let failures = trial.shelf.failures();
    trial.count(failures == 3);
    assert_eq!(rt; trial.differ, 0);
}

#[test]
fn each_ask_meets_each_failure_where_nothing_is_known(rt: HostRuntime) {
    let mut trial = Trial::of(rt.alloc(), Case::Ticket);
    for case in CASES {
        for fail in [Fail::Read, Fail::Write(true), Fail::Write(false)] {
            trial.meets_unknown(case, fail);
        }
    }
    assert_eq!(rt; trial.differ, 0);
}

#[test]
fn the_call_of_each_number_fails_where_nothing_is_known(rt: HostRuntime) {
    let mut trial = Trial::of(rt.alloc(), Case::Ticket);
    for (case, calls, _) in ROWS {
        for number in 1..=4u64 {
            trial.meets_at_unknown(case, calls, number, true);
            trial.meets_at_unknown(case, calls, number, false);
        }
    }
    assert_eq!(rt; trial.differ, 0);
}

#[test]
fn the_call_of_each_number_fails_where_all_is_known(rt: HostRuntime) {
    let mut trial = Trial::of(rt.alloc(), Case::Ticket);
    for (case, _, calls) in ROWS {
        for number in 1..=4u64 {
            trial.meets_at_known(case, calls, number, true);
            trial.meets_at_known(case, calls, number, false);
        }
    }
    assert_eq!(rt; trial.differ, 0);
}

#[test]
fn each_ask_meets_each_failure_where_all_is_known(rt: HostRuntime) {
    let mut trial = Trial::of(rt.alloc(), Case::Ticket);
    for case in CASES {
        for fail in [Fail::Read, Fail::Write(true), Fail::Write(false)] {
            trial.meets_known(case, fail);
        }
    }
    assert_eq!(rt; trial.differ, 0);
}

/// Whether a ticket that is saved by the second call, which fails after its change, is refused and stands in the inner ledger.
fn keeps_the_ticket(alloc: Global) -> Result<bool, AllocError> {
    let mut shelf = around(alloc, ready(alloc, Case::Ticket)?);
    shelf.arm_at(2, true);
    let say = said(alloc, &mut shelf, Ask::Ticket);
    let mut inner = shelf.into_inner();
    let keeps = keeps_ledger(alloc, &mut inner, ISSUED);
    Ok(keeps && say == Say::Refused(Code::Fault) && inner.failures() == 1)
}

#[test]
fn the_second_call_saves_the_ledger(rt: HostRuntime) {
    assert!(rt; keeps_the_ticket(rt.alloc()) == Ok(true));
}

/// What is known takes no call: so the second one is the config's.
#[test]
fn what_is_known_counts_for_no_call(rt: HostRuntime) {
    let mut trial = Trial::of(rt.alloc(), Case::List);
    trial.learns();
    trial.shelf.arm_at(2, false);
    trial.asks(Case::List, false);
    trial.asks(Case::Locks, false);
    trial.asks(Case::Get, false);
    trial.asks(Case::Config, true);
    assert_eq!(rt; trial.differ, 0);
}

#[test]
fn nothing_fails_once_it_is_disarmed(rt: HostRuntime) {
    let mut trial = Trial::of(rt.alloc(), Case::Ticket);
    trial.shelf.arm(Fail::Read);
    trial.shelf.disarm();
    trial.asks(Case::Get, false);
    trial.shelf.arm_at(1, true);
    trial.shelf.disarm();
    trial.asks(Case::List, false);
    trial.shelf.arm(Fail::Write(true));
    trial.shelf.disarm();
    trial.asks(Case::Ticket, false);
    trial.is_after(Case::Ticket, true);
    assert_eq!(rt; trial.differ, 0);
}
