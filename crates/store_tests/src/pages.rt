//! The page that a shelf is remembered by: one of more names than a client's, and that of a shelf whose page doesn't rise or
//! isn't the last one, of which a list is a fault and nothing else.

use crate::asks::said;
use repo_locks::Ledger;
use repo_name::{Bytes, Kind, Name, Names, Token};
use repo_store::{Kept, MemShelf, Page, Shelf, ShelfError, Slice};
use repo_wire::{Ask, Code, Say};
use std::alloc::Global;

/// A shelf that gives one page of names, whatever it is asked to begin after. It has nothing else, and is never at fault.
#[derive(Drop)]
struct OnePage {
    alloc: Global,
    names: &'static [Name],
    more: bool,
}

impl Shelf for OnePage {
    ghost use Rattle.repo_store.specs.Stores.{empty};
    ghost use Rattle.repo_store.specs.declared.faults.Armed.{Armed};

    ghost store = { λ _. empty };

    ghost failed = { λ _. 0 };

    ghost armed = { λ _. Armed.Nothing };

    ghost own = { λ _. 0 };

    ghost reads = { λ _. 0 };

    ghost writes = { λ _. 0 };

    ghost faults = { λ _. 0 };

    ghost honest = { λ _. ⊥ };

    fn get(&mut self, _: Kind, _: &Name) -> Result<Option<Bytes>, ShelfError> {
        Ok(None)
    }

    fn range(&mut self, _: &Name, _: u32, _: u32) -> Result<Slice, ShelfError> {
        Ok(Slice::Missing)
    }

    fn put(&mut self, _: Kind, _: &Name, _: &[u8]) -> Result<(), ShelfError> {
        Ok(())
    }

    fn remove(&mut self, _: Kind, _: &Name) -> Result<(), ShelfError> {
        Ok(())
    }

    fn names_after(&mut self, _: Kind, _: Option<&Name>, limit: usize) -> Result<Page, ShelfError> {
        let mut names = self.names.to_vec(self.alloc)?;
        names.truncate(limit);
        Ok(Page {
            names: Names::of(names),
            more: self.more,
        })
    }

    fn ledger(&mut self) -> Result<Ledger, ShelfError> {
        Ok(Ledger::new(self.alloc))
    }

    fn live_as(&mut self, _: Token) -> Result<Option<bool>, ShelfError> {
        Ok(None)
    }

    fn save_ledger(&mut self, _: &Ledger) -> Result<(), ShelfError> {
        Ok(())
    }

    fn config(&mut self) -> Result<Option<Bytes>, ShelfError> {
        Ok(None)
    }

    fn save_config(&mut self, _: &[u8]) -> Result<(), ShelfError> {
        Ok(())
    }

    fn failures(&self) -> u64 {
        0
    }

    fn append_only(&self) -> bool {
        false
    }
}

const LOW: Name = Name([1; 32]);

const HIGH: Name = Name([2; 32]);

/// How many lists weren't answered as wanted.
#[derive(Drop)]
struct Trial {
    alloc: Global,
    differ: u64,
}

impl Trial {
    fn count(&mut self, is_so: bool) {
        if !is_so {
            self.differ = self.differ.saturating_add(1);
        }
    }

    /// What the shelf that remembers says to a list of the packs.
    fn lists(&mut self, shelf: &mut Kept<OnePage>) -> Say {
        let (kind, after) = (Kind::Pack, None);
        said(self.alloc, shelf, Ask::List { kind, after })
    }

    /// A list of a shelf with this page is a fault, each time, and no failure is counted.
    fn is_a_fault(&mut self, names: &'static [Name], more: bool) {
        let alloc = self.alloc;
        let mut shelf = Kept::new(alloc, OnePage { alloc, names, more });
        let first = self.lists(&mut shelf);
        let again = self.lists(&mut shelf);
        self.count(first == Say::Refused(Code::Fault));
        self.count(again == Say::Refused(Code::Fault));
        self.count(shelf.failures() == 0);
    }

    /// A list of a shelf with this page gives these names.
    fn is_given(&mut self, names: &'static [Name]) {
        let alloc = self.alloc;
        let more = false;
        let mut shelf = Kept::new(alloc, OnePage { alloc, names, more });
        match self.lists(&mut shelf) {
            Say::Names { more, names: given } => self.count(!more && given.as_slice() == names),
            _ => self.count(false),
        }
    }
}

#[test]
fn pages_that_do_not_rise_or_have_more_behind_them_are_a_fault(rt: HostRuntime) {
    let mut trial = Trial {
        alloc: rt.alloc(),
        differ: 0,
    };
    trial.is_a_fault(&[HIGH, LOW], false);
    trial.is_a_fault(&[LOW, LOW], false);
    trial.is_a_fault(&[LOW], true);
    trial.is_a_fault(&[LOW, HIGH], true);
    trial.is_a_fault(&[], true);
    trial.is_given(&[LOW, HIGH]);
    trial.is_given(&[]);
    assert_eq!(rt; trial.differ, 0);
}

/// A name of these first bytes.
fn name_at(high: u8, low: u8) -> Name {
    let mut bytes = [0u8; 32];
    bytes[0] = high;
    bytes[1] = low;
    Name(bytes)
}

/// Puts 150 packs whose names begin with this byte.
fn put_many(shelf: &mut MemShelf, high: u8) -> Result<(), ShelfError> {
    for low in 0..150u8 {
        shelf.put(Kind::Pack, &name_at(high, low), b"")?;
    }
    Ok(())
}

/// A shelf with 300 packs.
fn many(alloc: Global) -> Result<MemShelf, ShelfError> {
    let mut shelf = MemShelf::new(alloc);
    put_many(&mut shelf, 0)?;
    put_many(&mut shelf, 1)?;
    Ok(shelf)
}

/// How many names of packs are listed after this one, the last of them, and whether more follow.
fn listed(
    alloc: Global,
    shelf: &mut Kept<MemShelf>,
    after: Option<Name>,
) -> Option<(usize, Option<Name>, bool)> {
    let kind = Kind::Pack;
    match said(alloc, shelf, Ask::List { kind, after }) {
        Say::Names { more, names } => {
            Some((
                names.as_slice().len(),
                names.as_slice().last().copied(),
                more,
            ))
        }
        _ => None,
    }
}

/// Whether 300 names are listed as 256 and 44 of them.
fn lists_many(alloc: Global) -> Result<bool, ShelfError> {
    let mut shelf = Kept::new(alloc, many(alloc)?);
    let (middle, end) = (name_at(1, 105), name_at(1, 149));
    let first = listed(alloc, &mut shelf, None);
    let second = listed(alloc, &mut shelf, Some(middle));
    let third = listed(alloc, &mut shelf, Some(end));
    let begins = first == Some((256, Some(middle), true));
    let ends = second == Some((44, Some(end), false));
    Ok(begins && ends && third == Some((0, None, false)))
}

#[test]
fn more_than_a_page_is_remembered(rt: HostRuntime) {
    assert!(rt; lists_many(rt.alloc()) == Ok(true));
}
