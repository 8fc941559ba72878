//! Objects and configs that a store gives or keeps, where a shelf has them without its having put them.

ghost use Rattle.repo_store.specs.StoreMachine.{IsAnswerable};

use crate::asks::{VERSION_1, said};
use crate::failures::made;
use repo_name::{Kind, Name, name_of};
use repo_store::{InitError, MemShelf, Shelf, Slice};
use repo_wire::{Ask, Code, Say};
use std::alloc::Global;

/// A shelf in memory, and how many things weren't as wanted.
#[derive(Drop)]
struct Trial {
    alloc: Global,
    shelf: MemShelf,
    large: Vec<u8>,
    differ: u64,
}

impl Trial {
    /// A trial with a text that is too large by a byte for a snapshot and for a config.
    fn new(alloc: Global) -> Trial {
        let large = match vec![in alloc; 0u8; 65_537] {
            Ok(large) => large,
            Err(_) => Vec::new(alloc),
        };
        Trial {
            alloc,
            shelf: MemShelf::new(alloc),
            large,
            differ: 0,
        }
    }

    fn count(&mut self, is_so: bool) {
        if !is_so {
            self.differ = self.differ.saturating_add(1);
        }
    }

    /// The shelf keeps so many first bytes of the large text as a snapshot of this name.
    fn keeps(&mut self, name: Name, length: usize) {
        let put = match self.large.as_slice().get(..length) {
            Some(bytes) => self.shelf.put(Kind::Snapshot, &name, bytes).is_ok(),
            None => false,
        };
        self.count(put);
    }

    fn keeps_as_config(&mut self, length: usize) {
        let saved = match self.large.as_slice().get(..length) {
            Some(bytes) => self.shelf.save_config(bytes).is_ok(),
            None => false,
        };
        self.count(saved);
    }

    fn is_refused(&mut self, ask: Ask)
        requires { IsAnswerable ask }
    {
        let say = said(self.alloc, &mut self.shelf, ask);
        self.count(matches!(say, Say::Refused(Code::TooLarge)));
    }

    /// So many bytes are answered.
    fn is_given(&mut self, ask: Ask, length: usize)
        requires { IsAnswerable ask }
    {
        match said(self.alloc, &mut self.shelf, ask) {
            Say::Bytes(bytes) => self.count(bytes.as_slice().len() == length),
            _ => self.count(false),
        }
    }

    /// These bytes of the pack `abc` are found, or none where it isn't there.
    fn lends(&mut self, wanted: Option<&[u8]>) {
        match (self.shelf.range(&name_of(b"abc"), 1, 1), wanted) {
            (Ok(Slice::Found(bytes)), Some(wanted)) => self.count(bytes.as_slice() == wanted),
            (Ok(Slice::Missing), None) => {}
            _ => self.count(false),
        }
    }

    fn puts_the_pack(&mut self) {
        let put = self.shelf.put(Kind::Pack, &name_of(b"abc"), b"abc");
        self.count(put.is_ok());
    }

    fn begins(&mut self, wanted: Result<(), InitError>) {
        let made = made(self.alloc, &mut self.shelf);
        self.count(made == wanted);
    }

    fn says_the_config(&mut self, wanted: &[u8]) {
        match said(self.alloc, &mut self.shelf, Ask::Config) {
            Say::Bytes(bytes) => self.count(bytes.as_slice() == wanted),
            _ => self.count(false),
        }
    }
}

#[test]
fn what_is_above_its_limit_is_not_given(rt: HostRuntime) {
    let mut trial = Trial::new(rt.alloc());
    let (kind, name) = (Kind::Snapshot, name_of(b"large"));
    let least = name_of(b"at its limit");
    trial.keeps(name, 65_537);
    trial.keeps(least, 65_536);
    trial.is_refused(Ask::Get { kind, name });
    trial.is_given(Ask::Get { kind, name: least }, 65_536);
    trial.keeps_as_config(65_537);
    trial.is_refused(Ask::Config);
    trial.keeps_as_config(65_536);
    trial.is_given(Ask::Config, 65_536);
    assert_eq!(rt; trial.differ, 0);
}

#[test]
fn a_slice_of_a_pack_is_lent(rt: HostRuntime) {
    let mut trial = Trial::new(rt.alloc());
    trial.lends(None);
    trial.puts_the_pack();
    trial.lends(Some(b"b"));
    assert_eq!(rt; trial.differ, 0);
}

#[test]
fn a_config_is_kept_once(rt: HostRuntime) {
    let mut trial = Trial::new(rt.alloc());
    trial.begins(Ok(()));
    trial.begins(Err(InitError::Exists));
    trial.says_the_config(VERSION_1);
    assert_eq!(rt; trial.differ, 0);
}
