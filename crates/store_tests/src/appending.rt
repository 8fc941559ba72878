//! A store that only appends: what is refused there, and what isn't.

ghost use Rattle.std.specs.Prelude.{IfOk};
ghost use Rattle.repo_store.specs.StoreMachine.{IsAnswerable};

use crate::asks::{Case, ask_of, due, ready, row, said};
use repo_name::{Bytes, Kind, Token, name_of};
use repo_store::{AppendOnly, Fail, FaultShelf, Kept, MemShelf, Shelf};
use repo_wire::{Ask, Code, Say};
use std::alloc::{AllocError, Global};

/// A store that only appends, and how many things weren't as wanted.
#[derive(Drop)]
struct Trial<S: Shelf> {
    alloc: Global,
    shelf: S,
    differ: u64,
}

/// A deletion of the pack `abc` with this number.
fn deletion(number: u64) -> Ask
    ensures { IsAnswerable result }
{
    let (token, kind, name) = (Token(number), Kind::Pack, name_of(b"abc"));
    Ask::Delete { token, kind, name }
}

/// A put of the index `new` with this number.
fn put(alloc: Global, number: u64) -> Result<Ask, AllocError>
    ensures { IfOk result IsAnswerable }
{
    Ok(Ask::Put {
        token: Token(number),
        kind: Kind::Index,
        name: name_of(b"new"),
        bytes: Bytes::of(b"new".to_vec(alloc)?),
    })
}

/// Whether an ask is answered as by a store that doesn't only append.
fn is_plain<S: Shelf>(alloc: Global, shelf: &mut S, case: Case) -> Result<bool, AllocError> {
    let say = said(alloc, shelf, ask_of(alloc, case)?);
    Ok(say == due(alloc, case)?)
}

impl<S: Shelf> Trial<S> {
    fn count(&mut self, is_so: bool) {
        if !is_so {
            self.differ = self.differ.saturating_add(1);
        }
    }

    /// The ask is answered as by a store that doesn't only append.
    fn answers(&mut self, case: Case) {
        let is_so = is_plain(self.alloc, &mut self.shelf, case);
        self.count(is_so == Ok(true));
    }

    /// A deletion with this number is refused, since the store only appends.
    fn refuses(&mut self, number: u64) {
        let say = said(self.alloc, &mut self.shelf, deletion(number));
        self.count(say == Say::Refused(Code::AppendOnly));
    }

    /// A put with this number is answered so.
    fn puts(&mut self, number: u64, wanted: Say) {
        match put(self.alloc, number) {
            Ok(ask) => {
                let say = said(self.alloc, &mut self.shelf, ask);
                self.count(say == wanted);
            }
            Err(_) => self.count(false),
        }
    }

    /// The index `new` is there.
    fn has_the_new_index(&mut self) {
        match self.shelf.get(Kind::Index, &name_of(b"new")) {
            Ok(Some(bytes)) => self.count(bytes.as_slice() == b"new".as_slice()),
            _ => self.count(false),
        }
    }

    /// Nothing is deleted, whatever the number is: 1 is live and exclusive, 2 fresh, and 9 was never issued.
    fn deletes_nothing(&mut self) {
        let is_so = self.shelf.append_only();
        self.count(is_so);
        self.refuses(1);
        self.refuses(2);
        self.refuses(9);
        self.answers(Case::Get);
        self.answers(Case::List);
    }

    /// All else goes as without: a put, an unlock, a lock, a put with either number.
    fn appends(&mut self) {
        self.puts(1, Say::Done);
        self.answers(Case::Unlock);
        self.puts(1, Say::Refused(Code::Dead));
        self.answers(Case::Lock);
        self.puts(2, Say::Done);
        self.has_the_new_index();
        self.answers(Case::Get);
        self.refuses(1);
        self.refuses(2);
    }
}

/// A shelf whose store only appends, with the live exclusive lock 1 and the pack `abc`.
fn appending(alloc: Global) -> Result<AppendOnly<MemShelf>, AllocError> {
    Ok(AppendOnly::new(ready(alloc, Case::DeleteOfWhatIsThere)?))
}

/// How many things weren't as wanted over a shelf whose store only appends.
fn differing<S: Shelf + Drop>(alloc: Global, shelf: S) -> u64 {
    let differ = 0;
    let mut trial = Trial {
        alloc,
        shelf,
        differ,
    };
    trial.deletes_nothing();
    trial.appends();
    trial.differ
}

/// The same where it stands alone, and where one that can fail and one that remembers are around it.
fn differing_in_both(alloc: Global) -> Result<u64, AllocError> {
    let alone = differing(alloc, appending(alloc)?);
    let inner = FaultShelf::new(appending(alloc)?);
    let remembered = differing(alloc, Kept::new(alloc, inner));
    Ok(alone.saturating_add(remembered))
}

#[test]
fn a_store_that_only_appends(rt: HostRuntime) {
    assert!(rt; differing_in_both(rt.alloc()) == Ok(0));
}

/// Whether a deletion is refused while this failure is armed, which then still waits: the ask meets it.
fn waits(alloc: Global, fail: Fail, then: Case) -> Result<bool, AllocError> {
    let mut shelf = Kept::new(alloc, FaultShelf::new(appending(alloc)?));
    shelf.arm(fail);
    let say = said(alloc, &mut shelf, deletion(1));
    let failures = shelf.failures();
    let next = said(alloc, &mut shelf, ask_of(alloc, then)?);
    let is_refused = say == Say::Refused(Code::AppendOnly) && failures == 0;
    Ok(is_refused && next == Say::Refused(Code::Fault))
}

#[test]
fn a_refused_deletion_meets_no_failure(rt: HostRuntime) {
    let read = waits(rt.alloc(), Fail::Read, Case::Get);
    let write = waits(rt.alloc(), Fail::Write(true), Case::Refresh);
    assert!(rt; read == Ok(true) && write == Ok(true));
}

/// Whether the inner shelf of one that refused a deletion makes it.
fn deletes_within(alloc: Global) -> Result<bool, AllocError> {
    let mut shelf = appending(alloc)?;
    let say = said(alloc, &mut shelf, deletion(1));
    let mut inner = shelf.into_inner();
    let within = said(alloc, &mut inner, deletion(1));
    Ok(say == Say::Refused(Code::AppendOnly) && within == Say::Done)
}

#[test]
fn the_inner_shelf_deletes(rt: HostRuntime) {
    assert!(rt; deletes_within(rt.alloc()) == Ok(true));
}

/// Whether a removal that is called of the shelf itself is passed down.
fn removes(alloc: Global) -> Result<bool, AllocError> {
    let mut shelf = appending(alloc)?;
    let removed = shelf.remove(Kind::Pack, &name_of(b"abc"));
    let found = shelf.get(Kind::Pack, &name_of(b"abc"));
    Ok(removed == Ok(()) && found == Ok(None))
}

#[test]
fn a_removal_is_passed_down(rt: HostRuntime) {
    assert!(rt; removes(rt.alloc()) == Ok(true));
}
