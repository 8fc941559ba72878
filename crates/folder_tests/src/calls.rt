//! Each call of a shelf in a folder, and a life of it, over a disk that could stop.

use repo_disk::{MemDisk, Stopping};
use repo_folder::{DirShelf, Turn, live};
use repo_locks::Ledger;
use repo_name::{Bytes, Kind, Token, name_of};
use repo_store::{Shelf, ShelfError, Slice};
use std::alloc::{AllocError, Global};

/// A disk on which nothing is kept yet, and which stops after so many calls.
fn stopping(alloc: Global, left: u64) -> Stopping<MemDisk> {
    Stopping::new(MemDisk::new(alloc, Vec::new(alloc)), left)
}

/// A store that is made on a disk which stops after so many calls.
fn made(alloc: Global, left: u64) -> Result<DirShelf<Stopping<MemDisk>>, ShelfError> {
    DirShelf::create(stopping(alloc, left), alloc).map_err(|unopened| unopened.error)
}

/// Whether a slice is these bytes.
fn is_slice(slice: &Slice, bytes: &[u8]) -> bool {
    match slice {
        Slice::Found(found) => found.as_slice() == bytes,
        _ => false,
    }
}

/// Whether nothing is read.
fn is_nothing(read: &Result<Option<Bytes>, ShelfError>) -> bool {
    matches!(read, Ok(None))
}

/// Whether a disk's failure is told.
fn is_refused(made: &Result<DirShelf<Stopping<MemDisk>>, ShelfError>) -> bool {
    matches!(made, Err(ShelfError::Fault))
}

#[test]
fn each_call_is_answered(rt: HostRuntime) -> Result<(), ShelfError> {
    let alloc = rt.alloc();
    let name = name_of(b"pack");
    let mut shelf = made(alloc, u64::MAX)?;
    shelf.put(Kind::Pack, &name, b"pack")?;
    let mut ledger = shelf.ledger()?;
    let mut wrong = 0u32;
    if ledger.ticket().is_err() {
        wrong = wrong.saturating_add(1);
    }
    shelf.save_ledger(&ledger)?;
    let mut shelf = shelf.kill();
    if shelf.ledger()?.write()?.as_slice() != ledger.write()?.as_slice() {
        wrong = wrong.saturating_add(1);
    }
    if !is_slice(&shelf.range(&name, 1, 2)?, b"ac") {
        wrong = wrong.saturating_add(1);
    }
    let page = shelf.names_after(Kind::Pack, None, 8)?;
    if page.more || page.names.as_slice() != [name].as_slice() {
        wrong = wrong.saturating_add(1);
    }
    shelf.remove(Kind::Pack, &name)?;
    if !is_nothing(&shelf.get(Kind::Pack, &name)) {
        wrong = wrong.saturating_add(1);
    }
    if shelf.failures() != 0 {
        wrong = wrong.saturating_add(1);
    }
    assert_eq!(rt; wrong, 0);
    Ok(())
}

/// Takes a lock alone for the next token.
fn lock_alone(ledger: &mut Ledger) -> Option<Token> {
    let token = ledger.ticket().ok()?;
    ledger.lock(token, true, 5, "h").ok()?;
    Some(token)
}

#[test]
fn a_token_is_live_while_its_lock_is_kept(rt: HostRuntime) -> Result<(), ShelfError> {
    let alloc = rt.alloc();
    let mut shelf = made(alloc, u64::MAX)?;
    let mut ledger = shelf.ledger()?;
    let locked = lock_alone(&mut ledger);
    shelf.save_ledger(&ledger)?;
    let held = shelf.live_as(Token(1))?;
    let other = shelf.live_as(Token(2))?;
    let removed = ledger.unlock(Token(1));
    shelf.save_ledger(&ledger)?;
    let gone = shelf.live_as(Token(1))?;
    assert_eq!(rt; locked, Some(Token(1)));
    assert!(rt; removed);
    assert!(rt; held == Some(true) && other.is_none() && gone.is_none());
    Ok(())
}

#[test]
fn a_disk_that_stops_keeps_what_was_told(rt: HostRuntime) -> Result<(), ShelfError> {
    let alloc = rt.alloc();
    let name = name_of(b"index");
    let mut wrong = 0u32;
    if !is_refused(&made(alloc, 500)) {
        wrong = wrong.saturating_add(1);
    }
    let shelf = made(alloc, 526)?;
    let mut turns = Vec::new(alloc);
    let bytes = Bytes::of(b"index".to_vec(alloc)?);
    turns
        .push(Turn::Put(Kind::Index, name, bytes))
        .map_err(|_| ShelfError::Memory)?;
    turns.push(Turn::Cut).map_err(|_| ShelfError::Memory)?;
    let (mut shelf, told) = live(alloc, shelf, &turns)?;
    if told.first() != Some(&Err(ShelfError::Fault)) {
        wrong = wrong.saturating_add(1);
    }
    if shelf.get(Kind::Index, &name).is_err() {
        wrong = wrong.saturating_add(1);
    }
    assert_eq!(rt; wrong, 0);
    Ok(())
}
