//! A store is made in a folder on a disk in memory, and found again after a cut.

use repo_disk::{Choice, Comes, MemDisk};
use repo_folder::DirShelf;
use repo_name::{Bytes, Kind, name_of};
use repo_store::{Shelf, ShelfError};
use std::alloc::{AllocError, Global};

/// A disk on which nothing is kept yet, with these choices for its coming calls.
fn disk(alloc: Global) -> MemDisk {
    MemDisk::new(alloc, Vec::new(alloc))
}

/// How many folders are synced before a call is answered where it isn't known what lasts.
const SYNCS: usize = 260;

/// The choices that a sync of all folders succeeds, and then these, the next one last.
fn after_syncs(alloc: Global, choices: Vec<Choice>) -> Result<Vec<Choice>, AllocError> {
    let mut all = choices;
    for _ in 0..SYNCS {
        all.push(Choice::Succeeds(Comes::ToThis))?;
    }
    Ok(all)
}

/// Whether what is read is these bytes.
fn is(read: &Result<Option<Bytes>, ShelfError>, bytes: &[u8]) -> bool {
    match read {
        Ok(Some(found)) => found.as_slice() == bytes,
        _ => false,
    }
}

/// Whether nothing is read.
fn is_nothing(read: &Result<Option<Bytes>, ShelfError>) -> bool {
    matches!(read, Ok(None))
}

/// A store that is made.
fn made(alloc: Global) -> Result<DirShelf<MemDisk>, ShelfError> {
    DirShelf::create(disk(alloc), alloc).map_err(|unopened| unopened.error)
}

/// A store that is made, and opened on a disk whose next rename does this.
fn opened(alloc: Global, rename: Choice) -> Result<DirShelf<MemDisk>, ShelfError> {
    let mut choices = Vec::new(alloc);
    choices.push(rename).map_err(|_| ShelfError::Memory)?;
    for _ in 0..3 {
        choices
            .push(Choice::Succeeds(Comes::ToThis))
            .map_err(|_| ShelfError::Memory)?;
    }
    let mut disk = made(alloc)?.close();
    disk.choose(after_syncs(alloc, choices)?);
    DirShelf::open(disk, alloc).map_err(|unopened| unopened.error)
}

#[test]
fn what_is_put_is_found_after_a_cut(rt: HostRuntime) -> Result<(), ShelfError> {
    let alloc = rt.alloc();
    let name = name_of(b"index");
    let mut shelf = made(alloc)?;
    shelf.put(Kind::Index, &name, b"index")?;
    shelf.save_config(b"config")?;
    let mut shelf = shelf.cut();
    let mut wrong = 0u32;
    if !is(&shelf.get(Kind::Index, &name), b"index") {
        wrong += 1;
    }
    if !is(&shelf.config(), b"config") {
        wrong += 1;
    }
    let page = shelf.names_after(Kind::Index, None, 8)?;
    if page.more || page.names.as_slice() != [name].as_slice() {
        wrong += 1;
    }
    assert_eq!(rt; wrong, 0);
    Ok(())
}

#[test]
fn what_a_cut_undoes_was_never_told(rt: HostRuntime) -> Result<(), ShelfError> {
    let alloc = rt.alloc();
    let name = name_of(b"index");
    let mut shelf = opened(alloc, Choice::Succeeds(Comes::ToBefore))?;
    let mut wrong = 0u32;
    if shelf.put(Kind::Index, &name, b"index") != Err(ShelfError::Fault) {
        wrong += 1;
    }
    if shelf.get(Kind::Index, &name).is_ok() {
        wrong += 1;
    }
    let mut shelf = shelf.cut();
    if !is_nothing(&shelf.get(Kind::Index, &name)) {
        wrong += 1;
    }
    assert_eq!(rt; wrong, 0);
    Ok(())
}

#[test]
fn what_failed_and_was_made_lasts(rt: HostRuntime) -> Result<(), ShelfError> {
    let alloc = rt.alloc();
    let name = name_of(b"index");
    let mut shelf = opened(alloc, Choice::FailsAfter(Comes::ToThis))?;
    let mut wrong = 0u32;
    if shelf.put(Kind::Index, &name, b"index") != Err(ShelfError::Fault) {
        wrong += 1;
    }
    if !is(&shelf.get(Kind::Index, &name), b"index") {
        wrong += 1;
    }
    let mut shelf = shelf.cut();
    if !is(&shelf.get(Kind::Index, &name), b"index") {
        wrong += 1;
    }
    assert_eq!(rt; wrong, 0);
    Ok(())
}
