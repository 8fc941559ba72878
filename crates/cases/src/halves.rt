//! A store of small files in memory, of which half are forgotten, and jobs at it.

use crate::lines::ScriptError;
use crate::stored::{done, shelf_with};
use repo_name::{Bytes, Name, Names, Text};
use repo_prune::Choice;
use repo_store::MemShelf;
use repo_tree::{Entry, EntryKind, Path};
use repo_world::{Entries, Job};
use std::alloc::{AllocError, Global};

/// The bytes of a file.
const FILE: usize = 64;

/// How many packs the first backup makes, about.
const PACKS: usize = 50;

/// Which files are backed up.
#[derive(Clone, Copy)]
enum Files {
    All,
    EveryOther,
}

/// Whether the file of a number is among these.
fn is_among(files: Files, number: usize) -> bool {
    match files {
        Files::All => true,
        Files::EveryOther => number % 2 == 0,
    }
}

/// The path of a directory of a thousand files.
fn directory(alloc: Global, number: usize) -> Result<Vec<Text>, AllocError> {
    let thousand = number / 1_000;
    let mut path = Vec::new(alloc);
    path.push(Text::of(format!(in alloc; "{thousand:05}")?))?;
    Ok(path)
}

/// The directory in which the file of this number is the first.
fn folder(alloc: Global, number: usize) -> Result<Entry, AllocError> {
    Ok(Entry {
        path: Path::of(directory(alloc, number)?),
        what: EntryKind::Dir,
    })
}

/// A file that holds its number in digits.
fn file(alloc: Global, number: usize) -> Result<Entry, AllocError> {
    let mut path = directory(alloc, number)?;
    path.push(Text::of(format!(in alloc; "{number:08}")?))?;
    let held = format!(in alloc; "{number:064}")?;
    Ok(Entry {
        path: Path::of(path),
        what: EntryKind::File(Bytes::of(held.as_bytes().to_vec(alloc)?)),
    })
}

/// These of so many files, and their directories.
fn entries_of(alloc: Global, count: usize, files: Files) -> Result<Vec<Entry>, AllocError> {
    let mut entries = Vec::new(alloc);
    for number in 0..count {
        if number % 1_000 == 0 {
            entries.push(folder(alloc, number)?)?;
        }
        if is_among(files, number) {
            entries.push(file(alloc, number)?)?;
        }
    }
    Ok(entries)
}

/// Backs up these of so many files: the snapshot's name.
fn back_up(
    alloc: Global,
    shelf: &mut MemShelf,
    count: usize,
    files: Files,
) -> Result<Name, ScriptError> {
    let entries = entries_of(alloc, count, files)?;
    done(alloc, shelf, Job::Backup(Entries::of(entries)))
}

/// Forgets the snapshot of this name.
fn forget(alloc: Global, shelf: &mut MemShelf, name: Name) -> Result<Name, ScriptError> {
    let mut names = Vec::new(alloc);
    names.push(name)?;
    done(alloc, shelf, Job::Forget(Choice::Names(Names::of(names))))
}

/// A shelf without objects, for so many files.
fn shelf_for(alloc: Global, count: usize) -> Result<MemShelf, ScriptError> {
    shelf_with(alloc, (count.saturating_mul(FILE) / PACKS).max(1_024))
}

/// Lays a backup of every other one of so many files on the shelf, after one of all of them was forgotten: the name of the
/// snapshot that stays.
fn forget_half(alloc: Global, shelf: &mut MemShelf, count: usize) -> Result<Name, ScriptError> {
    let all = back_up(alloc, shelf, count, Files::All)?;
    let half = back_up(alloc, shelf, count, Files::EveryOther)?;
    forget(alloc, shelf, all)?;
    Ok(half)
}

/// The name of the snapshot that stays in such a store.
pub fn forgotten(alloc: Global, count: usize) -> Result<Name, ScriptError> {
    let mut shelf = shelf_for(alloc, count)?;
    forget_half(alloc, &mut shelf, count)
}

/// The name of the words for how a job at such a store ended.
pub fn done_at_half(alloc: Global, count: usize, job: Job) -> Result<Name, ScriptError> {
    let mut shelf = shelf_for(alloc, count)?;
    forget_half(alloc, &mut shelf, count)?;
    done(alloc, &mut shelf, job)
}
