//! Jobs over a shelf in memory: a backup of random bytes and a restore of it, and what other jobs need for such a shelf.

use crate::clients::{JobEnd, do_job};
use crate::lines::{ScriptError, cut};
use crate::random::random_bytes;
use crate::stores::config_of;
use repo_name::{Bytes, Name, Text, name_of};
use repo_session::Emission;
use repo_store::{InitError, MemShelf, init};
use repo_tree::{Entry, EntryKind, Path};
use repo_world::{Entries, Job};
use std::alloc::{AllocError, Global};

/// The default target of a pack.
const TARGET: usize = 16_777_216;

/// How a job ends if the store had no memory for a request.
const NO_MEMORY: &str = "refused 11";

/// A shelf with the default config, but for the bytes of a pack.
pub fn shelf_with(alloc: Global, target: usize) -> Result<MemShelf, ScriptError> {
    let words = format!(in alloc; "524288 8388608 20 {target}")?;
    let Ok(config) = config_of(words.as_str()) else {
        return Err(ScriptError::Stopped);
    };
    let mut shelf = MemShelf::new(alloc);
    match init(alloc, &mut shelf, &config) {
        Ok(()) => Ok(shelf),
        Err(InitError::Memory) => Err(ScriptError::Memory),
        Err(_) => Err(ScriptError::Stopped),
    }
}

/// The name of the last piece that was given out.
fn last_piece(given: &[Emission]) -> Name {
    let mut last: &[u8] = &[];
    for emission in given {
        if let Emission::Piece(bytes) = emission {
            last = bytes.as_slice();
        }
    }
    name_of(last)
}

/// The name that the end of a job comes to: a backup's is that of its snapshot, a restore's that of the last piece that it gave
/// out, and that of another the name of the words for how it ended.
fn name_of_end(end: &JobEnd) -> Result<Name, ScriptError> {
    let text = end.text.as_str();
    match cut(text).0 {
        "stored" => end.stored.ok_or(ScriptError::Stopped),
        "complete" => Ok(last_piece(end.given.as_slice())),
        "forgotten" | "pruned" | "clean" | "listed" | "upgraded" => Ok(name_of(text.as_bytes())),
        "refused" if text == NO_MEMORY => Err(ScriptError::Memory),
        // One job follows another. So a lock is left only if the store had no memory for the request that removes it.
        "busy" => Err(ScriptError::Memory),
        _ => Err(ScriptError::Stopped),
    }
}

/// Does a job: the name that its end comes to.
pub fn done(alloc: Global, shelf: &mut MemShelf, job: Job) -> Result<Name, ScriptError> {
    let end = do_job(alloc, job, shelf)?;
    name_of_end(&end)
}

/// One file of these bytes.
fn one_file(alloc: Global, bytes: Vec<u8>) -> Result<Vec<Entry>, AllocError> {
    let mut path = Vec::new(alloc);
    path.push(Text::of(String::from_str(alloc, "random")?))?;
    let mut entries = Vec::new(alloc);
    entries.push(Entry {
        path: Path::of(path),
        what: EntryKind::File(Bytes::of(bytes)),
    })?;
    Ok(entries)
}

/// Backs one file of so many random bytes up into a shelf: the snapshot's name.
fn back_up(alloc: Global, shelf: &mut MemShelf, size: usize) -> Result<Name, ScriptError> {
    let entries = one_file(alloc, random_bytes(alloc, size)?)?;
    done(alloc, shelf, Job::Backup(Entries::of(entries)))
}

/// The name of the snapshot of a backup of so many random bytes, with the default config.
pub fn backed_up(alloc: Global, size: usize) -> Result<Name, ScriptError> {
    let mut shelf = shelf_with(alloc, TARGET)?;
    back_up(alloc, &mut shelf, size)
}

/// The name of the last piece that a restore of such a backup gives out.
pub fn restored(alloc: Global, size: usize) -> Result<Name, ScriptError> {
    let mut shelf = shelf_with(alloc, TARGET)?;
    let snapshot = back_up(alloc, &mut shelf, size)?;
    done(alloc, &mut shelf, Job::Restore(snapshot))
}
