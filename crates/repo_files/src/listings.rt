//! The entries of a directory.
//!
//! The kit takes the error `ENOENT` of a listing for its end, as the C library does: a directory that was removed has no more
//! names. So a listing that is cut off looks like a whole one. Therefore each directory is listed twice, and looked at again
//! behind that.
//!
//! Some file systems number a directory anew once nobody has it open. So a directory whose number is compared later stays open.

use crate::identities::{Identity, Links, check_stays, look};
use crate::interruptions::{MOST_TRIES, retry_interrupted};
use std::alloc::{AllocGlobal, Global};
use std::fs::{Files, ReadDir};
use std::io::ErrorKind;
use std::{fs, io};

/// The entries of a directory.
#[derive(Drop)]
pub struct Listing {
    /// The names.
    pub names: Vec<String>,
    /// How many names aren't UTF-8.
    pub unnamed: u64,
}

/// A directory that is open.
#[derive(Drop)]
pub struct OpenDirectory<R: Files> {
    entries: ReadDir<R>,
}

impl<R: Files + AllocGlobal + Clone + Drop> OpenDirectory<R> {
    /// Opens a directory. An opening that is interrupted is made again, as often as by [`retry_interrupted`]. (The prover doesn't cover a
    /// call of that with a closure whose result names a type parameter.)
    fn open(rt: &R, path: &str) -> io::Result<OpenDirectory<R>> {
        for _ in 0..MOST_TRIES {
            match fs::read_dir(rt, path) {
                Ok(entries) => return Ok(OpenDirectory { entries }),
                Err(error) if error.kind() == ErrorKind::Interrupted => {}
                Err(error) => return Err(error),
            }
        }
        Err(io::Error::from(ErrorKind::TimedOut))
    }

    /// Lists what wasn't listed yet, until an error of the system. The names come in its order.
    fn list(&mut self, alloc: Global) -> io::Result<Listing> {
        let mut names = Vec::new(alloc);
        let mut unnamed = 0u64;
        for entry in self.entries.by_ref() {
            match entry {
                Ok(entry) => names.push(String::from_str(alloc, entry.file_name())?)?,
                Err(error) if error.kind() == ErrorKind::InvalidFilename => {
                    unnamed = unnamed.saturating_add(1);
                }
                Err(error) => return Err(error),
            }
        }
        Ok(Listing { names, unnamed })
    }
}

/// Lists a directory once, until an error of the system.
fn list_until_error<R: Files + AllocGlobal + Clone + Drop>(
    rt: &R,
    path: &str,
) -> io::Result<Listing> {
    let mut open = OpenDirectory::open(rt, path)?;
    open.list(rt.alloc())
}

/// Lists a directory once. The names come in the system's order. A listing that is interrupted is begun anew.
pub fn list<R: Files + AllocGlobal + Clone + Drop>(rt: &R, path: &str) -> io::Result<Listing> {
    retry_interrupted(|| list_until_error(rt, path))
}

/// Lists a directory that was just opened. A listing that is interrupted is begun anew.
fn list_opened<R: Files + AllocGlobal + Clone + Drop>(
    rt: &R,
    path: &str,
    open: &mut OpenDirectory<R>,
) -> io::Result<Listing> {
    match open.list(rt.alloc()) {
        Err(error) if error.kind() == ErrorKind::Interrupted => list(rt, path),
        listed => listed,
    }
}

/// The names, ascending, each once.
fn sorted(mut names: Vec<String>) -> Vec<String> {
    names.sort_unstable();
    names.dedup();
    names
}

/// The entries of a directory that other programs may change meanwhile: the names that either of two listings gives, ascending, each once.
/// So a name is missing only if both listings lack it. `directory` is what the path led to before. If it leads to another directory
/// behind the listings, or the directory was removed, the error is of the kind `NotFound`. The directory stays open as long as the
/// second value is kept.
pub fn entries_in<R: Files + AllocGlobal + Clone + Drop>(
    rt: &R,
    path: &str,
    links: Links,
    directory: Identity,
) -> io::Result<(Listing, OpenDirectory<R>)> {
    let mut open = OpenDirectory::open(rt, path)?;
    let Listing { mut names, unnamed } = list_opened(rt, path, &mut open)?;
    let mut again = list(rt, path)?;
    check_stays(rt, path, links, directory)?;
    names.append(&mut again.names)?;
    let listing = Listing {
        names: sorted(names),
        unnamed: unnamed.max(again.unnamed),
    };
    Ok((listing, open))
}

/// The entries of a directory that no other program changes, ascending. Two listings have to give the same entries, and the directory
/// has to be there behind them: else this is an error.
pub fn entries_at_rest<R: Files + AllocGlobal + Clone + Drop>(
    rt: &R,
    path: &str,
) -> io::Result<Listing> {
    let directory = Identity::of(&look(rt, path, Links::Followed)?);
    let (listing, again) = (list(rt, path)?, list(rt, path)?);
    let (names, names_again) = (sorted(listing.names), sorted(again.names));
    if names.as_slice() != names_again.as_slice() || listing.unnamed != again.unnamed {
        return Err(io::Error::from(ErrorKind::Other));
    }
    check_stays(rt, path, Links::Followed, directory)?;
    Ok(Listing {
        names,
        unnamed: listing.unnamed,
    })
}
