//! A folder as a stream of items.

ghost use Rattle.std.specs.Prelude.{◌≡◌, ◌≤◌, ◌++◌, ◌∷◌, [], ℕ, false, IfOk, IfErr, IfSome, OnOk, OnErr, length};
ghost use Rattle.repo_feeding.specs.Sources.{FitsRoom};

use crate::identities::{Identity, Links, check_stays, look};
use crate::interruptions::retry_interrupted;
use crate::listings::{Listing, OpenDirectory, entries_in};
use crate::places::{place_in, without_slash};
use crate::walk_ends::{Skipped, WalkError, told, unreadable};
use repo_feeding::{Found, Source};
use repo_tree::is_component;
use std::alloc::{AllocError, AllocGlobal, Global};
use std::fs::{File, Files, Metadata, OpenFile};
use std::io;
use std::io::{ErrorKind, Read};

/// A directory that is open: its place, whether a link there is followed, which directory it is, and the names in it that are left, the
/// next one last.
#[derive(Drop)]
struct Level<R: Files> {
    place: String,
    links: Links,
    directory: Identity,
    names: Vec<String>,
    /// It is held, so that its file system doesn't number it anew.
    open: OpenDirectory<R>,
}

impl<R: Files> Level<R> {
    /// Its path. The place of the root is empty.
    fn path(&self) -> &str {
        if self.place.is_empty() {
            "/"
        } else {
            self.place.as_str()
        }
    }
}

/// A directory that is to be listed: its path, the place that stands before the names in it, whether a link at the path is followed,
/// and what the path led to when it was looked at.
#[derive(Clone, Copy)]
struct Directory<'a> {
    word: &'a str,
    place: &'a str,
    links: Links,
    found: Identity,
}

/// A file that is open: its place, how long it was when it was opened, and how much of it was read.
#[derive(Drop)]
struct OpenedFile<F> {
    file: F,
    place: String,
    length: u64,
    read: u64,
}

/// A walk through a folder, that gives its directories and files one after another, the names of each directory ascending
/// by their bytes, and what is in a directory before what comes behind it. It holds no list of them all: of each
/// directory that is open the names that are left.
///
/// A link to a directory as the folder itself is followed; below it no link is. What is neither a directory nor a file,
/// and what has a name that isn't UTF-8, is left out, and noted. The error names the first path that can't be read, or
/// whose name no backup can hold: the word given, and below it the names joined by `/`.
///
/// Nothing is proved of what files hold: a file that is written meanwhile may be read half old, half new. A file is read only if
/// what was opened is the very file that was looked at, and up to the length that it had when it was opened: what it grows by
/// behind that isn't read. One that ends before that length can't be read.
///
/// A directory is listed twice, and what either listing has is taken. It can't be read if its path leads to something else behind
/// that than before: so neither a link that was put in its place is followed, nor one that was removed taken for an empty one. Its path
/// is looked at again behind each opening of an entry. If it leads elsewhere then, the entry can't be read: so nothing of another
/// directory is taken that was put in its place after it was listed.
///
/// The walk doesn't notice a directory that is exchanged, and exchanged back, while it is listed, or while an entry is opened. The kit
/// opens a file by its path alone, and has no flags: the opening follows links, and waits for a writer of a pipe. If a file is replaced
/// by a pipe between the look at it and its opening, the walk waits. If it is replaced by a device, the walk opens the device, and
/// closes it.
#[derive(Drop)]
pub struct FolderWalk<'a, R: Files> {
    rt: &'a R,
    /// The word given.
    folder: &'a str,
    /// The directories that are open, the folder itself first.
    levels: Vec<Level<R>>,
    file: Option<OpenedFile<R::File>>,
    skipped: Vec<Skipped>,
    /// The name of the directory or file that was found last.
    name: String,
    /// It told why no more come.
    failed: bool,
}

impl<'a, R: Files + AllocGlobal + Clone + Drop> FolderWalk<'a, R> {
    /// A walk through this folder, which is listed. Where that can't be done, the error names the word given.
    pub fn new(rt: &'a R, folder: &'a str) -> Result<FolderWalk<'a, R>, WalkError>
        ensures { IfOk result (λ walk. walk.failed ≡ false) }
    {
        let mut walk = FolderWalk {
            rt,
            folder,
            levels: Vec::new(rt.alloc()),
            file: None,
            skipped: Vec::new(rt.alloc()),
            name: String::new(rt.alloc()),
            failed: false,
        };
        let found = match look(rt, folder, Links::Followed) {
            Ok(found) => found,
            Err(error) => return Err(told(rt.alloc(), folder, &error)),
        };
        let directory = Directory {
            word: folder,
            place: without_slash(folder),
            links: Links::Followed,
            found: Identity::of(&found),
        };
        walk.open(&directory)?;
        Ok(walk)
    }

    /// What was left out so far, in the order in which it was met.
    pub fn skipped(&self) -> &[Skipped]
        ensures { result.now ≡ self.now.skipped.items }
    {
        self.skipped.as_slice()
    }

    /// Lists a directory, and opens it.
    fn open(&mut self, directory: &Directory<'_>) -> Result<(), WalkError>
        ensures { self.new.failed ≡ self.old.failed }
    {
        let alloc = self.rt.alloc();
        let Directory { word, place, .. } = *directory;
        let (mut listing, open) = match self.list(directory) {
            Ok(listed) => listed,
            Err(error) => return Err(told(alloc, word, &error)),
        };
        for _ in 0..listing.unnamed {
            let folder = String::from_str(alloc, word)?;
            self.skip(Skipped::Unnamed(folder))?;
        }
        are_possible(alloc, place, listing.names.as_slice())?;
        listing.names.reverse();
        self.add_level(Level {
            place: String::from_str(alloc, place)?,
            links: directory.links,
            directory: directory.found,
            names: listing.names,
            open,
        })?;
        Ok(())
    }

    /// The entries of a directory, which stays open. The directory in which it is has to be where it was, behind the listing.
    fn list(&self, directory: &Directory<'_>) -> io::Result<(Listing, OpenDirectory<R>)> {
        let Directory {
            word,
            links,
            found,
            ..
        } = *directory;
        let listed = entries_in(self.rt, word, links, found)?;
        self.check_level()?;
        Ok(listed)
    }

    /// Checks that the path of the directory that was opened last still leads to it. So what was opened in it before this check is its
    /// own.
    fn check_level(&self) -> io::Result<()> {
        match self.levels.last() {
            Some(level) => check_stays(self.rt, level.path(), level.links, level.directory),
            None => Ok(()),
        }
    }

    /// Opens a file in the directory that was opened last, if it is the very file that was looked at: nothing was put in its place, or
    /// in the place of the directory. Returns the file and its length.
    fn open_file(&self, place: &str, found: &Metadata) -> io::Result<(R::File, u64)> {
        let file = File::open(self.rt, place)?;
        let opened = retry_interrupted(|| file.metadata())?;
        if !opened.is_file() || Identity::of(&opened) != Identity::of(found) {
            return Err(io::Error::from(ErrorKind::Other));
        }
        self.check_level()?;
        Ok((file, opened.len()))
    }

    /// Adds an open directory.
    fn add_level(&mut self, level: Level<R>) -> Result<(), AllocError>
        ensures { self.new.failed ≡ self.old.failed }
    {
        self.levels.push(level)?;
        Ok(())
    }

    /// Adds what is left out.
    fn skip(&mut self, what: Skipped) -> Result<(), AllocError>
        ensures ok { OnOk result (self.new.skipped.items ≡ self.old.skipped.items ++ what ∷ []) }
        ensures err { OnErr result (self.new.skipped.items ≡ self.old.skipped.items) }
        ensures failed { self.new.failed ≡ self.old.failed }
    {
        self.skipped.push(what)?;
        Ok(())
    }

    /// The next directory or file, or the end of a directory, or of all.
    fn next_entry(&mut self) -> Result<Found, WalkError>
        ensures fits { IfOk result (λ found. (room : ℕ) → FitsRoom room found) }
        ensures failed { self.new.failed ≡ self.old.failed }
    {
        for _ in 0..u64::MAX {
            let Some(level) = self.levels.last_mut() else {
                return Ok(Found::End);
            };
            let Some(name) = level.names.pop() else {
                return Ok(self.close());
            };
            let place = place_in(self.rt.alloc(), level.place.as_str(), name.as_str())?;
            if let Some(found) = self.enter(name, place)? {
                return Ok(found);
            }
        }
        Err(unreadable(self.rt.alloc(), self.folder))
    }

    /// Closes the directory that was opened last.
    fn close(&mut self) -> Found
        ensures fits { (room : ℕ) → FitsRoom room result }
        ensures failed { self.new.failed ≡ self.old.failed }
    {
        self.levels.pop();
        if self.levels.is_empty() {
            Found::End
        } else {
            Found::Close
        }
    }

    /// Opens what has this name; `None` where it is left out.
    fn enter(&mut self, name: String, place: String) -> Result<Option<Found>, WalkError>
        ensures fits { IfOk result (λ entered. IfSome entered (λ found. (room : ℕ) → FitsRoom room found)) }
        ensures failed { self.new.failed ≡ self.old.failed }
    {
        let found = match look(self.rt, place.as_str(), Links::NotFollowed) {
            Ok(found) => found,
            Err(error) => return Err(told(self.rt.alloc(), place.as_str(), &error)),
        };
        if found.is_dir() {
            let directory = Directory {
                word: place.as_str(),
                place: place.as_str(),
                links: Links::NotFollowed,
                found: Identity::of(&found),
            };
            self.open(&directory)?;
            self.name = name;
            return Ok(Some(Found::Dir));
        }
        if !found.is_file() {
            self.leave_out(place)?;
            return Ok(None);
        }
        match self.open_file(place.as_str(), &found) {
            Ok((file, length)) => {
                self.file = Some(OpenedFile {
                    file,
                    place,
                    length,
                    read: 0,
                });
                self.name = name;
                Ok(Some(Found::File))
            }
            Err(error) => Err(told(self.rt.alloc(), place.as_str(), &error)),
        }
    }

    /// Leaves out what is neither a directory nor a file.
    fn leave_out(&mut self, place: String) -> Result<(), WalkError>
        ensures { self.new.failed ≡ self.old.failed }
    {
        if let Err(error) = self.check_level() {
            return Err(told(self.rt.alloc(), place.as_str(), &error));
        }
        self.skip(Skipped::Other(place))?;
        Ok(())
    }

    /// What comes next: more of the open file, else an entry.
    fn find(&mut self, room: &mut [u8]) -> Result<Found, WalkError>
        requires { 1 ≤ length room.old }
        ensures fits { IfOk result (FitsRoom (length room.new)) }
        ensures failed { self.new.failed ≡ self.old.failed }
    {
        let Some(opened) = &mut self.file else {
            return self.next_entry();
        };
        if opened.read >= opened.length {
            self.file = None;
            return Ok(Found::Close);
        }
        match opened.read_on(room) {
            Ok(0) => Err(unreadable(self.rt.alloc(), opened.place.as_str())),
            Ok(count) => Ok(Found::Bytes(count)),
            Err(error) => Err(told(self.rt.alloc(), opened.place.as_str(), &error)),
        }
    }
}

/// That each of these names may stand in a path of a backup, of what is in this place.
fn are_possible(alloc: Global, place: &str, names: &[String]) -> Result<(), WalkError> {
    for name in names {
        if !is_component(name.as_str()) {
            return Err(WalkError::Unreadable(place_in(alloc, place, name.as_str())?));
        }
    }
    Ok(())
}

impl<F: Read> OpenedFile<F> {
    /// Reads on, up to the length that the file had when it was opened: how many bytes, none at its end.
    fn read_on(&mut self, room: &mut [u8]) -> io::Result<usize>
        ensures { IfOk result (λ count. count ≤ length room.new) }
    {
        let left = self.length.saturating_sub(self.read);
        let most = left.min(room.len() as u64) as usize;
        for _ in 0..u64::MAX {
            match self.file.read(&mut room[..most]) {
                Ok(count) => {
                    self.read = self.read.saturating_add(count as u64);
                    return Ok(count);
                }
                Err(error) if error.kind() == ErrorKind::Interrupted => {}
                Err(error) => return Err(error),
            }
        }
        Err(io::Error::from(ErrorKind::Interrupted))
    }
}

impl<R: Files + AllocGlobal + Clone + Drop> Source for FolderWalk<'_, R> {
    ghost use Rattle.std.specs.Prelude.{◌≡◌, true, None, string_bytes};

    type Error = WalkError;

    ghost told = { λ _. None };

    ghost failed = { λ walk error. walk.failed ≡ true };

    ghost rewinds = { ⊥ };

    ghost name = { λ walk. string_bytes walk.name };

    fn next(&mut self, room: &mut [u8]) -> Result<Found, WalkError> {
        match self.find(room) {
            Ok(found) => Ok(found),
            Err(error) => {
                self.failed = true;
                Err(error)
            }
        }
    }

    fn name(&self) -> &str {
        self.name.as_str()
    }

    fn rewind(&mut self) -> bool {
        false
    }
}
