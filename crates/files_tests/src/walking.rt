//! Walks over a file system that stops after any call, over one whose calls are interrupted, and over one in which a file or a folder is
//! exchanged.

use crate::fuses::Trick;
use crate::yards::Yard;
use repo_feeding::{Found, Source};
use repo_files::{FolderWalk, WalkError};
use std::alloc::AllocGlobal;
use std::fs::Files;
use std::os::unix::fs::symlink;
use std::panic::Expect;

/// What is behind a word and a bracket, of a text that begins so; else `wrong`.
fn behind<'a>(text: &'a str, word: &str, bracket: &str) -> &'a str {
    match text.strip_prefix(word) {
        Some(rest) => rest.strip_prefix(bracket).unwrap_or("wrong"),
        None => "wrong",
    }
}

/// Whether a walk finds what a text says, to its end: each name, and in brackets what is in it.
fn walks_on<R: Files + AllocGlobal + Clone + Drop>(
    walk: &mut FolderWalk<R>,
    wanted: &str,
) -> Result<bool, WalkError> {
    let mut room = [0u8; 64];
    let mut left = wanted;
    for _ in 0..u64::MAX {
        match walk.next(&mut room)? {
            Found::Dir | Found::File => left = behind(left, walk.name(), "("),
            Found::Bytes(count) => {
                left = behind(left, str::from_utf8(&room[..count]).unwrap_or("?"), "");
            }
            Found::Close => left = behind(left, "", ")"),
            Found::End => return Ok(left.is_empty()),
        }
    }
    Ok(false)
}

/// Whether a walk through a folder finds this.
fn finds<R: Files + AllocGlobal + Clone + Drop>(
    files: &R,
    folder: &str,
    wanted: &str,
) -> Result<bool, WalkError> {
    let mut walk = FolderWalk::new(files, folder)?;
    walks_on(&mut walk, wanted)
}

impl Yard {
    /// A walk through a folder finds all; or it names a path in the folder that can't be read, which ends so.
    fn walks(&mut self, calls: u64, trick: Trick, wanted: &str) {
        let fuse = self.fuse(calls, trick);
        let folder = self.place("d");
        let is_so = match finds(&self.cut(&fuse), folder.as_str(), "e(f(abc))") {
            Ok(is_whole) => is_whole && wanted == "whole",
            Err(WalkError::Unreadable(path)) => {
                let path = path.as_str();
                path.starts_with(folder.as_str()) && path.ends_with(wanted)
            }
            Err(WalkError::Memory) => false,
        };
        self.count(is_so);
    }

    /// Whether a walk, in which a folder is exchanged behind so many calls, finds this, or names a path that can't be read.
    fn walks_or_ends(&self, calls: u64, wanted: &str) -> bool {
        let fuse = self.fuse(calls, Trick::OtherFolder);
        match finds(&self.cut(&fuse), self.place("d").as_str(), wanted) {
            Ok(is_whole) => is_whole,
            Err(WalkError::Unreadable(_)) => true,
            Err(WalkError::Memory) => false,
        }
    }

    /// Such a walk finds one of the folders whole, or names a path that can't be read, as it does at so many places of the exchange.
    fn walks_one_of_two(&mut self, calls: u64) -> u64 {
        let is_first = self.walks_or_ends(calls, "e(f(abc))");
        let is_other = self.walks_or_ends(calls, "e(f(xyz)g(!))");
        self.count(is_first || is_other);
        u64::from(is_first && is_other)
    }
}

// A whole walk looks at two folders, lists each twice and looks at it again, and once more at the upper one; and it looks at the file,
// opens it, looks at it and at its folder again, and reads it once.
#[test]
fn a_walk_is_whole_or_names_a_path(rt: HostRuntime) {
    let mut yard = Yard::new(rt, "unread").expect(&rt, "no folder");
    yard.makes("d/e");
    yard.writes("d/e/f", "abc");
    for calls in 0..14u64 {
        yard.walks(calls, Trick::None, "");
    }
    yard.walks(14, Trick::None, "whole");
    yard.walks(u64::MAX, Trick::Interrupts, "whole");
    yard.end(&rt);
}

#[test]
fn nothing_is_read_of_a_folder_that_came_in_the_place_of_another(rt: HostRuntime) {
    let mut yard = Yard::new(rt, "exchanged-folder").expect(&rt, "no folder");
    yard.makes("d/e");
    yard.writes("d/e/f", "abc");
    yard.makes("other");
    yard.writes("other/f", "xyz");
    yard.writes("other/g", "!");
    let mut ended = 0u64;
    for calls in 0..16u64 {
        let is_ended = yard.walks_one_of_two(calls);
        ended = ended.saturating_add(is_ended);
    }
    yard.count(ended == 8);
    yard.end(&rt);
}

#[test]
fn a_file_that_came_in_the_place_of_another_is_not_read(rt: HostRuntime) {
    let mut yard = Yard::new(rt, "exchanged").expect(&rt, "no folder");
    yard.makes("d");
    yard.writes("secret", "abc");
    yard.writes("d/f", "abc");
    let is_linked = symlink(&rt, "../secret", yard.place("d/f-other").as_str()).is_ok();
    yard.count(is_linked);
    yard.walks(u64::MAX, Trick::OtherFile, "/d/f");
    yard.end(&rt);
}
