//! Restorers that are given parts, also in the wrong place, and over a file system that stops after any call.

use crate::cutting::Cut;
use crate::fuses::Trick;
use crate::yards::{Yard, text_or_none};
use repo_files::Restorer;
use repo_name::{Bytes, Text};
use repo_session::Emission;
use repo_tree::Path;
use std::alloc::{AllocError, Global};
use std::os::unix::fs::symlink;
use std::panic::Expect;

/// The parts that restorers are given, line by line: `dir PATH`, `file PATH`, `piece TEXT`, `close`, and a directory of an empty
/// path, `nowhere`. The names of a path are joined by `>`. Before them stand how many were taken before one wasn't, whether the
/// end is told (where the last word is `gone` it isn't asked for), and how many entries are in the target behind it.
const GIVEN: &str = "0 true 0:
4 true 1: dir a;file a>b;piece abc;close
6 true 1: dir a;dir a>b;file a>b>c;piece abc;piece def;close
2 false 0: file a;piece abc
3 false 1: dir a;file a>b;piece abc
2 false 0: file a;piece abc;gone
4 false 1: dir a;file a>b;piece abc;close;gone
0 false 0: piece abc;dir a
0 false 0: close;dir a
1 false 0: file a;file b;close
1 false 0: file a;dir b;close
1 false 0: file a;nowhere;close
3 false 1: file a;close;file a;close;dir b
1 false 1: dir a;close
1 false 1: dir a;dir a;dir b
2 false 1: dir a;file a;close;file b
0 false 0: dir a>b;dir a
0 false 0: nowhere;dir a
0 false 0: dir a/b;dir a
0 false 0: dir ../a;dir a
0 false 0: dir /;dir a
0 false 0: dir .;dir a
0 false 0: dir ..;dir a
0 false 0: dir >a;dir a
1 false 1: dir a;dir ..;dir good
1 false 1: dir a;dir a>..>b;dir good
1 false 1: dir a;dir a>>b;dir good
1 false 1: dir a;dir a>;dir good
1 false 1: dir a;dir a>.;dir good
1 false 1: dir a;file ..;file good
1 false 1: dir a;file a>..>b;file good
1 false 1: dir a;file a>>b;file good
1 false 1: dir a;file .;file good
1 false 1: dir a;file >a;file good
1 false 1: dir a;file a>;file good
1 false 1: dir a;file a/b;file good";

/// A directory with a file in it, and a file beside it.
const WHOLE: &str = "dir deep;file deep>a;piece abc;piece def;close;file b;piece x;close";

/// The path of these components, which stand between `>`.
fn path(alloc: Global, components: &str) -> Result<Path, AllocError> {
    let mut path = Vec::new(alloc);
    for component in components.split('>') {
        path.push(Text::of(String::from_str(alloc, component)?))?;
    }
    Ok(Path::of(path))
}

/// The part that a few words tell.
fn part(alloc: Global, words: &str) -> Result<Emission, AllocError> {
    match words.split_once(' ') {
        Some(("dir", components)) => Ok(Emission::Dir(path(alloc, components)?)),
        Some(("file", components)) => Ok(Emission::File(path(alloc, components)?)),
        Some((_, text)) => Ok(Emission::Piece(Bytes::of(text.as_bytes().to_vec(alloc)?))),
        None if words == "nowhere" => Ok(Emission::Dir(Path::of(Vec::new(alloc)))),
        None => Ok(Emission::Close),
    }
}

/// Whether a restorer takes a part.
fn takes(restorer: &mut Restorer<Cut<'_>>, alloc: Global, words: &str) -> bool {
    match part(alloc, words) {
        Ok(part) => restorer.write(&part),
        Err(_) => false,
    }
}

/// How many of these parts a restorer takes before one that it doesn't, and whether it tells its end.
fn taken(restorer: &mut Restorer<Cut<'_>>, alloc: Global, parts: &str) -> (usize, bool) {
    let mut count = 0usize;
    for words in parts.split(';') {
        if words == "gone" {
            return (count, false);
        }
        if words.is_empty() || !takes(restorer, alloc, words) {
            break;
        }
        count = count.saturating_add(1);
    }
    (count, restorer.finish())
}

/// The same of a new one into a folder.
fn restored(files: Cut<'_>, root: &str, parts: &str) -> (usize, bool) {
    let alloc = files.alloc();
    match Restorer::new(files, root) {
        Ok(mut restorer) => taken(&mut restorer, alloc, parts),
        Err(_) => (0, false),
    }
}

impl Yard {
    /// A restorer into a folder of its own is given the parts of a line, and it and the folder are as the line says.
    fn restores(&mut self, target: &str, line: &str) {
        let (wanted, parts) = line.split_once(':').unwrap_or((line, ""));
        let fuse = self.fuse(u64::MAX, Trick::None);
        let (count, is_ended) = restored(
            self.cut(&fuse),
            self.place(target).as_str(),
            parts.trim_start(),
        );
        let entries = self.entries(target);
        let alloc = self.rt.alloc();
        let told = text_or_none(alloc, format!(in alloc; "{count} {is_ended} {entries}"));
        self.count(told.as_str() == wanted);
        self.clears(target);
    }

    /// A restore on a machine that stops after so many calls: how many parts it takes, whether it tells its end, and whether all
    /// that it made is on the disk.
    fn restores_until(&self, calls: u64) -> (usize, bool, bool) {
        let fuse = self.fuse(calls, Trick::None);
        let target = self.place("above/target");
        let (count, is_ended) = restored(self.cut(&fuse), target.as_str(), WHOLE);
        let lasts = fuse.lasts(false);
        (count, is_ended, lasts)
    }

    /// A file is there whole where a restore told its end, and else whole or not at all.
    fn is_whole(&mut self, name: &str, text: &str, is_ended: bool) {
        let is_so = self.has(name, text) || !is_ended && self.lacks(name);
        self.count(is_so);
    }

    /// On a machine that stops after so many calls a restore tells its end only where all that it made is on the disk: whether
    /// it does. Each of its files is there whole, or isn't there.
    fn stops_restoring(&mut self, calls: u64) -> bool {
        self.clears("above");
        let (count, is_ended, lasts) = self.restores_until(calls);
        self.is_whole("above/target/deep/a", "abcdef", is_ended);
        self.is_whole("above/target/b", "x", is_ended);
        let entries = self.entries("above/target");
        self.count(!is_ended || lasts && count == 8 && entries == 2);
        is_ended
    }
}

// Each call is interrupted once, and made again.
#[test]
fn a_restore_whose_calls_are_interrupted_is_whole(rt: HostRuntime) {
    let mut yard = Yard::new(rt, "interrupted").expect(&rt, "no folder");
    yard.makes("");
    let fuse = yard.fuse(u64::MAX, Trick::Interrupts);
    let (count, is_ended) = restored(yard.cut(&fuse), yard.place("above/target").as_str(), WHOLE);
    yard.is_whole("above/target/deep/a", "abcdef", true);
    yard.is_whole("above/target/b", "x", true);
    let entries = yard.entries("above/target");
    yard.count(is_ended && count == 8 && entries == 2);
    yard.end(&rt);
}

#[test]
fn parts_are_taken_in_their_place(rt: HostRuntime) {
    let mut yard = Yard::new(rt, "given").expect(&rt, "no folder");
    for line in GIVEN.lines() {
        yard.restores("target", line);
    }
    let is_linked = symlink(&rt, "away", yard.place("link").as_str()).is_ok();
    yard.writes("file", "mine");
    for target in ["link", "file/below", "file"] {
        yard.restores(target, "0 false 99: dir a");
    }
    let is_free = yard.lacks("away");
    yard.count(is_linked && is_free);
    yard.end(&rt);
}

// Some calls for each entry, and for the two folders that are made.
#[test]
fn what_a_restore_tells_is_on_the_disk(rt: HostRuntime) {
    let mut yard = Yard::new(rt, "ended").expect(&rt, "no folder");
    yard.makes("");
    let (mut is_ended, mut last) = (false, 0u64);
    for calls in 0..200u64 {
        if !is_ended {
            is_ended = yard.stops_restoring(calls);
            last = calls;
        }
    }
    yard.count(is_ended && last > 30);
    yard.end(&rt);
}
