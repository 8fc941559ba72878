//! Stores in a folder whose machine stops after any of its calls, or one of whose calls fails; and the power cuts behind it.

use crate::cutting::Cut;
use crate::fuses::{Fuse, Trick, What};
use crate::lasting::{is_synced, parent_of};
use crate::yards::Yard;
use repo_files::{create_store, open_store};
use repo_locks::Ledger;
use repo_name::{Bytes, Kind, Token, name_of};
use repo_store::{Shelf, ShelfError};
use std::alloc::Global;
use std::fs;
use std::panic::Expect;

/// Where the store is: the folders above it are made, too.
const STORE: &str = "above/store";

/// A file of somebody else's in the folder of what is being written.
const PHOTO: &str = "above/store/tmp/photo.jpg";

/// What a store has behind none of the changes, the first one, the first two and so on: the next number, and then whether
/// the first pack, the second, the index and the config are there; a 2 is for other bytes.
const STATES: [u64; 7] = [1_0000, 1_1000, 1_1010, 2_1010, 2_1011, 2_1111, 2_0111];

/// A config. A folder whose config reads as none isn't opened.
const CONFIG: &[u8] =
    b"{\"chunk_bits\":6,\"chunk_max\":128,\"chunk_min\":64,\"id\":\"00000000000000000000000000000000\",\"pack_target\":1024,\"version\":1}";

/// How many changes there are.
const CHANGES: usize = 6;

/// For a store that can't be read.
const UNREAD: u64 = 8;

/// For a folder that can't be opened as a store.
const UNOPENED: u64 = 9;

/// One change of a shelf.
fn change<S: Shelf>(shelf: &mut S, alloc: Global, which: usize) -> Result<(), ShelfError> {
    match which {
        0 => shelf.put(Kind::Pack, &name_of(b"abc"), b"abc"),
        1 => shelf.put(Kind::Index, &name_of(b"abc"), b"abc"),
        2 => {
            let mut ledger = Ledger::new(alloc);
            let _ = ledger.ticket();
            shelf.save_ledger(&ledger)
        }
        3 => shelf.save_config(CONFIG),
        4 => shelf.put(Kind::Pack, &name_of(b"a second one"), b"a second one"),
        _ => shelf.remove(Kind::Pack, &name_of(b"abc")),
    }
}

/// Makes the changes in turn until one fails, and tells how many were acknowledged. Where one was that isn't on the disk it
/// tells 99.
fn changes<S: Shelf>(shelf: &mut S, fuse: &Fuse) -> usize {
    for which in 0..CHANGES {
        if change(shelf, fuse.alloc, which).is_err() {
            return which;
        }
        if !fuse.lasts(true) {
            return 99;
        }
    }
    CHANGES
}

/// What stands for bytes that are there, for others, or for none.
fn weight(found: Option<Bytes>, bytes: &[u8], whole: u64) -> u64 {
    match found {
        Some(found) if found.as_slice() == bytes => whole,
        Some(_) => whole.saturating_mul(2),
        None => 0,
    }
}

/// All that a shelf answers, as in [`STATES`].
fn seen<S: Shelf>(shelf: &mut S) -> Result<u64, ShelfError> {
    let first = weight(shelf.get(Kind::Pack, &name_of(b"abc"))?, b"abc", 1000);
    let second = shelf.get(Kind::Pack, &name_of(b"a second one"))?;
    let second = weight(second, b"a second one", 100);
    let index = weight(shelf.get(Kind::Index, &name_of(b"abc"))?, b"abc", 10);
    let config = weight(shelf.config()?, CONFIG, 1);
    let packs = first.saturating_add(second);
    let objects = packs.saturating_add(index.saturating_add(config));
    match shelf.ledger()?.ticket() {
        Ok(Token(next)) => Ok(next.saturating_mul(1_0000).saturating_add(objects)),
        Err(_) => Err(ShelfError::Fault),
    }
}

/// Makes a shelf what it was when it was made, but for its config, and gives what it answers.
fn clear<S: Shelf>(shelf: &mut S, alloc: Global) -> Result<u64, ShelfError> {
    shelf.remove(Kind::Pack, &name_of(b"abc"))?;
    shelf.remove(Kind::Pack, &name_of(b"a second one"))?;
    shelf.remove(Kind::Index, &name_of(b"abc"))?;
    shelf.save_ledger(&Ledger::new(alloc))?;
    seen(shelf)
}

/// What a shelf answers, asked once more where a call fails.
fn seen_at_last<S: Shelf>(shelf: &mut S) -> u64 {
    if let Ok(found) = seen(shelf) {
        return found;
    }
    seen(shelf).unwrap_or(UNREAD)
}

/// What is done with a store that is opened.
#[derive(Clone, Copy)]
enum Task {
    /// It is made what it was when it was made.
    Clear,
    /// It tells what it has.
    Look,
    /// So it does, after what was being written there is removed.
    Clean,
    /// The changes are made in turn until one fails, and then it tells what it has.
    Change,
    /// Where one failed, that is made once more behind it, and has to be acknowledged; then it tells again.
    ChangeAgain,
}

/// Makes the changes and looks. How many were acknowledged, and what the shelf answers.
fn went<S: Shelf>(shelf: &mut S, fuse: &Fuse, is_again: bool) -> (usize, u64) {
    let acknowledged = changes(shelf, fuse);
    let found = seen_at_last(shelf);
    if !is_again || acknowledged >= CHANGES {
        return (acknowledged, found);
    }
    let is_made = change(shelf, fuse.alloc, acknowledged).is_ok() && fuse.lasts(true);
    let acknowledged = if is_made {
        acknowledged.saturating_add(1)
    } else {
        99
    };
    (acknowledged, seen_at_last(shelf))
}

/// Does this with a shelf.
fn done<S: Shelf>(shelf: &mut S, fuse: &Fuse, task: Task) -> (usize, u64) {
    match task {
        Task::Clear => (0, clear(shelf, fuse.alloc).unwrap_or(UNREAD)),
        Task::Look | Task::Clean => (0, seen(shelf).unwrap_or(UNREAD)),
        Task::Change => went(shelf, fuse, false),
        Task::ChangeAgain => went(shelf, fuse, true),
    }
}

/// Opens a store and does this with it: how many changes were acknowledged, and what it answers.
fn opened(files: Cut<'_>, root: &str, fuse: &Fuse, task: Task) -> (usize, u64) {
    match open_store(files, root) {
        Ok(mut shelf) => {
            if let Task::Clean = task {
                shelf.folder.disk.clean();
            }
            done(&mut shelf, fuse, task)
        }
        Err(_) => (0, UNOPENED),
    }
}

/// The power goes: each change of a name is undone whose folder wasn't synced behind it, the newest first.
fn cut(rt: HostRuntime, fuse: &Fuse) {
    let mut steps = fuse.steps();
    steps.reverse();
    let steps = steps.as_slice();
    for (i, step) in steps.iter().enumerate() {
        let place = step.path.as_str();
        let is_undone = matches!(step.what, What::Come | What::Remove)
            && !is_synced(&steps[..i], parent_of(place));
        if is_undone {
            let _ = match &step.before {
                Some(bytes) => fs::write(&rt, place, bytes.as_slice()),
                None => fs::remove_file(&rt, place),
            };
        }
    }
}

/// Whether a store has what it has to behind so many acknowledged changes: these, and the one that failed behind them was
/// made, or wasn't.
fn is_due(acknowledged: usize, found: u64) -> bool {
    match STATES.get(acknowledged..) {
        Some([now, next, ..]) => found == *now || found == *next,
        Some([now]) => found == *now,
        _ => false,
    }
}

impl Yard {
    /// A store is made on a machine that stops after so many calls: whether it is told as made. Then all of it is on the disk.
    fn makes_store(&mut self, fuse: &Fuse) -> bool {
        let root = self.place(STORE);
        let is_made = create_store(self.cut(fuse), root.as_str()).is_ok();
        self.count(!is_made || fuse.lasts(true));
        is_made
    }

    /// The store is opened, and this is done with it.
    fn does(&self, fuse: &Fuse, task: Task) -> (usize, u64) {
        opened(self.cut(fuse), self.place(STORE).as_str(), fuse, task)
    }

    /// The store is opened on a machine that doesn't stop, and this is done with it; what it tells.
    fn tells(&self, task: Task) -> u64 {
        let fuse = self.fuse(u64::MAX, Trick::None);
        let (_, found) = self.does(&fuse, task);
        found
    }

    /// How many calls it makes to do so.
    fn calls_of(&self, task: Task) -> u64 {
        let fuse = self.fuse(u64::MAX, Trick::None);
        self.does(&fuse, task);
        fuse.spent()
    }

    /// A store is made whole, and is as a new one, whatever was being written there.
    fn makes_whole(&mut self) {
        let fuse = self.fuse(u64::MAX, Trick::None);
        let is_made = self.makes_store(&fuse);
        let (found, entries) = (self.tells(Task::Look), self.entries("above/store/tmp"));
        self.count(is_made && found == 1_0000 && entries == 0);
    }

    /// A making stops after so many calls: what it left is a new store, or none. Then it is made whole.
    fn stops_making(&mut self, calls: u64) {
        self.clears("above");
        let fuse = self.fuse(calls, Trick::None);
        let is_made = self.makes_store(&fuse);
        let found = self.tells(Task::Look);
        self.count(found == 1_0000 || !is_made && found == UNOPENED);
        self.makes_whole();
    }

    /// The store is made what it was when it was made.
    fn begins(&mut self) {
        let _ = fs::remove_file(&self.rt, self.place("above/store/config").as_str());
        let found = self.tells(Task::Clear);
        self.count(found == 1_0000);
    }

    /// The changes of a store meet the end of a fuse, the machine is started again where it stopped, and then the power goes: how
    /// many changes were acknowledged, and what the store told.
    fn told_until(&self, fuse: &Fuse, task: Task) -> (usize, u64) {
        let (acknowledged, mut found) = self.does(fuse, task);
        if found < 1_0000 {
            fuse.goes_on();
            let (_, again) = self.does(fuse, Task::Look);
            found = again;
        }
        cut(self.rt, fuse);
        (acknowledged, found)
    }

    /// What a store had told then is what the power cut leaves.
    fn meets(&mut self, calls: u64, trick: Trick, task: Task) {
        self.begins();
        let fuse = self.fuse(calls, trick);
        let (acknowledged, found) = self.told_until(&fuse, task);
        let left = self.tells(Task::Clean);
        self.count(is_due(acknowledged, found) && left == found);
        let (is_there, entries) = (self.has(PHOTO, "mine"), self.entries("above/store/tmp"));
        self.count(is_there && entries == 1);
    }

    /// They meet it behind each number of calls. The calls by which a store is opened are alike, so of these a few are tried.
    fn meets_everywhere(&mut self, trick: Trick, task: Task) {
        self.makes_whole();
        self.writes(PHOTO, "mine");
        let looking = self.calls_of(Task::Look);
        let all = self.calls_of(Task::Change);
        self.count(all > looking.saturating_add(30));
        for calls in 0..all {
            if calls % 128 == 0 || calls.saturating_add(20) > looking {
                self.meets(calls, trick, task);
            }
        }
    }
}

#[test]
fn a_machine_that_stops_keeps_what_was_acknowledged(rt: HostRuntime) {
    let mut yard = Yard::new(rt, "stops").expect(&rt, "no folder");
    yard.meets_everywhere(Trick::None, Task::Change);
    yard.end(&rt);
}

#[test]
fn what_was_answered_behind_a_failure_is_never_undone(rt: HostRuntime) {
    let mut yard = Yard::new(rt, "undone").expect(&rt, "no folder");
    yard.meets_everywhere(Trick::FailsOnce, Task::Change);
    yard.end(&rt);
}

#[test]
fn what_failed_is_written_again(rt: HostRuntime) {
    let mut yard = Yard::new(rt, "again").expect(&rt, "no folder");
    yard.meets_everywhere(Trick::FailsOnce, Task::ChangeAgain);
    yard.end(&rt);
}

// Each call is interrupted once, and made again.
#[test]
fn a_store_whose_calls_are_interrupted_acknowledges_all(rt: HostRuntime) {
    let mut yard = Yard::new(rt, "store-interrupted").expect(&rt, "no folder");
    let fuse = yard.fuse(u64::MAX, Trick::Interrupts);
    let is_made = yard.makes_store(&fuse);
    let (acknowledged, found) = yard.does(&fuse, Task::Change);
    yard.count(is_made && acknowledged == CHANGES && found == 2_0111);
    yard.end(&rt);
}

// The folders of packs are alike, so in the midst a few calls are tried.
#[test]
fn a_making_that_stops_is_made_whole(rt: HostRuntime) {
    let mut yard = Yard::new(rt, "making").expect(&rt, "no folder");
    let fuse = yard.fuse(u64::MAX, Trick::None);
    let is_made = yard.makes_store(&fuse);
    let all = fuse.spent();
    yard.count(is_made && all > 256);
    for calls in 0..all {
        if calls % 64 == 0 || calls == 5 || calls.saturating_add(16) > all {
            yard.stops_making(calls);
        }
    }
    yard.end(&rt);
}
