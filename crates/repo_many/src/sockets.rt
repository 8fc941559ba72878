//! One connection, with its socket.

ghost use Rattle.std.specs.Prelude.{◌≡◌, ◌≢◌, ◌<◌, [], List, length, slice_get, Some};
ghost use Rattle.repo_hall.specs.Guests.{IsAwaited};
ghost use Rattle.repo_hall.specs.Halls.{HallLeads, StaysAt};
ghost use Rattle.repo_hall.specs.declared.guests.Guest.{Guest};
ghost use Rattle.repo_many.specs.Endings.{GuestIs, IsDone};
ghost use Rattle.repo_many.specs.Wires.{HallServes, HallServesStill, IsLost};
ghost use Rattle.repo_many.specs.declared.progress.Progress.{Progress};
ghost use Rattle.repo_store.specs.Channels.{Passage};

use crate::idling::{endure, is_idle};
use crate::large_frames::{HEAD, Room};
use crate::progress::Progress;
use crate::steps::{give, reply, take};
use crate::wires::Wire;
use repo_hall::Hall;
use repo_store::{ServeError, Shelf};

/// What a round knows of the time, in nanoseconds.
#[derive(Clone, Copy, Debug)]
pub struct Timing {
    /// The time that counted so far.
    pub time: u64,
    /// A connection that is idle for so long ends; `None`: none does.
    pub idle: Option<u64>,
}

/// A turn of the connection at a place.
#[derive(Clone, Copy, Debug)]
pub struct Turn {
    pub place: usize,
    /// What it may read.
    pub room: Room,
    pub timing: Timing,
}

/// A connection's socket.
#[derive(Drop)]
pub struct Socket<T: Drop> {
    pub stream: T,
    /// When it moved last.
    pub since: u64,
    /// It may be read from or written to, as far as is known.
    pub ready: bool,
    /// Its input ended.
    pub at_end: bool,
    /// The length of the frame that is being read, as far as the bytes came that name it.
    pub named: u32,
}

/// The length that bytes name that go on with these.
fn length_after(named: u32, bytes: &[u8]) -> u32 {
    let mut named = named;
    for byte in bytes {
        named = named.wrapping_mul(256).wrapping_add(u32::from(*byte));
    }
    named
}

impl<T: Wire + Drop> Socket<T> {
    /// How many bytes are read at most, where so many of the frame are there: what its length lacks, or else the
    /// frame. So nothing is read of a frame before the one in front of it was answered.
    fn wanted(&self, held: usize) -> usize {
        if held < HEAD {
            return HEAD - held;
        }
        let whole = HEAD + self.named as usize;
        whole.saturating_sub(held).max(1)
    }

    /// Goes on with the input of a guest of which more is awaited: a piece is taken, or it ended.
    fn take_more(&mut self, hall: &mut Hall, turn: Turn, piece: &mut [u8]) -> Progress
        requires place { turn.place < length hall.old.guests.items }
        requires awaited { (g : Guest) → slice_get hall.old.guests.items turn.place ≡ Some g → IsAwaited g }
        ensures end { result ≡ Progress.AtEnd → GuestIs IsDone hall.new.guests.items turn.place }
        ensures serves { (lost : List Passage) × IsLost result lost × HallServesStill T.hears T.says hall.old turn.place self.old.stream lost hall.new self.new.stream }
        ensures places { length hall.new.guests.items ≡ length hall.old.guests.items }
        ensures guests { StaysAt hall.old turn.place hall.new }
    {
        if self.at_end {
            if hall.is_between(turn.place) {
                return Progress::AtEnd;
            }
            return Progress::Failed(ServeError::Malformed);
        }
        if turn.room == Room::Barred {
            return Progress::Barred;
        }
        let held = hall.held(turn.place);
        let most = self.wanted(held).min(piece.len());
        let taken = take(hall, turn.place, &mut piece[..most], &mut self.stream);
        if taken == Progress::AtEnd {
            self.at_end = true;
            return Progress::Moved;
        }
        if held < HEAD {
            let count = hall.held(turn.place).saturating_sub(held).min(most);
            self.named = length_after(self.named, &piece[..count]);
        }
        taken
    }

    /// What is to be given is written; where nothing is, one request is answered; and where there is none, a
    /// piece is read. Nothing more is done for a guest that is answered no more.
    fn advance<S: Shelf>(
        &mut self,
        hall: &mut Hall,
        turn: Turn,
        piece: &mut [u8],
        shelf: &mut S,
    ) -> Progress
        requires { turn.place < length hall.old.guests.items }
        ensures end { result ≡ Progress.AtEnd → GuestIs IsDone hall.new.guests.items turn.place }
        ensures serves { S.honest shelf.old → (lost : List Passage) × IsLost result lost
            × HallServes T.hears T.says hall.old (S.store shelf.old) (S.failed shelf.old) turn.place self.old.stream lost hall.new (S.store shelf.new) (S.failed shelf.new) self.new.stream }
        ensures honest { S.honest shelf.old → S.honest shelf.new }
        ensures places { length hall.new.guests.items ≡ length hall.old.guests.items }
        ensures guests { StaysAt hall.old turn.place hall.new }
    {
        if !self.ready {
            return Progress::Still;
        }
        let given = give(hall, turn.place, &mut self.stream);
        if given != Progress::Still || !hall.out(turn.place).is_empty() {
            return given;
        }
        match reply(hall, turn.place, shelf) {
            Progress::Still => {
                if hall.has_ended(turn.place) {
                    return Progress::AtEnd;
                }
                self.take_more(hall, turn, piece)
            }
            replied => replied,
        }
    }

    /// It stands still: it isn't ready, and fails if it was idle for too long.
    fn stand(&mut self, hall: &Hall, turn: Turn) -> Progress
        requires { turn.place < length hall.now.guests.items }
        ensures goes_on { result ≢ Progress.AtEnd }
        ensures stream { self.new.stream ≡ self.old.stream }
    {
        self.ready = false;
        let is_idle = is_idle(turn.timing.idle, turn.timing.time, self.since);
        endure(is_idle, !hall.out(turn.place).is_empty())
    }

    /// One turn. A connection fails that is idle for too long, or that lost its room; one that waits for room isn't idle.
    pub fn turn<S: Shelf>(
        &mut self,
        hall: &mut Hall,
        turn: Turn,
        piece: &mut [u8],
        shelf: &mut S,
    ) -> Progress
        requires { turn.place < length hall.old.guests.items }
        ensures end { result ≡ Progress.AtEnd → GuestIs IsDone hall.new.guests.items turn.place }
        ensures serves { S.honest shelf.old → (lost : List Passage) × IsLost result lost
            × HallServes T.hears T.says hall.old (S.store shelf.old) (S.failed shelf.old) turn.place self.old.stream lost hall.new (S.store shelf.new) (S.failed shelf.new) self.new.stream }
        ensures leads { S.honest shelf.old → HallLeads hall.old (S.store shelf.old) (S.failed shelf.old) hall.new (S.store shelf.new) (S.failed shelf.new) }
        ensures honest { S.honest shelf.old → S.honest shelf.new }
        ensures places { length hall.new.guests.items ≡ length hall.old.guests.items }
        ensures guests { StaysAt hall.old turn.place hall.new }
    {
        match turn.room {
            Room::TooSlow => return Progress::TooSlow,
            Room::NoMemory => return Progress::Failed(ServeError::Memory),
            _ => {}
        }
        let progress = self.advance(hall, turn, piece, shelf);
        if progress == Progress::Still {
            return self.stand(hall, turn);
        }
        self.since = turn.timing.time;
        progress
    }
}
