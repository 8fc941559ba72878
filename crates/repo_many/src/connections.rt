//! All connections of a server, each at its place, and rounds over them.

ghost use Rattle.std.specs.Prelude.{◌≡◌, ◌≢◌, ◌<◌, List, length, slice_get, Some};
ghost use Rattle.repo_hall.specs.Guests.{IsNewGuest};
ghost use Rattle.repo_hall.specs.Halls.{HallLeads, HallLeavesStore, LeavesOthers, NothingHappens, StaysAt};
ghost use Rattle.repo_many.specs.Connected.{ConnectionsLead, IsStill, LeavesPlaces};
ghost use Rattle.repo_many.specs.Endings.{GuestIs, IsDone, IsFreed, IsOver};
ghost use Rattle.repo_many.specs.Wires.{HallServes, IsLost};
ghost use Rattle.repo_many.specs.declared.places.Place.{Place};
ghost use Rattle.repo_many.specs.declared.progress.Progress.{Progress};
ghost use Rattle.repo_many.specs.declared.sockets.Socket.{Socket};
ghost use Rattle.repo_many.specs.declared.times.Served.{Served};
ghost use Rattle.repo_store.specs.Channels.{Passage};
ghost use Rattle.repo_store.specs.declared.serving.ServeError.{ServeError};

use crate::large_frames::{HEAD, LARGE, LargeFrame, LargeFrames, Room};
use crate::places::{Place, leave, left_by, named_at};
use crate::progress::Progress;
use crate::sockets::{Timing, Turn};
use crate::times::Tally;
use crate::wires::Wire;
use repo_hall::Hall;
use repo_store::{ServeError, Shelf};
use std::io::Write;
use std::mem::replace;

/// The connections of a server, with their guests.
#[derive(Drop)]
pub struct Connections<T: Drop> {
    /// The guests.
    pub hall: Hall,
    /// The sockets, at the places of their guests.
    pub places: Vec<Place<T>>,
    /// Which of them have room for a large frame, or wait for it.
    pub large: LargeFrames,
    /// Room for a piece of what is read.
    pub piece: Vec<u8>,
}

impl<T: Wire + Drop> Connections<T> {
    /// The turn of the connection at a place, if there is one.
    fn turn_at<S: Shelf>(&mut self, turn: Turn, shelf: &mut S) -> Progress
        requires { turn.place < length self.old.hall.guests.items }
        ensures end { result ≡ Progress.AtEnd → GuestIs IsDone self.new.hall.guests.items turn.place }
        ensures serves { S.honest shelf.old → (s : Socket _) → slice_get self.old.places.items turn.place ≡ Some (Place.Taken s)
            → (t : Socket _) × (slice_get self.new.places.items turn.place ≡ Some (Place.Taken t)) × (lost : List Passage) × IsLost result lost
            × HallServes T.hears T.says self.old.hall (S.store shelf.old) (S.failed shelf.old) turn.place s.stream lost self.new.hall (S.store shelf.new) (S.failed shelf.new) t.stream }
        ensures nobody { ((s : Socket _) → slice_get self.old.places.items turn.place ≢ Some (Place.Taken s)) → (result ≡ Progress.Still) × (self.new.hall ≡ self.old.hall) × IsStill self.old.places.items self.new.places.items × (shelf.new ≡ shelf.old) }
        ensures kept { LeavesPlaces self.old.places.items turn.place self.new.places.items }
        ensures leads { S.honest shelf.old → HallLeads self.old.hall (S.store shelf.old) (S.failed shelf.old) self.new.hall (S.store shelf.new) (S.failed shelf.new) }
        ensures honest { S.honest shelf.old → S.honest shelf.new }
        ensures places { length self.new.hall.guests.items ≡ length self.old.hall.guests.items }
        ensures guests { StaysAt self.old.hall turn.place self.new.hall }
    {
        if turn.place >= self.places.len() {
            return Progress::Still;
        }
        let here = replace(&mut self.places[turn.place], Place::LeftOut);
        match here {
            Place::Taken(mut socket) => {
                let piece = self.piece.as_mut_slice();
                let progress = socket.turn(&mut self.hall, turn, piece, shelf);
                self.places[turn.place] = Place::Taken(socket);
                progress
            }
            other => {
                self.places[turn.place] = other;
                Progress::Still
            }
        }
    }

    /// The connection at a place ends, and its guest leaves: the place is free, with a new guest, who is to be given nothing; or it is
    /// left out, with the text `limit`.
    fn close_at<F: Write>(&mut self, place: usize, tally: &mut Tally, faults: &mut F)
        requires { place < length self.old.hall.guests.items }
        ensures leaves { HallLeavesStore self.old.hall self.new.hall }
        ensures places { length self.new.hall.guests.items ≡ length self.old.hall.guests.items }
        ensures others { LeavesOthers self.old.hall.guests.items place self.new.hall.guests.items }
        ensures renewed { slice_get self.new.places.items place ≡ Some Place.Free → GuestIs (λ g. IsNewGuest g self.old.hall.entered) self.new.hall.guests.items place }
        ensures closed { (socket : _) → slice_get self.new.places.items place ≢ Some (Place.Taken socket) }
        ensures kept { LeavesPlaces self.old.places.items place self.new.places.items }
        ensures nothing { NothingHappens self.old.hall self.new.hall }
        ensures silent { tally.new.served ≡ Served.Well → (tally.old.served ≡ Served.Well) × (faults.new ≡ faults.old) }
    {
        let renewed = self.hall.renew(place);
        leave(&mut self.places, place, left_by(renewed.is_ok()));
        self.large.leave(place);
        tally.moved = true;
        if renewed.is_err() {
            tally.tell(faults, &ServeError::Limit);
        }
    }

    /// What becomes of a place by its connection's turn. Where the connection ends, the place is free for another; where it ends by an
    /// error the error's text is told.
    fn settle<F: Write>(
        &mut self,
        place: usize,
        progress: Progress,
        tally: &mut Tally,
        faults: &mut F,
    )
        requires { place < length self.old.hall.guests.items }
        ensures leaves { HallLeavesStore self.old.hall self.new.hall }
        ensures places { length self.new.hall.guests.items ≡ length self.old.hall.guests.items }
        ensures others { LeavesOthers self.old.hall.guests.items place self.new.hall.guests.items }
        ensures freed { IsFreed place self.old.places.items self.new.places.items self.new.hall.guests.items }
        ensures renewed { IsOver progress → slice_get self.new.places.items place ≡ Some Place.Free → GuestIs (λ g. IsNewGuest g self.old.hall.entered) self.new.hall.guests.items place }
        ensures kept { LeavesPlaces self.old.places.items place self.new.places.items }
        ensures nothing { NothingHappens self.old.hall self.new.hall }
        ensures closed { IsOver progress → (socket : _) → slice_get self.new.places.items place ≢ Some (Place.Taken socket) }
        ensures stays { ¬ IsOver progress → (self.new ≡ self.old) × (faults.new ≡ faults.old) }
        ensures failed { (error : ServeError) → progress ≡ Progress.Failed error → tally.new.served ≡ Served.WithErrors }
        ensures silent { tally.new.served ≡ Served.Well → (tally.old.served ≡ Served.Well) × (faults.new ≡ faults.old) }
    {
        match progress {
            Progress::Still => {}
            Progress::Barred => {}
            Progress::Moved => tally.moved = true,
            Progress::AtEnd => self.close_at(place, tally, faults),
            Progress::TooSlow => {
                tally.tell(faults, &"too slow");
                self.close_at(place, tally, faults)
            }
            Progress::Failed(error) => {
                tally.tell(faults, &error);
                self.close_at(place, tally, faults)
            }
        }
    }

    /// What the connection at a place may read in its turn. If it is within a large frame, that goes on with its minute, and waits
    /// for room behind all others, unless it has some.
    fn room_at(&mut self, place: usize, time: u64) -> Room
        requires { place < length self.old.hall.guests.items }
        ensures hall { self.new.hall ≡ self.old.hall }
        ensures places { self.new.places ≡ self.old.places }
    {
        let named = named_at(self.places.as_slice(), place);
        if named <= LARGE || self.hall.held(place) < HEAD {
            return Room::Small;
        }
        if self.large.pace_at(place, time) {
            return Room::TooSlow;
        }
        let frame = LargeFrame {
            place,
            bytes: HEAD as u64 + u64::from(named),
            since: time,
            came: 0,
        };
        match self.large.room_for(frame) {
            Ok(room) => room,
            Err(_) => Room::NoMemory,
        }
    }

    /// Notes what came of the large frame at a place, whose guest held so many bytes before its turn: one that was answered gives up
    /// its room.
    fn note_large(&mut self, place: usize, held: usize)
        requires { place < length self.old.hall.guests.items }
        ensures hall { self.new.hall ≡ self.old.hall }
        ensures places { self.new.places ≡ self.old.places }
    {
        let now = self.hall.held(place);
        if now < HEAD {
            self.large.leave(place);
        } else {
            self.large.note(place, now.saturating_sub(held) as u64);
        }
    }

    /// The turn of a place, and what becomes of the place by it.
    fn serve_place<S: Shelf, F: Write>(
        &mut self,
        turn: Turn,
        shelf: &mut S,
        tally: &mut Tally,
        faults: &mut F,
    )
        requires { turn.place < length self.old.hall.guests.items }
        ensures connected { S.honest shelf.old → ConnectionsLead T.hears T.says self.old (S.store shelf.old) (S.failed shelf.old) self.new (S.store shelf.new) (S.failed shelf.new) }
        ensures leads { S.honest shelf.old → HallLeads self.old.hall (S.store shelf.old) (S.failed shelf.old) self.new.hall (S.store shelf.new) (S.failed shelf.new) }
        ensures honest { S.honest shelf.old → S.honest shelf.new }
        ensures places { length self.new.hall.guests.items ≡ length self.old.hall.guests.items }
        ensures others { LeavesOthers self.old.hall.guests.items turn.place self.new.hall.guests.items }
        ensures silent { tally.new.served ≡ Served.Well → (tally.old.served ≡ Served.Well) × (faults.new ≡ faults.old) }
    {
        let held = self.hall.held(turn.place);
        let progress = self.turn_at(turn, shelf);
        self.note_large(turn.place, held);
        self.settle(turn.place, progress, tally, faults)
    }

    /// One round: every connection that is ready has one turn.
    pub fn round<S: Shelf, F: Write>(
        &mut self,
        timing: Timing,
        shelf: &mut S,
        tally: &mut Tally,
        faults: &mut F,
    )
        ensures connected { S.honest shelf.old → ConnectionsLead T.hears T.says self.old (S.store shelf.old) (S.failed shelf.old) self.new (S.store shelf.new) (S.failed shelf.new) }
        ensures leads { S.honest shelf.old → HallLeads self.old.hall (S.store shelf.old) (S.failed shelf.old) self.new.hall (S.store shelf.new) (S.failed shelf.new) }
        ensures honest { S.honest shelf.old → S.honest shelf.new }
        ensures silent { tally.new.served ≡ Served.Well → (tally.old.served ≡ Served.Well) × (faults.new ≡ faults.old) }
    {
        self.large.begin_round();
        for place in 0..self.hall.places() {
            let room = self.room_at(place, timing.time);
            let turn = Turn {
                place,
                room,
                timing,
            };
            self.serve_place(turn, shelf, tally, faults);
        }
    }
}
