//! The server: rounds over all connections, and waiting between them.

ghost use Rattle.std.specs.Prelude.{◌≡◌, ◌≢◌, [], IfOk, Some, ℕ, length, slice_get};
ghost use Rattle.repo_store.specs.Stores.{Store};
ghost use Rattle.repo_hall.specs.Halls.{Hosted, Stands, HallLeads};
ghost use Rattle.repo_hall.specs.Happenings.{AreInTurn, Log};
ghost use Rattle.repo_many.specs.Connected.{ConnectionsLead, IsConnection, IsSeated, IsStill};
ghost use Rattle.repo_many.specs.Wires.{Hears, Says};
ghost use Rattle.repo_many.specs.declared.places.Place.{Place};
ghost use Rattle.repo_many.specs.declared.sockets.Socket.{Socket};
ghost use Rattle.repo_many.specs.declared.times.Served.{Served};

use crate::arrivals::{Arrival, accept, watch, watch_anew};
use crate::connections::Connections;
use crate::doors::{Door, Look};
use crate::idling::{shorter, wait_for};
use crate::large_frames::LargeFrames;
use crate::manners::{Manner, limit_of};
use crate::places::{Place, is_free, is_in_use, is_taken, seat};
use crate::sockets::Timing;
use crate::times::{Served, Tally, Watch, nanos_of};
use crate::waits::{LISTENER, earliest, mark_ready};
use crate::wires::Link;
use mio::{Events, Interest, Poll};
use repo_hall::{Hall, HallError};
use repo_store::{ServeError, Shelf, room};
use std::alloc::{AllocGlobal, Global};
use std::io;
use std::io::{ErrorKind, Read, Write};
use std::net::{Net, OpenListener, OpenStream};
use std::os::fd::AsRawFd;
use std::time::{Clock, Duration, Instant};

/// A server of a listener's connections.
#[derive(Drop)]
struct Server<T: Drop, L: Drop> {
    manner: Manner,
    /// The listener, until as many connections were taken as were to be.
    listener: Option<L>,
    poll: Poll,
    events: Events,
    connections: Connections<Link<T>>,
    door: Door,
    watch: Watch,
    tally: Tally,
}

/// A hall of just so many places.
fn hall_of(alloc: Global, places: usize) -> Result<Hall, HallError>
    ensures stands { IfOk result (λ hall. (from : Store) (failed : ℕ) → Stands from failed hall.guests.items hall.entered [] from failed) }
    ensures places { IfOk result (λ hall. length hall.guests.items ≡ places) }
{
    let mut hall = Hall::new(alloc);
    for place in 0..places {
        hall.add_place()?;
    }
    Ok(hall)
}

/// So many places without a connection.
fn free_places<T: Drop>(alloc: Global, count: usize) -> io::Result<Vec<Place<T>>>
    ensures { IfOk result (λ places. (j : ℕ) (s : Socket _) → slice_get places.items j ≢ Some (Place.Taken s)) }
{
    let mut places = Vec::new(alloc);
    for place in 0..count {
        places.push(Place::Free)?;
    }
    Ok(places)
}

/// A server of a listener, which none waits for any more, with this hall.
fn server_of<R: Net + Clock + AllocGlobal, L: OpenListener + AsRawFd + Drop>(
    rt: &R,
    listener: L,
    manner: Manner,
    hall: Hall,
) -> io::Result<Server<L::Stream, L>>
where
    L::Stream: Read + Write + OpenStream + AsRawFd,
    ensures hall { IfOk result (λ server. server.connections.hall ≡ hall) }
    ensures well { IfOk result (λ server. server.tally.served ≡ Served.Well) }
    ensures free { IfOk result (λ server. (j : ℕ) (s : Socket _) → slice_get server.connections.places.items j ≢ Some (Place.Taken s)) }
{
    listener.set_nonblocking(true)?;
    let poll = Poll::new(rt)?;
    watch(&poll, &listener, LISTENER, Interest::READABLE)?;
    let events = Events::with_capacity(rt.alloc(), 256)?;
    let connections = Connections {
        hall,
        places: free_places(rt.alloc(), manner.at_once)?,
        large: LargeFrames::new(rt.alloc(), limit_of(manner)),
        piece: room(rt.alloc())?,
    };
    Ok(Server {
        manner,
        listener: Some(listener),
        poll,
        events,
        connections,
        door: Door::new(),
        watch: Watch::new(Instant::now(rt)?),
        tally: Tally::new(),
    })
}

impl<T: Drop, L: Drop> Server<T, L> {
    /// Whether more connections may be taken.
    fn is_open(&self) -> bool {
        let is_left = self.connections.places.as_slice().iter().any(is_in_use);
        is_left && self.door.taken < self.manner.connections
    }

    /// Whether no more connections may be taken, and the last one left.
    fn is_over(&self) -> bool {
        !self.is_open() && !self.connections.places.as_slice().iter().any(is_taken)
    }

    /// What the next round knows of the time.
    fn timing(&self) -> Timing {
        Timing {
            time: self.watch.time,
            idle: match self.manner.idle {
                Some(idle) => Some(nanos_of(idle)),
                None => None,
            },
        }
    }

    /// How long the next wait may be; `None`: for ever.
    fn pause(&self) -> Option<u64> {
        if self.tally.moved {
            return Some(0);
        }
        let timing = self.timing();
        let earliest = earliest(self.connections.places.as_slice());
        let is_wanted = self.connections.large.is_wanted();
        let wait = wait_for(timing.idle, timing.time, earliest, is_wanted);
        shorter(wait, self.door.pause(timing.time))
    }

    /// Waits until one comes, or a connection is ready, or one was idle for too long; after a round in which
    /// something moved not at all.
    fn wait(&mut self) -> io::Result<()>
        ensures hall { self.new.connections.hall ≡ self.old.connections.hall }
        ensures still { IsStill self.old.connections.places.items self.new.connections.places.items }
        ensures tally { self.new.tally ≡ self.old.tally }
    {
        let wait = match self.pause() {
            Some(nanos) => Some(Duration::from_nanos(nanos)),
            None => None,
        };
        self.poll.poll(&mut self.events, wait)?;
        if mark_ready(&self.events, &mut self.connections.places) {
            self.door.ready = true;
        }
        Ok(())
    }
}

impl<
    T: Read + Write + OpenStream + AsRawFd + Drop,
    L: OpenListener<Stream = T> + AsRawFd + Drop,
> Server<T, L> {
    /// Reports that all places are taken, if somebody waits for one, nothing moved, and it wasn't reported before. With one place
    /// all others wait as they are to.
    fn tell_full<F: Write>(&mut self, faults: &mut F)
        ensures connections { self.new.connections ≡ self.old.connections }
        ensures silent { self.new.tally.served ≡ Served.Well → (self.old.tally.served ≡ Served.Well) × (faults.new ≡ faults.old) }
    {
        let is_waited_for = self.is_open() && self.door.ready && !self.tally.moved;
        if !is_waited_for || self.door.told || self.manner.at_once <= 1 {
            return;
        }
        if self.connections.places.as_slice().iter().any(is_free) {
            return;
        }
        self.door.told = true;
        self.tally.tell(faults, &"all places are taken");
    }

    /// Notes what came of a look for a connection, and reports it if that is to be.
    fn note<F: Write>(&mut self, look: Look, time: u64, faults: &mut F)
        ensures connections { self.new.connections ≡ self.old.connections }
        ensures silent { self.new.tally.served ≡ Served.Well → (self.old.tally.served ≡ Served.Well) × (faults.new ≡ faults.old) }
    {
        if self.door.note(look, time) {
            self.tally.tell(faults, &ServeError::Read);
        }
    }

    /// After a connection was taken: the listener is closed once no more are to be. Once all places are taken the poll tells anew whether
    /// somebody waits.
    fn rest(&mut self, look: Look)
        ensures connections { self.new.connections ≡ self.old.connections }
        ensures served { self.new.tally.served ≡ self.old.tally.served }
    {
        if look != Look::Came && look != Look::Lost {
            return;
        }
        self.tally.moved = true;
        if self.door.taken >= self.manner.connections {
            self.listener = None;
        }
        if self.connections.places.as_slice().iter().any(is_free) {
            return;
        }
        if let Some(listener) = &self.listener {
            let told = watch_anew(&self.poll, listener, LISTENER, Interest::READABLE);
            self.door.ready = told.is_err();
        }
    }

    /// Takes a connection to a free place, if one waits.
    fn take_to<F: Write>(&mut self, place: usize, faults: &mut F)
        ensures hall { self.new.connections.hall ≡ self.old.connections.hall }
        ensures seated { IsSeated self.old.connections.places.items place self.new.connections.places.items }
        ensures silent { self.new.tally.served ≡ Served.Well → (self.old.tally.served ≡ Served.Well) × (faults.new ≡ faults.old) }
    {
        let time = self.watch.time;
        let Some(listener) = &self.listener else {
            return;
        };
        let Arrival { look, socket } = accept(&self.poll, listener, place, time);
        self.note(look, time, faults);
        seat(&mut self.connections.places, place, socket);
        self.rest(look);
    }

    /// Takes a connection, if more may be taken, one waits and there is a place for it.
    fn welcome<F: Write>(&mut self, faults: &mut F)
        ensures hall { self.new.connections.hall ≡ self.old.connections.hall }
        ensures seated { (place : ℕ) × IsSeated self.old.connections.places.items place self.new.connections.places.items }
        ensures silent { self.new.tally.served ≡ Served.Well → (self.old.tally.served ≡ Served.Well) × (faults.new ≡ faults.old) }
    {
        if !self.is_open() || !self.door.is_time(self.watch.time) {
            return;
        }
        let places = self.connections.places.as_slice();
        if let Some(place) = places.iter().position(is_free) {
            self.take_to(place, faults);
        }
    }

    /// Serves until as many connections came as were to come, and the last one left.
    fn serve<C: Clock, S: Shelf, F: Write>(
        &mut self,
        clock: &C,
        shelf: &mut S,
        faults: &mut F,
    ) -> io::Result<()>
        ensures leads { S.honest shelf.old → HallLeads self.old.connections.hall (S.store shelf.old) (S.failed shelf.old) self.new.connections.hall (S.store shelf.new) (S.failed shelf.new) }
        ensures connected { S.honest shelf.old → ConnectionsLead (Hears T.remaining) (Says T.contents) self.old.connections (S.store shelf.old) (S.failed shelf.old) self.new.connections (S.store shelf.new) (S.failed shelf.new) }
        ensures honest { S.honest shelf.old → S.honest shelf.new }
        ensures silent { self.new.tally.served ≡ Served.Well → (self.old.tally.served ≡ Served.Well) × (faults.new ≡ faults.old) }
    {
        for turn in 0..u64::MAX {
            self.watch.go_on(Instant::now(clock)?, self.tally.moved);
            self.tally.moved = false;
            if self.is_over() {
                return Ok(());
            }
            self.welcome(faults);
            let timing = self.timing();
            self.connections
                .round(timing, shelf, &mut self.tally, faults);
            self.tell_full(faults);
            self.wait()?;
        }
        Ok(())
    }
}

/// Serves connections of a bound listener, so many in all and so many at once, one request of each in turn,
/// until as many were taken and the last one left. It gives whether one ended by an error.
///
/// Where one does, the error's text is told, and the others go on: `read failed` and `write failed` where its
/// socket fails, or it was idle for too long; `malformed` where it brings what is no request, or ends inside
/// one; `too slow` where its large frame came so while others waited for room; `out of memory`. A connection
/// that can't be taken is told as `read failed` and doesn't count; it is tried again after a tenth of a second,
/// and told no more until one was taken. If somebody waits while all places are taken, of more than one, that is
/// told once. Once there is no number for a further guest the text is `limit`, and the place is served no more.
/// The listener is closed once as many connections were taken as were to be. It fails where it can't wait, or
/// there is no memory to begin.
///
/// Whatever the connections bring, what was answered to all of them, in that order, is one run of the store
/// machine, and what happened to each of them is a stay of its guest. There is a log of that in which they were
/// served in turn; that each turn keeps it, and touches no guest but the one at its place, are clauses of the
/// rounds and of the turns. Each guest to which anything happened is a connection, over which
/// just that went (`connected`). No clause says which connections were taken, since a listener tells no contract what it did.
pub fn serve_many<
    R: Net + Clock + AllocGlobal,
    L: OpenListener + AsRawFd + Drop,
    S: Shelf,
    F: Write,
>(rt: &R, listener: L, manner: Manner, shelf: &mut S, faults: &mut F) -> io::Result<Served>
where
    L::Stream: Read + Write + OpenStream + AsRawFd,
    ensures hosted { S.honest shelf.old → (log : Log) × Hosted (S.store shelf.old) (S.failed shelf.old) log (S.store shelf.new) (S.failed shelf.new) × AreInTurn log }
    ensures connected { S.honest shelf.old → (log : Log) × Hosted (S.store shelf.old) (S.failed shelf.old) log (S.store shelf.new) (S.failed shelf.new) × AreInTurn log
        × ((n : ℕ) → IsConnection (Hears L.Stream.remaining) (Says L.Stream.contents) n log) }
    ensures honest { S.honest shelf.old → S.honest shelf.new }
    ensures silent { IfOk result (λ served. served ≡ Served.Well → faults.new ≡ faults.old) }
{
    let Ok(hall) = hall_of(rt.alloc(), manner.at_once) else {
        return Err(io::Error::from(ErrorKind::OutOfMemory));
    };
    let mut server = server_of(rt, listener, manner, hall)?;
    server.serve(rt, shelf, faults)?;
    Ok(server.tally.served)
}
