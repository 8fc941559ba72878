//! A client with all that it sent, and all replies to it.

ghost use Rattle.std.specs.Prelude.{◌≡◌, ◌<◌, ◌↔◌, ◌++◌, ◌∷◌, [], false, List, Option, Some, IfOk, IfSome, IsTrue, OnErr, length, option_map, slice_get, string_bytes};
ghost use Rattle.repo_wire.specs.Messages.{requests as request_sort};
ghost use Rattle.repo_wire.specs.Stream.{FitsFrame};
ghost use Rattle.repo_wire.specs.declared.messages.Reply.{Reply};
ghost use Rattle.repo_wire.specs.declared.messages.Request.{Request};
ghost use Rattle.repo_session.specs.declared.outcomes.Outcome.{Outcome};
ghost use Rattle.repo_world.specs.AnyClients.{FitsAny, any_next, client_of};
ghost use Rattle.repo_world.specs.Reports.{line_of};
ghost use Rattle.repo_world.specs.Seats.{Seated, listed};
ghost use Rattle.repo_world.specs.World.{given_out};
ghost use Rattle.repo_world.specs.Clients.{MayBeFed};
ghost use Rattle.repo_world.specs.inner.Seating.{Answered, Crashed, Replied, SeatFed, SeatTook};

use crate::any_clients::AnyClient;
use crate::fed_items::FedItem;
use crate::pasts::Past;
use crate::reports::client_line;
use repo_backup::{FeedError, Item};
use repo_session::{Client, Emission, Letter, Outcome, answers, keep};
use repo_store::{Shelf, answer};
use repo_wire::{Reply, Request};
use std::alloc::{AllocError, Global};
use std::marker::Model;
use std::mem;

/// A client, its exchanges that are over, the items that it took on the newest one, the oldest first, all replies to it,
/// and whether it stopped for good. A clause sees what
/// `Seated` has.
#[derive(Drop)]
pub struct Seat {
    client: AnyClient,
    pasts: Vec<Past>,
    fed: Vec<FedItem>,
    replies: Vec<Reply>,
    crashed: bool,
    alloc: Global,
}

impl Model for Seat {
    ghost use Rattle.repo_world.specs.Seats.{IsSeated, Seated, seated};

    ghost Value = { Seated };

    ghost view = { λ s. seated s.client s.pasts.items s.fed.items s.replies.items s.crashed };

    ghost invariant = { λ s. IsSeated s.client s.pasts.items s.fed.items s.replies.items };
}

/// What came of a reply that was delivered to a client.
#[derive(Clone, Copy, Debug, PartialEq, Eq)]
pub enum Arrival {
    /// The client stopped for good. Nothing changed.
    Stopped,
    /// The client doesn't await it. Nothing changed.
    Unawaited,
    /// The client took it.
    Taken,
}

/// What came of an item that was given to a client.
#[derive(Clone, Copy, Debug, PartialEq, Eq)]
pub enum Intake {
    /// The client doesn't take it, for this reason, which is never want of memory. Nothing changed.
    Unfed(FeedError),
    /// The client took it: so many bytes of a piece, none of another item.
    Taken(usize),
}

impl Seat {
    /// The seat of a client that has just been made. It takes no memory.
    pub fn new(alloc: Global, client: AnyClient) -> Seat
        requires { FitsAny client [] }
        ensures { result ≡ record { client = client_of client [] false; requests = listed (any_next client); replies = [] } }
    {
        Seat {
            client,
            pasts: Vec::new(alloc),
            fed: Vec::new(alloc),
            replies: Vec::new(alloc),
            crashed: false,
            alloc,
        }
    }

    /// The client's request at a place, counted from 0.
    pub fn request(&self, place: usize) -> Option<&Request>
        ensures request { option_map (λ request. request.now) result ≡ slice_get self.now.requests place }
        ensures frame { IfSome result (λ request. FitsFrame request_sort request.now) }
    {
        if let Some(past) = self.pasts.as_slice().get(place) {
            return Some(past.letter.request());
        }
        if place == self.pasts.len() {
            return self.client.pending();
        }
        None
    }

    /// The reply to the client at a place, counted from 0.
    pub fn reply(&self, place: usize) -> Option<&Reply>
        ensures { option_map (λ reply. reply.now) result ≡ slice_get self.now.replies place }
    {
        self.replies.as_slice().get(place)
    }

    /// How many requests the client sent.
    pub fn requests(&self) -> usize
        ensures { result ≡ length self.now.requests }
    {
        self.pasts.len() + self.client.pending().iter().count()
    }

    /// How many replies there are to the client.
    pub fn replies(&self) -> usize
        ensures { result ≡ length self.now.replies }
    {
        self.replies.len()
    }

    /// The request that is pending.
    pub fn pending(&self) -> Option<&Request>
        ensures { option_map (λ request. request.now) result ≡ self.now.client.next }
    {
        self.client.pending()
    }

    /// How the client's job ended, once it has.
    pub fn outcome(&self) -> Option<&Outcome>
        ensures { option_map (λ outcome. outcome.now) result ≡ self.now.client.outcome }
    {
        self.client.outcome()
    }

    /// What the client gave out on its exchange of a place, counted from 0.
    pub fn emitted(&self, place: usize) -> Option<&[Emission]>
        ensures { option_map (λ given. given.now) result ≡ slice_get (given_out self.now.client.trace) place }
    {
        if place >= self.pasts.len() {
            return None;
        }
        match self.pasts.as_slice().get(place + 1) {
            Some(next) => Some(next.before.as_slice()),
            None => Some(self.client.emitted()),
        }
    }

    /// Whether the client stopped for good.
    pub fn is_crashed(&self) -> bool
        ensures { result ≡ self.now.client.crashed }
    {
        self.crashed
    }

    /// Whether the client runs, and is a backup that is fed.
    pub fn may_be_fed(&self) -> bool
        ensures { IsTrue result ↔ MayBeFed self.now.client }
    {
        !self.crashed && self.client.is_fed()
    }

    /// The client's line in a report, under its number. It fails for memory alone.
    pub fn line(&self, number: usize) -> Result<String, AllocError>
        ensures { IfOk result (λ line. string_bytes line ≡ line_of number self.now.client) }
    {
        let role = self.client.role();
        client_line(
            self.alloc,
            number,
            role,
            self.client.outcome(),
            self.crashed,
        )
    }

    /// The client stops for good.
    pub fn crash(&mut self)
        ensures { Crashed self.old self.new }
    {
        self.crashed = true;
    }

    /// Has the store answer the request at a place, which is there. It fails for memory alone, and then nothing changed.
    pub fn serve<S: Shelf>(&mut self, shelf: &mut S, place: usize) -> Result<(), AllocError>
        requires { place < length self.old.requests }
        ensures answered { S.honest shelf.old → IfOk result (λ _. Answered self.old place self.new (S.store shelf.old) (S.armed shelf.old) (S.own shelf.old)
            (S.store shelf.new) (S.armed shelf.new) (S.own shelf.new)) }
        ensures replied { IfOk result (λ _. Replied self.old self.new) }
        ensures honest { S.honest shelf.old → S.honest shelf.new }
        ensures err { OnErr result (self.new ≡ self.old) }
        ensures unused { OnErr result (shelf.new ≡ shelf.old) }
    {
        self.replies.reserve(1)?;
        let Some(request) = self.request(place) else {
            unreachable!();
        };
        let reply = answer(self.alloc, shelf, request);
        self.replies.push(reply)?;
        Ok(())
    }

    /// The reply at a place, which is there, is delivered. It fails for memory alone, and then nothing changed. No memory is
    /// asked for where the client stopped.
    pub fn take(&mut self, place: usize) -> Result<Arrival, AllocError>
        requires { place < length self.old.replies }
        ensures took { IfOk result (SeatTook self.old place self.new) }
        ensures err { OnErr result (self.new ≡ self.old) }
    {
        if self.crashed {
            return Ok(Arrival::Stopped);
        }
        let reply = &self.replies[place];
        let Some(request) = self.client.pending() else {
            return Ok(Arrival::Unawaited);
        };
        if !answers(request, reply) {
            return Ok(Arrival::Unawaited);
        }
        self.pasts.reserve(1)?;
        let letter = Letter::of(request.copy()?);
        let mut before = Vec::new(self.alloc);
        keep(self.client.emitted(), &mut before)?;
        self.client.take(reply)?;
        let fed = mem::replace(&mut self.fed, Vec::new(self.alloc));
        self.pasts.push(Past {
            letter,
            reply: place,
            before,
            fed,
        })?;
        Ok(Arrival::Taken)
    }

    /// An item is given to the client, which runs, and is fed. It fails for memory alone, and then nothing changed.
    pub fn feed(&mut self, item: Item) -> Result<Intake, AllocError>
        requires { MayBeFed self.old.client }
        ensures fed { IfOk result (SeatFed self.old item.entry self.new) }
        ensures err { OnErr result (self.new ≡ self.old) }
    {
        let kept = FedItem::of(self.alloc, item)?;
        self.fed.reserve(1)?;
        match self.client.feed(item) {
            Ok(count) => {
                self.fed.push(kept.part(count))?;
                Ok(Intake::Taken(count))
            }
            Err(FeedError::Memory) => Err(AllocError),
            Err(error) => Ok(Intake::Unfed(error)),
        }
    }
}
