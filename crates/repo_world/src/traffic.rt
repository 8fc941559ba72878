//! All clients with all messages between them and the store.

ghost use Rattle.std.specs.Prelude.{◌≡◌, ◌<◌, ◌↔◌, [], ℕ, IfOk, IsOk, IsSome, OnErr, IfSome, Contains, length, option_map, slice_get, string_bytes, true, map, Some};
ghost use Rattle.repo_name.specs.Rows.{IsHost};
ghost use Rattle.repo_wire.specs.Messages.{requests as request_sort};
ghost use Rattle.repo_wire.specs.Stream.{FitsFrame};
ghost use Rattle.repo_store.specs.Stores.{Store};
ghost use Rattle.repo_store.specs.declared.faults.Armed.{Armed};
ghost use Rattle.repo_session.specs.Askers.{asker};
ghost use Rattle.repo_session.specs.Traces.{Each};
ghost use Rattle.repo_backup.specs.Items.{IsCountOf};
ghost use Rattle.repo_world.specs.Clients.{MayBeFed};
ghost use Rattle.repo_world.specs.Events.{BeginsJob, Gives, Stops};
ghost use Rattle.repo_world.specs.Flows.{FlowStands, clients_in, messages_in, seat_at, world_of};
ghost use Rattle.repo_world.specs.Reports.{client_lines};
ghost use Rattle.repo_world.specs.Rules.{IsRuled};
ghost use Rattle.repo_world.specs.inner.Seating.{StepsAsArmed};
ghost use Rattle.repo_world.specs.World.{instance_of, client, versions_of};
ghost use Rattle.repo_world.specs.Calmness.{IsIgnored};
ghost use Rattle.repo_world.specs.declared.events.Applied.{Applied};
ghost use Rattle.repo_world.specs.declared.messages.Message.{Message};
ghost use Rattle.repo_world.specs.inner.Flowing.{FlowServes, ReplyArrives, FlowDelivers, TellsTaken};

use crate::any_clients::{AnyClient, NotBegun};
use crate::events::Applied;
use crate::jobs::{Host, Job};
use crate::messages::Message;
use crate::seats::{Arrival, Intake, Seat};
use repo_backup::Item;
use repo_name::Instance;
use repo_session::{Outcome, Who, WhoError};
use repo_store::Shelf;
use repo_wire::{Reply, Request};
use std::alloc::{AllocError, Global};
use std::marker::Model;

/// All clients, with all messages between them and the store. A clause sees the seats and the messages.
#[derive(Drop)]
pub struct Traffic {
    seats: Vec<Seat>,
    messages: Vec<Message>,
    alloc: Global,
}

impl Model for Traffic {
    ghost use Rattle.repo_world.specs.Flows.{Flow, FlowStands};

    ghost Value = { Flow };

    ghost view = { λ t. record { seats = t.seats.items; messages = t.messages.items } };

    ghost invariant = { λ t. FlowStands t.seats.items t.messages.items };
}

/// Who the client of a number is, an old one or not. It fails for memory alone.
fn who_of(
    alloc: Global,
    number: usize,
    host: &Host,
    time: u64,
    old: bool,
) -> Result<Who, AllocError>
    ensures who { IfOk result (λ who. who ≡ asker (instance_of number) host.now time (versions_of old)) }
    ensures host { IsHost host.now }
{
    let instance = Instance((number as u128).to_be_bytes());
    match Who::new(alloc, instance, host.as_str(), time) {
        Ok(who) => Ok(if old { who.as_version_1() } else { who }),
        Err(WhoError::Host) => unreachable!(),
        Err(WhoError::Memory) => Err(AllocError),
    }
}

/// What comes of an item of which so many bytes were taken.
fn taken(count: usize, item: Item) -> Applied
    ensures { IsCountOf count item.entry → TellsTaken count item.entry result }
{
    let Item::Bytes(piece) = item else {
        return Applied::Done;
    };
    if count < piece.len() {
        Applied::Took(count)
    } else {
        Applied::Done
    }
}

impl Traffic {
    /// No clients, and no messages. It takes no memory.
    pub fn new(alloc: Global) -> Traffic
        ensures { result ≡ record { seats = []; messages = [] } }
    {
        Traffic {
            seats: Vec::new(alloc),
            messages: Vec::new(alloc),
            alloc,
        }
    }

    /// All messages, in the order in which they were sent.
    pub fn messages(&self) -> &[Message]
        ensures { result.now ≡ self.now.messages }
    {
        self.messages.as_slice()
    }

    /// The seat of a client. All messages together stand for just what the seats have.
    pub fn seat(&self, client: usize) -> Option<&Seat>
        ensures seat { option_map (λ seat. seat.now) result ≡ slice_get self.now.seats client }
        ensures stands { FlowStands self.now.seats self.now.messages }
    {
        self.seats.as_slice().get(client)
    }

    /// The request of a client at a place, counted from 0. It is there just where a message stands for it.
    pub fn request(&self, client: usize, place: usize) -> Option<&Request>
        ensures request { option_map (λ request. request.now) result ≡ slice_get (seat_at self.now.seats client).requests place }
        ensures named { IsSome result ↔ Contains self.now.messages (Message.Asked client place) }
    {
        self.seat(client)?.request(place)
    }

    /// The reply to a client at a place, counted from 0. It is there just where a message stands for it.
    pub fn reply(&self, client: usize, place: usize) -> Option<&Reply>
        ensures reply { option_map (λ reply. reply.now) result ≡ slice_get (seat_at self.now.seats client).replies place }
        ensures named { IsSome result ↔ Contains self.now.messages (Message.Said client place) }
    {
        self.seat(client)?.reply(place)
    }

    /// How many clients started. Each goes by its job's whole rule.
    pub fn clients(&self) -> usize
        ensures count { result ≡ length self.now.seats }
        ensures ruled { Each IsRuled (clients_in self.now) }
    {
        self.seats.len()
    }

    /// The lines of all clients in a report, in order. It fails for memory alone.
    pub fn client_lines(&self) -> Result<String, AllocError>
        ensures { IfOk result (λ text. string_bytes text ≡ client_lines 0 (clients_in self.now)) }
    {
        let mut text = String::new(self.alloc);
        for (number, seat) in self.seats.as_slice().iter().enumerate() {
            let line = seat.line(number)?;
            text.push_str(line.as_str())?;
        }
        Ok(text)
    }

    /// A client, an old one or not, starts, as the one of the next number, and asks for its ticket; or it isn't begun.
    /// It fails for memory alone, and then nothing changed.
    pub fn start(
        &mut self,
        job: Job,
        host: &Host,
        time: u64,
        old: bool,
    ) -> Result<Applied, AllocError>
        ensures begins { (store : Store) → IfOk result (λ applied. BeginsJob (world_of store self.old) job host.now time old applied (world_of store self.new)) }
        ensures err { OnErr result (self.new ≡ self.old) }
    {
        self.seats.reserve(1)?;
        self.messages.reserve(1)?;
        let number = self.seats.len();
        let who = who_of(self.alloc, number, host, time, old)?;
        match AnyClient::new(self.alloc, who, job) {
            Ok(client) => {
                self.seats.push(Seat::new(self.alloc, client))?;
                self.messages.push(Message::Asked {
                    client: number,
                    request: 0,
                })?;
                Ok(Applied::Done)
            }
            Err(NotBegun::Refused(refusal)) => Ok(Applied::Refused(refusal)),
            Err(NotBegun::Memory) => Err(AllocError),
        }
    }

    /// The store answers a request, and its reply joins the messages. It fails for memory alone, and then nothing changed.
    fn serve<S: Shelf>(
        &mut self,
        shelf: &mut S,
        client: usize,
        request: usize,
    ) -> Result<Applied, AllocError>
        requires { request < length (seat_at self.old.seats client).requests }
        ensures done { IfOk result (λ applied. applied ≡ Applied.Done) }
        ensures serves { S.honest shelf.old → IfOk result (λ _. FlowServes
            (StepsAsArmed (S.armed shelf.old) (S.own shelf.old) (S.armed shelf.new) (S.own shelf.new))
            (S.store shelf.old) self.old client request (S.store shelf.new) self.new) }
        ensures honest { S.honest shelf.old → S.honest shelf.new }
        ensures disarmed { S.honest shelf.old → S.armed shelf.old ≡ Armed.Nothing → S.armed shelf.new ≡ Armed.Nothing }
        ensures err { OnErr result (self.new ≡ self.old) }
        ensures unused { OnErr result (shelf.new ≡ shelf.old) }
    {
        self.messages.reserve(1)?;
        let seat = &mut self.seats[client];
        let reply = seat.replies();
        seat.serve(shelf, request)?;
        self.messages.push(Message::Said { client, reply })?;
        Ok(Applied::Done)
    }

    /// A reply is delivered to its client, which may take it and send one request more. It fails for memory alone, and then
    /// nothing changed; no memory is asked for where the client stopped.
    fn take(&mut self, client: usize, reply: usize) -> Result<Applied, AllocError>
        requires { reply < length (seat_at self.old.seats client).replies }
        ensures arrives { (store : Store) → IfOk result (λ applied. ReplyArrives store self.old client reply applied self.new) }
        ensures err { OnErr result (self.new ≡ self.old) }
        ensures calm { (seat_at self.old.seats client).client.crashed ≡ true → IsOk result }
    {
        let seat = &mut self.seats[client];
        if seat.is_crashed() {
            return Ok(Applied::Ignored);
        }
        self.messages.reserve(1)?;
        match seat.take(reply)? {
            Arrival::Stopped => Ok(Applied::Ignored),
            Arrival::Unawaited => Ok(Applied::Done),
            Arrival::Taken => {
                if seat.pending().is_some() {
                    let request = seat.requests() - 1;
                    self.messages.push(Message::Asked { client, request })?;
                }
                Ok(Applied::Done)
            }
        }
    }

    /// An item is given to a client. It fails for memory alone, and then nothing changed; no memory is asked for where it is
    /// ignored.
    pub fn feed(&mut self, client: usize, item: Item) -> Result<Applied, AllocError>
        ensures gives { (store : Store) → IfOk result (λ applied. Gives (world_of store self.old) client item.entry applied (world_of store self.new)) }
        ensures err { OnErr result (self.new ≡ self.old) }
        ensures calm { ¬ MayBeFed (seat_at self.old.seats client).client → IsOk result }
    {
        if client >= self.seats.len() {
            return Ok(Applied::Ignored);
        }
        let seat = &mut self.seats[client];
        if !seat.may_be_fed() {
            return Ok(Applied::Ignored);
        }
        self.messages.reserve(1)?;
        match seat.feed(item)? {
            Intake::Unfed(error) => Ok(Applied::Unfed(error)),
            Intake::Taken(count) => {
                let told = taken(count, item);
                let asks = seat.pending().is_some();
                if asks {
                    let request = seat.requests() - 1;
                    self.messages.push(Message::Asked { client, request })?;
                }
                Ok(told)
            }
        }
    }

    /// The message of a number is delivered: a request to the store, or a reply to its client. It fails for memory alone,
    /// and then nothing changed; no memory is asked for where it is ignored.
    pub fn deliver<S: Shelf>(&mut self, shelf: &mut S, number: usize) -> Result<Applied, AllocError>
        ensures delivers { S.honest shelf.old → IfOk result (λ applied. FlowDelivers
            (StepsAsArmed (S.armed shelf.old) (S.own shelf.old) (S.armed shelf.new) (S.own shelf.new))
            (S.store shelf.old) self.old number applied (S.store shelf.new) self.new) }
        ensures honest { S.honest shelf.old → S.honest shelf.new }
        ensures disarmed { S.honest shelf.old → S.armed shelf.old ≡ Armed.Nothing → S.armed shelf.new ≡ Armed.Nothing }
        ensures err { OnErr result (self.new ≡ self.old) }
        ensures unused { OnErr result (shelf.new ≡ shelf.old) }
        ensures calm { (store : Store) → IsIgnored (world_of store self.old) (slice_get (messages_in self.old) number) → IsOk result }
    {
        match self.messages.as_slice().get(number).copied() {
            None => Ok(Applied::Ignored),
            Some(Message::Asked { client, request }) => self.serve(shelf, client, request),
            Some(Message::Said { client, reply }) => self.take(client, reply),
        }
    }

    /// The client of a number stops for good, if it runs.
    pub fn crash(&mut self, client: usize) -> Applied
        ensures { (store : Store) → Stops (world_of store self.old) client result (world_of store self.new) }
    {
        if client >= self.seats.len() {
            return Applied::Ignored;
        }
        let seat = &mut self.seats[client];
        if seat.is_crashed() {
            return Applied::Ignored;
        }
        seat.crash();
        Applied::Done
    }
}
