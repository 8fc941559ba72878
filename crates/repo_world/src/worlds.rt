//! The world in code: a store in a device, its clients, and all messages.

ghost use Rattle.std.specs.Prelude.{◌≡◌, ◌≢◌, ◌<◌, ◌↔◌, [], ℕ, List, IfOk, IfErr, IsErrOf, IsOk, IsSome, IsTrue, Contains, OnErr, OnOk, None, length, option_map, slice_get, string_bytes, take, Some, ⊤};
ghost use Rattle.repo_tree.specs.ConfigText.{config_text, IsTarget};
ghost use Rattle.repo_tree.specs.Versions.{greatest_version, IsKnownTo};
ghost use Rattle.repo_wire.specs.declared.messages.Code.{Code};
ghost use Rattle.repo_wire.specs.declared.messages.Say.{Say};
ghost use Rattle.repo_store.specs.declared.making.InitError.{InitError};
ghost use Rattle.repo_world.specs.Calmness.{IsCalm, IsLight};
ghost use Rattle.repo_world.specs.Events.{Happens, MayAnybodySend, Run};
ghost use Rattle.repo_store.specs.Laws.{HasCause};
ghost use Rattle.repo_store.specs.Memory.{store_of};
ghost use Rattle.repo_store.specs.Stores.{empty};
ghost use Rattle.repo_world.specs.Laws.{IsEmpty};
ghost use Rattle.repo_world.specs.Reports.{IsReport};
ghost use Rattle.repo_world.specs.Rules.{AllAreRuled};
ghost use Rattle.repo_world.specs.Stages.{BeginsWithConfig, HasFailedSince, IsSafely, Leads, LeadsOn, StopsAfter, Tells, seen};
ghost use Rattle.repo_world.specs.Flows.{seat_at};
ghost use Rattle.repo_world.specs.World as world;
ghost use Rattle.repo_world.specs.World.{awaited, given_out};
ghost use Rattle.repo_world.specs.declared.events.Applied.{Applied};
ghost use Rattle.repo_world.specs.declared.events.Event.{Event};
ghost use Rattle.repo_world.specs.declared.messages.Message.{Message};

use crate::copies::copy_of_event;
use crate::events::{Applied, Event};
use crate::jobs::{Host, Job};
use crate::messages::Message;
use crate::reports::store_line;
use crate::traffic::Traffic;
use repo_backup::Item;
use repo_name::{Bytes, Kind, Name};
use repo_session::{Emission, Outcome};
use repo_store::{Fail, FaultShelf, InitError, Kept, MemShelf, Shelf, ShelfError, answer, init};
use repo_tree::Config;
use repo_wire::{Ask, Code, Reply, Request, Say};
use std::alloc::{AllocError, Global};
use std::marker::Model;

/// A run stopped, as there was no memory.
#[derive(Clone, Copy, Debug, PartialEq, Eq)]
pub struct RunError {
    /// How many of the events happened, the first ones. The next one changed nothing.
    pub applied: usize,
}

/// A store in a device, any number of clients, and all messages that were ever sent between them.
#[derive(Drop)]
pub struct World<S: Shelf + Drop> {
    shelf: Kept<FaultShelf<S>>,
    flow: Traffic,
    alloc: Global,
}

impl<S: Shelf + Drop> Model for World<S> {
    ghost use Rattle.repo_world.specs.Stages.{Stage, WorldStands};

    ghost Value = { Stage S };

    ghost view = { λ w. record { device = w.shelf.inner.inner; flow = w.flow } };

    ghost invariant = { λ w. WorldStands S.honest S.store w.shelf w.flow };
}

/// Whether anybody may send a request: it fits a frame, and is no put, no deletion and no upgrade.
fn may_anybody_send(request: &Request) -> bool
    ensures { IsTrue result ↔ MayAnybodySend request.now }
{
    if !request.fits() {
        return false;
    }
    match &request.ask {
        Ask::Put { .. } | Ask::Delete { .. } | Ask::Upgrade(_) => false,
        Ask::Ticket | Ask::Lock(_) | Ask::Refresh { .. } | Ask::Unlock(_) | Ask::Locks => true,
        Ask::List { .. } | Ask::Get { .. } | Ask::Range { .. } | Ask::Config => true,
    }
}

/// Whether there was no memory for an answer.
fn wants_memory(say: &Say) -> bool
    ensures { IsTrue result ↔ (say.now ≡ Say.Refused Code.NoMemory) }
{
    match say {
        Say::Refused(code) => *code == Code::NoMemory,
        _ => false,
    }
}

impl World<MemShelf> {
    /// A world over an empty shelf in memory, with this config. The config's version has to be one that there is, and its
    /// target within its limits. It fails for memory alone.
    pub fn in_memory(alloc: Global, config: &Config) -> Result<World<MemShelf>, AllocError>
        requires version { IsKnownTo greatest_version config.now.version }
        requires target { IsTarget config.now.target }
        ensures begins { IfOk result (λ w. BeginsWithConfig (config_text config.now) empty (seen store_of w)) }
    {
        match World::new(alloc, MemShelf::new(alloc), config) {
            Ok(world) => Ok(world),
            Err(InitError::Memory) => Err(AllocError),
            Err(InitError::Exists | InitError::Fault) => unreachable!(),
        }
    }
}

impl<S: Shelf + Drop> World<S> {
    /// A world over a device that is honest, has no object, and gave no ticket, with this config. The config's version has
    /// to be one that there is, and its target within its limits.
    ///
    /// `Exists` comes first, where the device has a config. `Fault` comes only where some device of this sort failed.
    pub fn new(alloc: Global, shelf: S, config: &Config) -> Result<World<S>, InitError>
        requires honest { S.honest shelf }
        requires empty { IsEmpty (S.store shelf) }
        requires version { IsKnownTo greatest_version config.now.version }
        requires target { IsTarget config.now.target }
        ensures begins { IfOk result (λ w. BeginsWithConfig (config_text config.now) (S.store shelf) (seen S.store w)) }
        ensures exists { IsErrOf result InitError.Exists → (S.store shelf).config ≢ None }
        ensures cause { IsErrOf result InitError.Fault → HasFailedSince S.failed shelf }
        ensures safe { IfOk result (λ w. IsSafely (seen S.store w)) }
        ensures ruled { IfOk result (λ w. AllAreRuled (seen S.store w)) }
    {
        let mut device = shelf;
        init(alloc, &mut device, config)?;
        Ok(World {
            shelf: Kept::new(alloc, FaultShelf::new(device)),
            flow: Traffic::new(alloc),
            alloc,
        })
    }

    /// A client starts, or isn't begun.
    fn start(&mut self, job: Job, host: &Host, time: u64, old: bool) -> Result<Applied, AllocError>
        ensures happens { IfOk result (λ applied. Leads S.store S.failed self.old (Event.Start job host.now time old) applied self.new) }
        ensures err { OnErr result (self.new ≡ self.old) }
    {
        self.flow.start(job, host, time, old)
    }

    /// A client stops for good, if it runs.
    fn crash(&mut self, client: usize) -> Applied
        ensures { Leads S.store S.failed self.old (Event.Crash client) result self.new }
    {
        self.flow.crash(client)
    }

    /// A message is delivered.
    fn deliver(&mut self, message: usize) -> Result<Applied, AllocError>
        ensures happens { IfOk result (λ applied. Leads S.store S.failed self.old (Event.Deliver message) applied self.new) }
        ensures err { OnErr result (self.new ≡ self.old) }
        ensures calm { IsCalm (seen S.store self.old) (Event.Deliver message) → IsOk result }
    {
        self.flow.deliver(&mut self.shelf, message)
    }

    /// A message is delivered, and the device fails in a call.
    fn fault(&mut self, message: usize, fail: Fail) -> Result<Applied, AllocError>
        ensures happens { IfOk result (λ applied. Leads S.store S.failed self.old (Event.Fault message fail) applied self.new) }
        ensures err { OnErr result (seen S.store self.new ≡ seen S.store self.old) }
        ensures calm { IsCalm (seen S.store self.old) (Event.Fault message fail) → IsOk result }
    {
        self.shelf.arm(fail);
        let applied = self.flow.deliver(&mut self.shelf, message);
        self.shelf.disarm();
        applied
    }

    /// Somebody who is no client sends a request. It goes the way of a client's, so that what is remembered of the device
    /// agrees with it.
    fn answered(&mut self, request: &Request) -> Result<Option<Reply>, AllocError>
        ensures told { IfOk result (λ found. Tells S.store S.failed self.old request.now found self.new) }
        ensures err { OnErr result (seen S.store self.new ≡ seen S.store self.old) }
        ensures calm { ¬ MayAnybodySend request.now → IsOk result }
    {
        if !may_anybody_send(request) {
            return Ok(None);
        }
        let reply = answer(self.alloc, &mut self.shelf, request);
        if wants_memory(&reply.say) {
            return Err(AllocError);
        }
        Ok(Some(reply))
    }

    /// Somebody who is no client sends a request that is lent, and the reply goes to nobody.
    fn sent_lent(&mut self, request: &Request) -> Result<Applied, AllocError>
        ensures happens { IfOk result (λ applied. Leads S.store S.failed self.old (Event.Ask request.now) applied self.new) }
        ensures err { OnErr result (seen S.store self.new ≡ seen S.store self.old) }
        ensures calm { IsCalm (seen S.store self.old) (Event.Ask request.now) → IsOk result }
    {
        match self.answered(request)? {
            Some(_) => Ok(Applied::Done),
            None => Ok(Applied::Ignored),
        }
    }

    /// Somebody who is no client sends a request, and the reply goes to nobody.
    fn sent(&mut self, request: Request) -> Result<Applied, AllocError>
        ensures happens { IfOk result (λ applied. Leads S.store S.failed self.old (Event.Ask request) applied self.new) }
        ensures err { OnErr result (seen S.store self.new ≡ seen S.store self.old) }
        ensures calm { IsCalm (seen S.store self.old) (Event.Ask request) → IsOk result }
    {
        self.sent_lent(&request)
    }

    /// An item is given to a client.
    fn feed(&mut self, client: usize, item: Item) -> Result<Applied, AllocError>
        ensures happens { IfOk result (λ applied. Leads S.store S.failed self.old (Event.Feed client item.entry) applied self.new) }
        ensures err { OnErr result (self.new ≡ self.old) }
        ensures calm { IsCalm (seen S.store self.old) (Event.Feed client item.entry) → IsOk result }
    {
        self.flow.feed(client, item)
    }

    /// The store is closed and opened.
    fn restart(&mut self) -> Applied
        ensures { Leads S.store S.failed self.old Event.Restart result self.new }
    {
        self.shelf.forget();
        Applied::Done
    }

    /// An event happens. It fails for memory alone, and then nothing changed; no memory is asked for where it is ignored, nor
    /// for a crash and a restart. Each client goes by its job's whole rule.
    pub fn apply(&mut self, event: Event) -> Result<Applied, AllocError>
        ensures happens { IfOk result (λ applied. Leads S.store S.failed self.old event.entry applied self.new) }
        ensures safe { IsSafely (seen S.store self.new) }
        ensures ruled { AllAreRuled (seen S.store self.new) }
        ensures err { OnErr result (seen S.store self.new ≡ seen S.store self.old) }
        ensures calm { IsCalm (seen S.store self.old) event.entry → IsOk result }
    {
        let applied = match event {
            Event::Start {
                job,
                host,
                time,
                old,
            } => self.start(job, &host, time, old),
            Event::Deliver(message) => self.deliver(message),
            Event::Fault { message, fail } => self.fault(message, fail),
            Event::Ask(request) => self.sent(request),
            Event::Feed { client, item } => self.feed(client, item),
            Event::Crash(client) => Ok(self.crash(client)),
            Event::Restart => Ok(self.restart()),
        };
        // A look at a field tells the prover the invariant, and one at the clients that each goes by its rule.
        let _ = &self.shelf;
        let _ = self.flow.clients();
        applied
    }

    /// An event that is lent happens. It fails for memory alone, and then nothing changed; no memory is asked for where `apply` asks
    /// for none, but for a copy of a start, or of what is asked.
    fn apply_lent(&mut self, event: &Event) -> Result<Applied, AllocError>
        ensures happens { IfOk result (λ applied. Leads S.store S.failed self.old event.now applied self.new) }
        ensures safe { IsSafely (seen S.store self.new) }
        ensures ruled { AllAreRuled (seen S.store self.new) }
        ensures err { OnErr result (seen S.store self.new ≡ seen S.store self.old) }
        ensures calm { IsLight event.now → IsCalm (seen S.store self.old) event.now → IsOk result }
    {
        // A look at a field tells the prover the invariant, and one at the clients that each goes by its rule.
        let _ = &self.shelf;
        let _ = self.flow.clients();
        let copy = copy_of_event(self.alloc, event)?;
        self.apply(copy)
    }

    /// Somebody who is no client sends a request, as in [`Event::Ask`], and is told the reply; none is where nobody may send
    /// such a request, and then nothing changed. It fails for memory alone, and then nothing changed; no memory is asked for
    /// where there is no reply. Each client goes by its job's whole rule.
    pub fn ask(&mut self, request: &Request) -> Result<Option<Reply>, AllocError>
        ensures told { IfOk result (λ found. Tells S.store S.failed self.old request.now found self.new) }
        ensures safe { IsSafely (seen S.store self.new) }
        ensures ruled { AllAreRuled (seen S.store self.new) }
        ensures err { OnErr result (seen S.store self.new ≡ seen S.store self.old) }
        ensures calm { ¬ MayAnybodySend request.now → IsOk result }
    {
        let found = self.answered(request);
        // A look at a field tells the prover the invariant, and one at the clients that each goes by its rule.
        let _ = &self.shelf;
        let _ = self.flow.clients();
        found
    }

    /// The events happen, one after another, as [`World::apply`] has each of them happen, until there is no memory for one. The
    /// world is safe after those that happened, and each client goes by its job's whole rule.
    pub fn run(&mut self, events: &[Event]) -> Result<(), RunError>
        ensures leads { OnOk result (LeadsOn S.store S.failed self.old events.now self.new) }
        ensures ran { OnOk result (Run (seen S.store self.old) events.now (seen S.store self.new)) }
        ensures stopped { IfErr result (λ e. (e.applied < length events.now)
            × Run (seen S.store self.old) (take e.applied events.now) (seen S.store self.new)
            × StopsAfter S.store S.failed self.old (take e.applied events.now) self.new) }
        ensures wanted { IfErr result (λ e. (event : Event) → slice_get events.now e.applied ≡ Some event
            → IsLight event → ¬ IsCalm (seen S.store self.new) event) }
        ensures safe { IsSafely (seen S.store self.new) }
        ensures ruled { AllAreRuled (seen S.store self.new) }
    {
        // A look at a field tells the prover the invariant, and one at the clients that each goes by its rule.
        let _ = &self.shelf;
        let _ = self.flow.clients();
        for (applied, event) in events.iter().enumerate() {
            if self.apply_lent(event).is_err() {
                return Err(RunError { applied });
            }
        }
        Ok(())
    }

    /// The report: a line for each client, in order, with what it is and how its job ended, and then one of what the store
    /// has. It changes nothing but the count of the device's failures. `Fault` comes only where the device failed.
    pub fn report(&mut self) -> Result<String, ShelfError>
        ensures report { IfOk result (λ text. IsReport (seen S.store self.old) (string_bytes text)) }
        ensures same { seen S.store self.new ≡ seen S.store self.old }
        ensures cause { HasCause (S.failed self.old.device) result (S.failed self.new.device) }
    {
        let mut text = self.flow.client_lines()?;
        let line = store_line(self.alloc, &mut self.shelf)?;
        text.push_str(line.as_str())?;
        Ok(text)
    }

    /// All messages, in the order in which they were sent: each stands for the request, or the reply, that [`World::request`]
    /// and [`World::reply`] lend.
    pub fn messages(&self) -> &[Message]
        ensures { result.now ≡ self.now.flow.messages }
    {
        self.flow.messages()
    }

    /// The request of a client at a place, counted from 0: it is there just where one of [`World::messages`] stands for it.
    pub fn request(&self, client: usize, place: usize) -> Option<&Request>
        ensures request { option_map (λ request. request.now) result ≡ slice_get (seat_at self.now.flow.seats client).requests place }
        ensures named { IsSome result ↔ Contains self.now.flow.messages (Message.Asked client place) }
    {
        self.flow.request(client, place)
    }

    /// The reply to a client at a place, counted from 0: it is there just where one of [`World::messages`] stands for it.
    pub fn reply(&self, client: usize, place: usize) -> Option<&Reply>
        ensures reply { option_map (λ reply. reply.now) result ≡ slice_get (seat_at self.now.flow.seats client).replies place }
        ensures named { IsSome result ↔ Contains self.now.flow.messages (Message.Said client place) }
    {
        self.flow.reply(client, place)
    }

    /// The request that a client waits for, until it stopped for good.
    pub fn pending(&self, client: usize) -> Option<&Request>
        ensures { option_map (λ request. request.now) result ≡ awaited (world.client (seen S.store self.now) client) }
    {
        let seat = self.flow.seat(client)?;
        if seat.is_crashed() {
            return None;
        }
        seat.pending()
    }

    /// How a client's job ended, once it has.
    pub fn outcome(&self, client: usize) -> Option<&Outcome>
        ensures { option_map (λ outcome. outcome.now) result ≡ (world.client (seen S.store self.now) client).outcome }
    {
        self.flow.seat(client)?.outcome()
    }

    /// What a client gave out on its exchange of a place, counted from 0: as it took the reply to its request of that place.
    pub fn emitted(&self, client: usize, place: usize) -> Option<&[Emission]>
        ensures { option_map (λ given. given.now) result ≡ slice_get (given_out (world.client (seen S.store self.now) client).trace) place }
    {
        self.flow.seat(client)?.emitted(place)
    }

    /// An object's bytes, whole, if it is there. It changes nothing but the count of the device's failures. `Fault` comes only
    /// where the device failed.
    pub fn object(&mut self, kind: Kind, name: &Name) -> Result<Option<Bytes>, ShelfError>
        ensures object { IfOk result (λ found. found ≡ (seen S.store self.old).store.objects kind name.now) }
        ensures same { seen S.store self.new ≡ seen S.store self.old }
        ensures cause { HasCause (S.failed self.old.device) result (S.failed self.new.device) }
    {
        self.shelf.get(kind, name)
    }

    /// How many clients started. Each goes by its job's whole rule: all that it asked, gave out and told, that rule allows.
    pub fn clients(&self) -> usize
        ensures count { result ≡ length (seen S.store self.now).clients }
        ensures ruled { AllAreRuled (seen S.store self.now) }
    {
        self.flow.clients()
    }
}
