//! The store at the other end of a job's connections.

ghost use Rattle.std.specs.Prelude.{◌≡◌, ◌↔◌, ◌<◌, true, None, Some, Option};
ghost use Rattle.repo_wire.specs.Messages.{requests};
ghost use Rattle.repo_wire.specs.Stream.{FitsFrame};
ghost use Rattle.repo_dial.specs.Dialing.{Asking, HasMet, Meets, MeetsSay, Recognizes, config_request, ends_behind};

use crate::again::TryError;
use crate::asking::ask_once;
use crate::ends::KnownChannel;
use repo_name::Bytes;
use repo_session::Client;
use repo_wire::{Ask, Request, Say};
use std::alloc::Global;

/// What a job knows of the store at the other end of its connections.
#[derive(Drop)]
pub struct Acquaintance {
    /// Whether the store is asked for its config before anything else is said, over each connection.
    pub asks: bool,
    /// The config that was told first.
    pub config: Option<Bytes>,
}

/// The ask for the config that goes before a client's own requests: its number is 0, which none of these has.
fn config_request(next: &Request) -> Request
    requires { FitsFrame requests next.now }
    ensures value { result ≡ config_request next.now }
    ensures frame { FitsFrame requests result }
{
    Request {
        instance: next.instance,
        sequence: 0,
        ask: Ask::Config,
    }
}

impl Acquaintance {
    /// Nothing is known yet. Stores are asked just where more connections than one may be made, so many after the first.
    pub fn new(retry: u64) -> Acquaintance
        ensures asks { (result.asks ≡ true) ↔ (0 < retry) }
        ensures config { result.config ≡ None }
    {
        Acquaintance {
            asks: retry > 0,
            config: None,
        }
    }

    /// Takes a config that was told: the first one is kept, another one is of another store.
    fn recognize(&mut self, config: Bytes) -> Result<(), TryError>
        ensures recognizes { Recognizes self.old.config config result self.new.config }
        ensures asks { self.new.asks ≡ self.old.asks }
    {
        let Some(known) = &self.config else {
            self.config = Some(config);
            return Ok(());
        };
        if known.as_slice() == config.as_slice() {
            Ok(())
        } else {
            Err(TryError::OtherStore)
        }
    }

    /// Takes what a store said to the ask for its config.
    fn take(&mut self, say: Say) -> Result<(), TryError>
        ensures meets { MeetsSay self.old.config say result self.new.config }
        ensures asks { self.new.asks ≡ self.old.asks }
    {
        match say {
            Say::Bytes(config) => self.recognize(config),
            Say::Refused(code) => Err(TryError::Refused(code)),
            _ => Err(TryError::BadReply),
        }
    }

    /// Asks the store at the other end of a connection for its config, before the client says anything: an error where it
    /// isn't the one that is known, or tells none. Where stores aren't asked, or nothing is pending, nothing is said.
    pub fn meet<C: Client, E: KnownChannel>(
        &mut self,
        alloc: Global,
        client: &C,
        channel: &mut E,
    ) -> Result<(), TryError>
        ensures { (asking : Option Asking) × HasMet (C.next client.now) self.old asking result self.new
            × (E.ends channel.new ≡ ends_behind (E.ends channel.old) asking)
            × ((a : Asking) → asking ≡ Some a → a.came ≡ E.ends channel.old) }
    {
        if !self.asks {
            return Ok(());
        }
        let Some(next) = client.pending() else {
            return Ok(());
        };
        match ask_once(alloc, channel, &config_request(next)) {
            Ok(reply) => self.take(reply.say),
            Err(error) => Err(TryError::Drive(error)),
        }
    }
}
