//! What carries the messages between clients and store.

ghost use Rattle.std.specs.Prelude.{IfErr};
ghost use Rattle.repo_play.specs.declared.faults.CarryError.{CarryError};

use crate::faults::CarryError;
use repo_wire::{Reply, Request};

/// What carries each message from one end to the other, before it is delivered.
pub trait Carrier {
    /// The errors that it may fail with.
    ghost fails: { CarryError → Type 0 };

    /// Carries a request of a client to the store.
    fn request(&mut self, client: usize, request: &Request) -> Result<(), CarryError>
        ensures fails { IfErr result fails };

    /// Carries a reply of the store to a client.
    fn reply(&mut self, client: usize, reply: &Reply) -> Result<(), CarryError>
        ensures fails { IfErr result fails };
}

/// Nothing: messages are delivered as they are.
#[derive(Clone, Copy, Debug, Drop)]
pub struct Nothing;

impl Carrier for Nothing {
    ghost fails = { λ _. ⊥ };

    fn request(&mut self, _client: usize, _request: &Request) -> Result<(), CarryError> {
        Ok(())
    }

    fn reply(&mut self, _client: usize, _reply: &Reply) -> Result<(), CarryError> {
        Ok(())
    }
}
