//! Events of a world, and the last requests of its clients.

ghost use Rattle.std.specs.Prelude.{◌≡◌, ◌∷◌, [], ◌↔◌, Some, IsTrue, IfOk, IfErr, IsErrOf, OnOk, length, option_map, slice_get};
ghost use Rattle.std.specs.Option.{MatchOption};
ghost use Rattle.repo_wire.specs.declared.messages.Request.{Request};
ghost use Rattle.repo_world.specs.Events.{Happens};
ghost use Rattle.repo_world.specs.Stages.{seen};
ghost use Rattle.repo_world.specs.World.{Asked};
ghost use Rattle.repo_world.specs.declared.events.Event.{Event};
ghost use Rattle.repo_play.specs.inner.Players.{NeverFails};
ghost use Rattle.repo_play.specs.inner.Scripts.{HaltsBy};
ghost use Rattle.repo_play.specs.Steps.{AllHappen, IsLast, HasClient};
ghost use Rattle.repo_play.specs.declared.faults.CarryError.{CarryError};
ghost use Rattle.repo_play.specs.declared.faults.Halt.{Halt};

use crate::carriers::Carrier;
use crate::faults::Halt;
use repo_store::Shelf;
use repo_world::{Applied, Event, Message, World};
use std::alloc::AllocError;

/// An event happens. It fails for memory alone.
pub fn happen<S: Shelf + Drop>(world: &mut World<S>, event: Event) -> Result<Applied, AllocError>
    requires { NeverFails S.failed }
    ensures { IfOk result (λ applied. Happens ⊥ (seen S.store world.old) event.entry applied (seen S.store world.new)) }
{
    world.apply(event)
}

/// An event happens, and nothing is told of it. It fails for memory alone.
pub fn pass<S: Shelf + Drop>(world: &mut World<S>, event: Event) -> Result<(), AllocError>
    requires { NeverFails S.failed }
    ensures { OnOk result (AllHappen (seen S.store world.old) (event.entry ∷ []) (seen S.store world.new)) }
{
    happen(world, event)?;
    Ok(())
}

/// Carries the request of a client that is pending, if one is.
fn carry_pending<S: Shelf + Drop, C: Carrier>(
    world: &World<S>,
    carrier: &mut C,
    client: usize,
) -> Result<(), Halt>
    ensures { IfErr result (λ halt. (error : CarryError) × C.fails error × (halt ≡ Halt.Carry error)) }
{
    if let Some(request) = world.pending(client) {
        carrier.request(client, request)?;
    }
    Ok(())
}

/// Carries the message of a number, if it is a reply.
fn carry_said<S: Shelf + Drop, C: Carrier>(
    world: &World<S>,
    carrier: &mut C,
    place: usize,
) -> Result<(), Halt>
    ensures { IfErr result (λ halt. (error : CarryError) × C.fails error × (halt ≡ Halt.Carry error)) }
{
    if let Some(Message::Said { client, reply }) = message(world, place) {
        if let Some(said) = world.reply(*client, *reply) {
            carrier.reply(*client, said)?;
        }
    }
    Ok(())
}

/// The pending request of a client is carried; an event happens; and then the message that joins the others in it is carried
/// and delivered.
pub fn exchange<S: Shelf + Drop, C: Carrier>(
    world: &mut World<S>,
    carrier: &mut C,
    client: usize,
    event: Event,
) -> Result<(), Halt>
    requires { NeverFails S.failed }
    ensures happen { OnOk result (AllHappen (seen S.store world.old) (event.entry ∷ Event.Deliver (length (seen S.store world.old).messages) ∷ [])
        (seen S.store world.new)) }
    ensures sense { ¬ IsErrOf result Halt.Nonsense }
    ensures few { ¬ IsErrOf result Halt.Limit }
    ensures carried { IfErr result (HaltsBy C.fails) }
{
    carry_pending(world, carrier, client)?;
    let reply = world.messages().len();
    happen(world, event)?;
    carry_said(world, carrier, reply)?;
    happen(world, Event::Deliver(reply))?;
    Ok(())
}

/// The message of a number, if there is one.
pub fn message<S: Shelf + Drop>(world: &World<S>, place: usize) -> Option<&Message>
    ensures { option_map (λ message. message.now) result ≡ slice_get world.now.flow.messages place }
{
    world.messages().get(place)
}

/// Whether the message of a number is a request of this client.
fn is_asked<S: Shelf + Drop>(world: &World<S>, client: usize, place: usize) -> bool
    ensures { IsTrue result ↔ ((request : Request) × (slice_get (seen S.store world.now).messages place ≡ Some (Asked client request))) }
{
    match message(world, place) {
        Some(Message::Asked { client: asker, .. }) => *asker == client,
        Some(Message::Said { .. }) => false,
        None => false,
    }
}

/// Where the last request of a client stands among all messages, if there is one.
pub fn last_request<S: Shelf + Drop>(world: &World<S>, client: usize) -> Option<usize>
    ensures { MatchOption result (¬ HasClient (seen S.store world.now) client) (λ place. IsLast (seen S.store world.now).messages client place) }
{
    let count = world.messages().len();
    for after in 0..count {
        let place = count - 1 - after;
        if is_asked(world, client, place) {
            return Some(place);
        }
    }
    None
}
