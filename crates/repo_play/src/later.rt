//! Requests that are delivered once more.

ghost use Rattle.std.specs.Prelude.{◌≡◌, ◌↔◌, ◌++◌, ◌∷◌, [], ℕ, List, IsTrue, Some, IfOk, IfErr, OnOk, IsErrOf, option_map, slice_get, string_bytes};
ghost use Rattle.std.specs.Option.{MatchOption};
ghost use Rattle.repo_wire.specs.declared.messages.Reply as replies;
ghost use Rattle.repo_wire.specs.declared.messages.Request.{Request};
ghost use Rattle.repo_world.specs.Seats.{silence};
ghost use Rattle.repo_world.specs.Stages.{seen};
ghost use Rattle.repo_world.specs.World as worlds;
ghost use Rattle.repo_world.specs.World.{Asked, Said};
ghost use Rattle.repo_play.specs.inner.Players.{NeverFails};
ghost use Rattle.repo_play.specs.inner.Scripts.{HaltsBy};
ghost use Rattle.repo_play.specs.Steps.{AllHappen, HasClient, IsLate, deliveries, late_line};
ghost use Rattle.repo_play.specs.declared.faults.Halt.{Halt};

use crate::exchanges::{happen, last_request, message};
use crate::faults::Halt;
use repo_store::Shelf;
use repo_wire::{Reply, Say};
use repo_world::{Event, Message, World};
use std::alloc::{AllocError, Global};

/// The line that tells what the store said to a late request. It fails for memory alone.
fn late_line(alloc: Global, client: usize, say: &Say) -> Result<String, AllocError>
    ensures { IfOk result (λ text. string_bytes text ≡ late_line client say.now) }
{
    match say {
        Say::Done => format!(in alloc; "late {client} done\n"),
        Say::Refused(code) => {
            let number = code.number();
            format!(in alloc; "late {client} refused {number}\n")
        }
        _ => format!(in alloc; "late {client} other\n"),
    }
}

/// The reply that joined the messages last, if one did.
fn last_reply<S: Shelf + Drop>(world: &World<S>) -> Option<&Reply>
    ensures { (messages : List worlds.Message) (client : ℕ) (reply : replies.Reply) → (seen S.store world.now).messages ≡ messages ++ Said client reply ∷ []
        → MatchOption result (reply ≡ silence) (λ last. last.now ≡ reply) }
{
    match world.messages().last() {
        Some(Message::Said { client, reply }) => world.reply(*client, *reply),
        Some(Message::Asked { .. }) => None,
        None => None,
    }
}

/// The line of a client whose last request was just delivered once more. It fails for memory alone.
fn told<S: Shelf + Drop>(
    alloc: Global,
    world: &World<S>,
    client: usize,
) -> Result<String, AllocError>
    ensures { (messages : List worlds.Message) (reply : replies.Reply) → (seen S.store world.now).messages ≡ messages ++ Said client reply ∷ []
        → IfOk result (λ text. string_bytes text ≡ late_line client reply.say) }
{
    match last_reply(world) {
        Some(reply) => late_line(alloc, client, &reply.say),
        None => late_line(alloc, client, &Say::Done),
    }
}

/// The last request of a client is delivered once more, and the line that tells what the store says is given. The reply is
/// delivered to nobody.
pub fn late<S: Shelf + Drop>(
    alloc: Global,
    world: &mut World<S>,
    client: usize,
) -> Result<String, Halt>
    requires { NeverFails S.failed }
    ensures late { IfOk result (λ text. IsLate (seen S.store world.old) client (string_bytes text) (seen S.store world.new)) }
    ensures nonsense { IsErrOf result Halt.Nonsense → ¬ HasClient (seen S.store world.old) client }
    ensures few { ¬ IsErrOf result Halt.Limit }
    ensures carried { IfErr result (HaltsBy (λ _. ⊥)) }
{
    let Some(place) = last_request(world, client) else {
        return Err(Halt::Nonsense);
    };
    happen(world, Event::Deliver(place))?;
    Ok(told(alloc, world, client)?)
}

/// Whether the message of a number is a request.
fn is_request<S: Shelf + Drop>(world: &World<S>, place: usize) -> bool
    ensures { IsTrue result ↔ ((client : ℕ) × (request : Request) × (slice_get (seen S.store world.now).messages place ≡ Some (Asked client request))) }
{
    match message(world, place) {
        Some(Message::Asked { .. }) => true,
        Some(Message::Said { .. }) => false,
        None => false,
    }
}

/// Each request that was sent so far is delivered once more, in order, and the replies to nobody. It fails for memory alone.
pub fn replay<S: Shelf + Drop>(world: &mut World<S>) -> Result<(), AllocError>
    requires { NeverFails S.failed }
    ensures { OnOk result (AllHappen (seen S.store world.old) (deliveries 0 (seen S.store world.old).messages) (seen S.store world.new)) }
{
    let count = world.messages().len();
    for place in 0..count {
        if is_request(world, place) {
            happen(world, Event::Deliver(place))?;
        }
    }
    Ok(())
}
