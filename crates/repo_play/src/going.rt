//! Steps of a client.

ghost use Rattle.std.specs.Prelude.{◌≡◌, ◌≤◌, ◌^◌, ◌↔◌, ℕ, IsTrue, IfErr, OnOk, IsErrOf, None};
ghost use Rattle.repo_store.specs.declared.faults.Fail.{Fail};
ghost use Rattle.repo_world.specs.Stages.{seen};
ghost use Rattle.repo_world.specs.World as worlds;
ghost use Rattle.repo_world.specs.World.{awaited};
ghost use Rattle.repo_play.specs.inner.Players.{NeverFails};
ghost use Rattle.repo_play.specs.inner.Scripts.{HaltsBy};
ghost use Rattle.repo_play.specs.Steps.{HasClient, NeedsNoStep, MayStepClient, StepsClientOn, Goes, delivery};
ghost use Rattle.repo_play.specs.declared.faults.Halt.{Halt};

use crate::carriers::Carrier;
use crate::exchanges::{exchange, last_request};
use crate::faults::Halt;
use repo_script::AskSort;
use repo_store::{Fail, Shelf};
use repo_world::{Event, World};

/// The most steps that one line takes.
const STEPS: u64 = 1 << 32;

/// The delivery of a message, in which a call of the device fails, if one is to.
fn delivery(fail: Option<Fail>, message: usize) -> Event<'static>
    ensures { result ≡ delivery fail message }
{
    match fail {
        Some(fail) => Event::Fault { message, fail },
        None => Event::Deliver(message),
    }
}

/// A step of a client, in which a call of the device fails, if one is to; none is made where nothing is pending.
pub fn step<S: Shelf + Drop, C: Carrier>(
    world: &mut World<S>,
    carrier: &mut C,
    client: usize,
    fail: Option<Fail>,
) -> Result<(), Halt>
    requires { NeverFails S.failed }
    ensures steps { OnOk result (HasClient (seen S.store world.old) client × MayStepClient fail (seen S.store world.old) client (seen S.store world.new)) }
    ensures nonsense { IsErrOf result Halt.Nonsense → ¬ HasClient (seen S.store world.old) client }
    ensures few { ¬ IsErrOf result Halt.Limit }
    ensures carried { IfErr result (HaltsBy C.fails) }
{
    let Some(place) = last_request(world, client) else {
        return Err(Halt::Nonsense);
    };
    if world.pending(client).is_none() {
        return Ok(());
    }
    exchange(world, carrier, client, delivery(fail, place))
}

/// Whether a client has no more steps to make: nothing is pending, or it is a request of the sort that is waited for.
fn is_over<S: Shelf + Drop>(world: &World<S>, client: usize, sort: Option<AskSort>) -> bool
    ensures { IsTrue result ↔ NeedsNoStep sort (awaited (worlds.client (seen S.store world.now) client)) }
{
    match (world.pending(client), sort) {
        (None, _) => true,
        (Some(_), None) => false,
        (Some(request), Some(sort)) => sort.matches(&request.ask),
    }
}

/// Steps of a client, until nothing is pending or a request of the sort that is waited for.
pub fn go<S: Shelf + Drop, C: Carrier>(
    world: &mut World<S>,
    carrier: &mut C,
    client: usize,
    sort: Option<AskSort>,
) -> Result<(), Halt>
    requires { NeverFails S.failed }
    ensures goes { OnOk result (HasClient (seen S.store world.old) client × Goes sort (seen S.store world.old) client (seen S.store world.new)) }
    ensures nonsense { IsErrOf result Halt.Nonsense → ¬ HasClient (seen S.store world.old) client }
    ensures far { IsErrOf result Halt.Limit → (n : ℕ) × (v : worlds.World) × (2 ^ 32 ≤ n) × StepsClientOn sort n (seen S.store world.old) client v }
    ensures carried { IfErr result (HaltsBy C.fails) }
{
    if last_request(world, client).is_none() {
        return Err(Halt::Nonsense);
    }
    for made in 0..STEPS {
        if is_over(world, client, sort) {
            return Ok(());
        }
        step(world, carrier, client, None)?;
    }
    Err(Halt::Limit)
}
