//! Starts of clients.

ghost use Rattle.std.specs.Prelude.{◌≡◌, Some, None, IfOk, IfErr, IsErrOf, string_bytes};
ghost use Rattle.repo_name.specs.Rows.{IsHost};
ghost use Rattle.repo_world.specs.Stages.{seen};
ghost use Rattle.repo_play.specs.Lines.{all_stored, host_of, refusal_number, start_line, stored_by, time_of};
ghost use Rattle.repo_play.specs.inner.Scripts.{HaltsBy};
ghost use Rattle.repo_play.specs.declared.faults.Halt.{Halt};

use crate::faults::Halt;
use repo_name::Name;
use repo_script::Start;
use repo_session::Outcome;
use repo_store::Shelf;
use repo_world::{Applied, Host, HostError, Refusal, World};
use std::alloc::{AllocError, Global};

/// The number of the reason why a client isn't begun.
fn refusal_number(refusal: Refusal) -> u8
    ensures { result ≡ refusal_number refusal }
{
    match refusal {
        Refusal::BadPath => 1,
        Refusal::Order => 2,
        Refusal::TooDeep => 3,
        Refusal::TooLarge => 4,
        Refusal::NoPolicy => 1,
    }
}

/// What is printed of a start. It fails for memory alone.
pub fn start_line(alloc: Global, applied: Applied) -> Result<String, AllocError>
    ensures { IfOk result (λ text. string_bytes text ≡ start_line applied) }
{
    match applied {
        Applied::Refused(refusal) => {
            let number = refusal_number(refusal);
            format!(in alloc; "start refused {number}\n")
        }
        _ => Ok(String::new(alloc)),
    }
}

/// The host of a client that starts so.
pub fn host_of(alloc: Global, start: &Start) -> Result<Host, Halt>
    ensures host { IfOk result (λ host. host ≡ host_of start.now) }
    ensures nonsense { IsErrOf result Halt.Nonsense → ¬ IsHost (host_of start.now) }
    ensures few { ¬ IsErrOf result Halt.Limit }
    ensures carried { IfErr result (HaltsBy (λ _. ⊥)) }
{
    let host = match start {
        Start::Backup { host, .. } | Start::Pieces { host, .. } => host.as_str(),
        _ => "play",
    };
    match Host::new(alloc, host) {
        Ok(host) => Ok(host),
        Err(HostError::Length) => Err(Halt::Nonsense),
        Err(HostError::Memory) => Err(Halt::Memory),
    }
}

/// The time of a client that starts so.
pub fn time_of(start: &Start) -> u64
    ensures { result ≡ time_of start.now }
{
    match start {
        Start::Backup { time, .. } | Start::Pieces { time, .. } => *time,
        _ => 0,
    }
}

/// The snapshot that a client reported as stored.
pub fn stored_by<S: Shelf + Drop>(world: &World<S>, client: usize) -> Option<Name>
    ensures { result ≡ stored_by (seen S.store world.now) client }
{
    match world.outcome(client) {
        Some(Outcome::Stored { name, .. }) => Some(*name),
        _ => None,
    }
}

/// The snapshots that all these clients reported.
pub fn all_stored<S: Shelf + Drop>(
    alloc: Global,
    world: &World<S>,
    clients: &[usize],
) -> Result<Vec<Name>, Halt>
    ensures stored { IfOk result (λ names. all_stored (seen S.store world.now) clients.now ≡ Some names.items) }
    ensures nonsense { IsErrOf result Halt.Nonsense → all_stored (seen S.store world.now) clients.now ≡ None }
    ensures few { ¬ IsErrOf result Halt.Limit }
    ensures carried { IfErr result (HaltsBy (λ _. ⊥)) }
{
    let mut names = Vec::new(alloc);
    for client in clients {
        let Some(name) = stored_by(world, *client) else {
            return Err(Halt::Nonsense);
        };
        names.push(name)?;
    }
    Ok(names)
}
