//! Who runs a command against a server, and when.

ghost use Rattle.std.specs.Prelude.{◌≡◌, ◌/◌, IfOk, IfSome};
ghost use Rattle.std.specs.Time.{system_time_nanos};
ghost use Rattle.repo_name.specs.Naming.{IsInstance};
ghost use Rattle.repo_name.specs.Rows.{IsHost};
ghost use Rattle.repo_wire.specs.Messages.{IsAsk, IsShortAsk, requests};
ghost use Rattle.repo_wire.specs.Stream.{FitsFrame};
ghost use Rattle.repo_session.specs.Askers.{asker};
ghost use Rattle.repo_session.specs.declared.versions.Versions.{Versions};
ghost use Rattle.repo_prog.specs.Asking.{request_of};

use crate::init::random_instance;
use repo_name::Instance;
use repo_session::{Who, WhoError};
use repo_wire::{Ask, Request};
use std::alloc::{AllocError, Global};
use std::io;
use std::io::ErrorKind;
use std::random::RandomSource;
use std::rt::Clock;
use std::time::{SystemTime, UNIX_EPOCH};

/// The host of a lock that isn't a backup's.
pub const HOST: &str = "vault";

/// Who runs a command against a server, and when.
#[derive(Clone, Copy, Debug, PartialEq, Eq)]
pub struct Caller {
    /// What tells this run from every other.
    pub instance: Instance,
    /// The moment, in seconds since 1970.
    pub time: u64,
}

/// The caller of this instance at a moment. `None` before 1970.
fn caller_at(instance: Instance, now: SystemTime) -> Option<Caller>
    ensures { IfSome result (λ caller. caller ≡ record { instance = instance; time = system_time_nanos now / 1_000_000_000 }) }
{
    match now.duration_since(UNIX_EPOCH) {
        Ok(age) => Some(Caller {
            instance,
            time: age.as_secs(),
        }),
        Err(_) => None,
    }
}

/// The caller that runs now: sixteen random bytes, and the moment by the machine's clock. It fails where the
/// machine gives no random bytes, or its clock stands before 1970.
pub fn caller_now<R: RandomSource + Clock>(rt: &R) -> io::Result<Caller>
    ensures { IfOk result (λ caller. IsInstance caller.instance) }
{
    let instance = random_instance(rt)?;
    match caller_at(instance, SystemTime::now(rt)?) {
        Some(caller) => Ok(caller),
        None => Err(io::Error::from(ErrorKind::InvalidData)),
    }
}

impl Caller {
    /// The caller, under the name of a machine. It fails for memory alone.
    pub fn who(&self, alloc: Global, host: &str) -> Result<Who, AllocError>
        requires { IsHost host.now }
        ensures { IfOk result (λ who. who ≡ asker self.now.instance host.now self.now.time Versions.Both) }
    {
        match Who::new(alloc, self.instance, host, self.time) {
            Ok(who) => Ok(who),
            Err(WhoError::Host) => unreachable!(),
            Err(WhoError::Memory) => Err(AllocError),
        }
    }

    /// The caller's request of this number.
    pub fn request(&self, sequence: u64, ask: Ask) -> Request
        requires { IsAsk ask × IsShortAsk ask }
        ensures value { result ≡ request_of self.now sequence ask }
        ensures frame { FitsFrame requests result }
    {
        let instance = Instance(self.instance.to_bytes());
        Request {
            instance,
            sequence,
            ask,
        }
    }
}
