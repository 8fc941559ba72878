//! A client's errand at a server's address.

ghost use Rattle.std.specs.Prelude.{◌≡◌, ◌≢◌};
ghost use Rattle.repo_prog.specs.Commands.{IsErrand, IsStoredStatus};
ghost use Rattle.repo_prog.specs.Asking.{streams};
ghost use Rattle.repo_prog.specs.Errands.{AddressGives, ErrandGives, LockGives, LocksGive};
ghost use Rattle.repo_prog.specs.declared.errands.Errand.{Errand};
ghost use Rattle.repo_prog.specs.declared.status.Status.{Status};

use crate::backup::{Origin, backup_command};
use crate::callers::{Caller, caller_now};
use crate::check::check_command;
use crate::consoles::Console;
use crate::errands::{Errand, LockErrand};
use crate::foresee::foresee_command;
use crate::forget::forget_command;
use crate::locks::{locks_command, refresh_command, unlock_command};
use crate::prune::prune_command;
use crate::restore::{Restoring, restore_command};
use crate::routes::Route;
use crate::snapshots::snapshots_command;
use crate::status::{Status, failed};
use crate::upgrade::upgrade_command;
use repo_dial::{Address, Dial, KnownChannel};
use std::alloc::{AllocGlobal, Global};
use std::fs::Files;
use std::io::Write;
use std::net::Net;
use std::random::RandomSource;
use std::rt::Clock;

/// Asks about the locks.
fn ask_about_locks<E: KnownChannel, O: Write, F: Write>(
    alloc: Global,
    caller: &Caller,
    errand: LockErrand,
    channel: &mut E,
    console: &mut Console<O, F>,
) -> Status
    ensures gives { LockGives errand caller.now (streams (E.ends channel.old) (O.contents console.old.output)) result (streams (E.ends channel.new) (O.contents console.new.output)) }
    ensures silent { result ≡ Status.Done → console.new.faults ≡ console.old.faults }
    ensures status { result ≢ Status.Usage }
{
    match errand {
        LockErrand::List => locks_command(alloc, caller, channel, console),
        LockErrand::Refresh(token) => refresh_command(alloc, caller, token, channel, console),
        LockErrand::Remove { all } => unlock_command(alloc, caller, all, channel, console),
    }
}

/// Asks about the locks, over the next connection, and gives that back.
fn ask_locks<D: Dial, O: Write, F: Write>(
    alloc: Global,
    caller: &Caller,
    errand: LockErrand,
    dial: &mut D,
    console: &mut Console<O, F>,
) -> Status
    ensures gives { LocksGive errand caller.now (D.connections dial.old) (D.connections dial.new) (O.contents console.old.output) result (O.contents console.new.output) }
    ensures silent { result ≡ Status.Done → console.new.faults ≡ console.old.faults }
    ensures status { result ≢ Status.Usage }
{
    let Some(mut channel) = dial.dial() else {
        return failed(&mut console.faults, &"not reached");
    };
    let status = ask_about_locks(alloc, caller, errand, &mut channel, console);
    dial.hang_up(channel);
    status
}

/// Does an errand over connections that are made one after another: of a job, so many at most after the first; of what
/// is asked about locks, one. It does what the errand's command says of itself, and no other's.
pub fn do_errand<T: Files + AllocGlobal + Clone + Drop, D: Dial, O: Write, F: Write>(
    rt: &T,
    caller: &Caller,
    errand: Errand,
    route: &mut Route<D>,
    console: &mut Console<O, F>,
) -> Status
    requires { IsErrand errand }
    ensures gives { ErrandGives errand caller.now route.old.retry (D.connections route.old.dial) (D.connections route.new.dial) (O.contents console.old.output) result (O.contents console.new.output) }
    ensures checked { errand ≡ Errand.Check → IsStoredStatus result → console.new.faults ≡ console.old.faults }
    ensures silent { result ≡ Status.Done → console.new.faults ≡ console.old.faults }
    ensures status { result ≢ Status.Usage }
    ensures retry { route.new.retry ≡ route.old.retry }
{
    let alloc = rt.alloc();
    match errand {
        Errand::Backup { host, folder } => {
            let origin = Origin {
                host: host.as_str(),
                source: folder.as_str(),
            };
            backup_command(rt, caller, origin, route, console)
        }
        Errand::Snapshots => snapshots_command(alloc, caller, route, console),
        Errand::Restore { name, folder } => {
            let folder = folder.as_str();
            restore_command(rt, caller, Restoring { name, folder }, route, console)
        }
        Errand::Forget(choice) => forget_command(alloc, caller, choice, route, console),
        Errand::Foresee(choice) => foresee_command(alloc, caller, &choice, route, console),
        Errand::Prune => prune_command(alloc, caller, route, console),
        Errand::Upgrade => upgrade_command(alloc, caller, route, console),
        Errand::Check => check_command(alloc, caller, route, console),
        Errand::Locks(errand) => ask_locks(alloc, caller, errand, &mut route.dial, console),
    }
}

/// Connects to an address, and does an errand there. It connects again `route.retry` times at most; an address that can't be
/// connected to is told as `not reached`.
pub fn run_errand<
    T: Files + Net + AllocGlobal + RandomSource + Clock + Clone + Drop,
    O: Write,
    F: Write,
>(rt: &T, errand: Errand, route: Route<Address<'_, T>>, console: &mut Console<O, F>) -> Status
    requires { IsErrand errand }
    ensures gives { AddressGives errand route.entry.retry (O.contents console.old.output) result (O.contents console.new.output) }
    ensures checked { errand ≡ Errand.Check → IsStoredStatus result → console.new.faults ≡ console.old.faults }
    ensures silent { result ≡ Status.Done → console.new.faults ≡ console.old.faults }
    ensures status { result ≢ Status.Usage }
{
    let Route { mut dial, retry } = route;
    let Some(retry) = dial.reach(retry) else {
        return failed(&mut console.faults, &"not reached");
    };
    let Ok(caller) = caller_now(rt) else {
        return failed(&mut console.faults, &"read failed");
    };
    let mut route = Route { dial, retry };
    do_errand(rt, &caller, errand, &mut route, console)
}
