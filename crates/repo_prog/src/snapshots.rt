//! `vault snapshots`.

ghost use Rattle.std.specs.Prelude.{◌≡◌};
ghost use Rattle.repo_prog.specs.Jobs.{ListObeyed};
ghost use Rattle.repo_prog.specs.declared.status.Status.{Status};
ghost use Rattle.repo_prog.specs.Shown.{ShowsListed, TellsListed};

use crate::callers::{Caller, HOST};
use crate::consoles::Console;
use crate::routes::Route;
use crate::status::{Status, failed};
use crate::telling::{show_made, snapshot_lines, unfinished};
use repo_dial::{Dial, bring};
use repo_restore::SnapshotList;
use repo_session::{DriveError, Outcome};
use std::alloc::Global;
use std::io::Write;

/// Writes the lines of a list of snapshots, or tells how else the job ended.
fn show_list<O: Write, F: Write>(
    alloc: Global,
    outcome: &Outcome,
    console: &mut Console<O, F>,
) -> Status
    ensures shows { ShowsListed outcome.now result (O.contents console.old.output) (O.contents console.new.output) }
    ensures silent { result ≡ Status.Done → console.new.faults ≡ console.old.faults }
{
    let Outcome::Listed(snapshots) = outcome else {
        return unfinished(alloc, Some(outcome), &mut console.faults);
    };
    show_made(snapshot_lines(alloc, snapshots.as_slice()), console)
}

/// `vault snapshots`: lists the snapshots, a line each, ascending by name. After the first connection `route.retry` more
/// are made at most.
pub fn snapshots_command<D: Dial, O: Write, F: Write>(
    alloc: Global,
    caller: &Caller,
    route: &mut Route<D>,
    console: &mut Console<O, F>,
) -> Status
    ensures obeyed { ListObeyed caller.now route.old.retry (D.connections route.old.dial) (D.connections route.new.dial) }
    ensures tells { TellsListed caller.now route.old.retry (D.connections route.old.dial) (D.connections route.new.dial) result (O.contents console.old.output) (O.contents console.new.output) }
    ensures silent { result ≡ Status.Done → console.new.faults ≡ console.old.faults }
    ensures retry { route.new.retry ≡ route.old.retry }
{
    let Ok(who) = caller.who(alloc, HOST) else {
        return failed(&mut console.faults, &DriveError::Memory);
    };
    let list = SnapshotList::new(alloc, who);
    match bring(alloc, list, &mut route.dial, route.retry) {
        Ok(outcome) => show_list(alloc, &outcome, console),
        Err(error) => failed(&mut console.faults, &error),
    }
}
