//! `vault forget --dry-run`.

ghost use Rattle.std.specs.Prelude.{◌≡◌};
ghost use Rattle.repo_prune.specs.Forgetting.{IsNoPolicy};
ghost use Rattle.repo_prog.specs.declared.status.Status.{Status};
ghost use Rattle.repo_prog.specs.Shown.{ShowsForeseen, TellsForeseen};
ghost use Rattle.repo_prog.specs.Jobs.{ListObeyed};

use crate::callers::{Caller, HOST};
use crate::consoles::Console;
use crate::routes::Route;
use crate::status::{Status, failed};
use crate::telling::{foreseen_lines, show_made, unfinished};
use repo_dial::{Dial, bring};
use repo_prune::{Choice, would_forget};
use repo_restore::SnapshotList;
use repo_session::{DriveError, Outcome};
use std::alloc::Global;
use std::io::Write;

/// Writes the lines of those of the listed snapshots that would be forgotten, or tells how else the job ended.
fn show_foreseen<O: Write, F: Write>(
    alloc: Global,
    choice: &Choice,
    outcome: &Outcome,
    console: &mut Console<O, F>,
) -> Status
    ensures shows { ShowsForeseen choice.now outcome.now result (O.contents console.old.output) (O.contents console.new.output) }
    ensures silent { result ≡ Status.Done → console.new.faults ≡ console.old.faults }
{
    let Outcome::Listed(snapshots) = outcome else {
        return unfinished(alloc, Some(outcome), &mut console.faults);
    };
    let Ok(names) = would_forget(alloc, choice, snapshots.as_slice()) else {
        return failed(&mut console.faults, &DriveError::Memory);
    };
    show_made(foreseen_lines(alloc, names.as_slice()), console)
}

/// `vault forget --dry-run`: lists the snapshots, and tells which ones would be forgotten, a line each, ascending by name.
/// It deletes nothing, and what it asks is what `vault snapshots` asks, under a lock that others share. A policy that keeps
/// nothing is told as `no policy`, and no connection is asked for. After the first connection `route.retry` more are made
/// at most.
pub fn foresee_command<D: Dial, O: Write, F: Write>(
    alloc: Global,
    caller: &Caller,
    choice: &Choice,
    route: &mut Route<D>,
    console: &mut Console<O, F>,
) -> Status
    ensures obeyed { ListObeyed caller.now route.old.retry (D.connections route.old.dial) (D.connections route.new.dial) }
    ensures tells { TellsForeseen caller.now choice.now route.old.retry (D.connections route.old.dial) (D.connections route.new.dial) result (O.contents console.old.output) (O.contents console.new.output) }
    ensures none { IsNoPolicy choice.now → (result ≡ Status.Failed) × (route.new.dial ≡ route.old.dial) × (console.new.output ≡ console.old.output) }
    ensures silent { result ≡ Status.Done → console.new.faults ≡ console.old.faults }
    ensures retry { route.new.retry ≡ route.old.retry }
{
    if choice.is_no_policy() {
        return failed(&mut console.faults, &"no policy");
    }
    let Ok(who) = caller.who(alloc, HOST) else {
        return failed(&mut console.faults, &DriveError::Memory);
    };
    let list = SnapshotList::new(alloc, who);
    match bring(alloc, list, &mut route.dial, route.retry) {
        Ok(outcome) => show_foreseen(alloc, choice, &outcome, console),
        Err(error) => failed(&mut console.faults, &error),
    }
}
