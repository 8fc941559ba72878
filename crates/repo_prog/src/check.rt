//! `vault check`.

ghost use Rattle.std.specs.Prelude.{◌≡◌};
ghost use Rattle.repo_prog.specs.Commands.{IsStoredStatus};
ghost use Rattle.repo_prog.specs.declared.status.Status.{Status};
ghost use Rattle.repo_prog.specs.Shown.{ShowsChecked, TellsChecked};
ghost use Rattle.repo_prog.specs.Jobs.{CheckObeyed};

use crate::callers::{Caller, HOST};
use crate::consoles::Console;
use crate::routes::Route;
use crate::status::{Status, failed, flawed};
use crate::telling::{clean_line, fault_lines, show_made, unfinished};
use repo_check::Check;
use repo_dial::{Dial, bring};
use repo_session::{DriveError, Outcome};
use std::alloc::Global;
use std::io::Write;

/// Writes what a check found, and where things are at fault the status is `Flawed`; or tells how else the job ended.
fn show_checked<O: Write, F: Write>(
    alloc: Global,
    outcome: &Outcome,
    console: &mut Console<O, F>,
) -> Status
    ensures shows { ShowsChecked outcome.now result (O.contents console.old.output) (O.contents console.new.output) }
    ensures silent { IsStoredStatus result → console.new.faults ≡ console.old.faults }
{
    match outcome {
        Outcome::Clean {
            snapshots,
            indexes,
            packs,
            blobs,
        } => {
            let line = clean_line(alloc, *snapshots, *indexes, *packs, *blobs);
            show_made(line, console)
        }
        Outcome::Faults(found) => {
            flawed(show_made(fault_lines(alloc, found.as_slice()), console))
        }
        _ => unfinished(alloc, Some(outcome), &mut console.faults),
    }
}

/// `vault check`: reads all of a store, and tells that it is well: how many snapshots, indexes and packs it has, and how
/// many blobs the snapshots need. Where things are at fault it tells them in place of that, a line each on the output, and
/// the status is `Flawed`. It changes nothing. After the first connection `route.retry` more are made at most.
pub fn check_command<D: Dial, O: Write, F: Write>(
    alloc: Global,
    caller: &Caller,
    route: &mut Route<D>,
    console: &mut Console<O, F>,
) -> Status
    ensures obeyed { CheckObeyed caller.now route.old.retry (D.connections route.old.dial) (D.connections route.new.dial) }
    ensures tells { TellsChecked caller.now route.old.retry (D.connections route.old.dial) (D.connections route.new.dial) result (O.contents console.old.output) (O.contents console.new.output) }
    ensures silent { IsStoredStatus result → console.new.faults ≡ console.old.faults }
    ensures retry { route.new.retry ≡ route.old.retry }
{
    let Ok(who) = caller.who(alloc, HOST) else {
        return failed(&mut console.faults, &DriveError::Memory);
    };
    let check = Check::new(alloc, who);
    match bring(alloc, check, &mut route.dial, route.retry) {
        Ok(outcome) => show_checked(alloc, &outcome, console),
        Err(error) => failed(&mut console.faults, &error),
    }
}
