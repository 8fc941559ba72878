//! `vault upgrade`.

ghost use Rattle.std.specs.Prelude.{◌≡◌};
ghost use Rattle.repo_prog.specs.declared.status.Status.{Status};
ghost use Rattle.repo_prog.specs.Shown.{ShowsUpgraded, TellsUpgraded};
ghost use Rattle.repo_prog.specs.Jobs.{UpgradeObeyed};

use crate::callers::{Caller, HOST};
use crate::consoles::Console;
use crate::routes::Route;
use crate::status::{Status, failed};
use crate::telling::{show_made, unfinished, upgraded_line};
use repo_dial::{Dial, bring};
use repo_prune::Upgrade;
use repo_session::{DriveError, Outcome};
use std::alloc::Global;
use std::io::Write;

/// Writes the line of an upgrade that is done, or tells how else the job ended.
fn show_upgraded<O: Write, F: Write>(
    alloc: Global,
    outcome: &Outcome,
    console: &mut Console<O, F>,
) -> Status
    ensures shows { ShowsUpgraded outcome.now result (O.contents console.old.output) (O.contents console.new.output) }
    ensures silent { result ≡ Status.Done → console.new.faults ≡ console.old.faults }
{
    let Outcome::Upgraded = outcome else {
        return unfinished(alloc, Some(outcome), &mut console.faults);
    };
    show_made(upgraded_line(alloc), console)
}

/// `vault upgrade`: makes the store's config one of version 2, and tells that it is. After the first connection
/// `route.retry` more are made at most. Where it ends before, the config is as it was, or of version 2.
pub fn upgrade_command<D: Dial, O: Write, F: Write>(
    alloc: Global,
    caller: &Caller,
    route: &mut Route<D>,
    console: &mut Console<O, F>,
) -> Status
    ensures obeyed { UpgradeObeyed caller.now route.old.retry (D.connections route.old.dial) (D.connections route.new.dial) }
    ensures tells { TellsUpgraded caller.now route.old.retry (D.connections route.old.dial) (D.connections route.new.dial) result (O.contents console.old.output) (O.contents console.new.output) }
    ensures silent { result ≡ Status.Done → console.new.faults ≡ console.old.faults }
    ensures retry { route.new.retry ≡ route.old.retry }
{
    let Ok(who) = caller.who(alloc, HOST) else {
        return failed(&mut console.faults, &DriveError::Memory);
    };
    let upgrade = Upgrade::new(alloc, who);
    match bring(alloc, upgrade, &mut route.dial, route.retry) {
        Ok(outcome) => show_upgraded(alloc, &outcome, console),
        Err(error) => failed(&mut console.faults, &error),
    }
}
