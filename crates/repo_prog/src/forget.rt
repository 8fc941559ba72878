//! `vault forget`.

ghost use Rattle.std.specs.Prelude.{◌≡◌};
ghost use Rattle.repo_prune.specs.Forgetting.{IsNoPolicy};
ghost use Rattle.repo_prog.specs.declared.status.Status.{Status};
ghost use Rattle.repo_prog.specs.Shown.{ShowsForgotten, TellsForgotten};
ghost use Rattle.repo_prog.specs.Jobs.{ForgetObeyed};

use crate::callers::{Caller, HOST};
use crate::consoles::Console;
use crate::routes::Route;
use crate::status::{Status, failed};
use crate::telling::{forgotten_lines, show_made, unfinished};
use repo_dial::{Dial, bring};
use repo_prune::{Choice, Forget, ForgetError};
use repo_session::{DriveError, Outcome};
use std::alloc::Global;
use std::io::Write;

/// Writes the lines of the snapshots that were forgotten, or tells how else the job ended.
fn show_forgotten<O: Write, F: Write>(
    alloc: Global,
    outcome: &Outcome,
    console: &mut Console<O, F>,
) -> Status
    ensures shows { ShowsForgotten outcome.now result (O.contents console.old.output) (O.contents console.new.output) }
    ensures silent { result ≡ Status.Done → console.new.faults ≡ console.old.faults }
{
    let Outcome::Forgotten(names) = outcome else {
        return unfinished(alloc, Some(outcome), &mut console.faults);
    };
    show_made(forgotten_lines(alloc, names.as_slice()), console)
}

/// `vault forget`: forgets the chosen snapshots, and tells their names, a line each, ascending. A policy that keeps nothing
/// is told as `no policy`, and no connection is asked for. After the first connection `route.retry` more are made at most.
/// Where it ends before all of them are forgotten, some may be.
pub fn forget_command<D: Dial, O: Write, F: Write>(
    alloc: Global,
    caller: &Caller,
    choice: Choice,
    route: &mut Route<D>,
    console: &mut Console<O, F>,
) -> Status
    ensures obeyed { ForgetObeyed caller.now choice route.old.retry (D.connections route.old.dial) (D.connections route.new.dial) }
    ensures tells { TellsForgotten caller.now choice route.old.retry (D.connections route.old.dial) (D.connections route.new.dial) result (O.contents console.old.output) (O.contents console.new.output) }
    ensures none { IsNoPolicy choice → (result ≡ Status.Failed) × (route.new.dial ≡ route.old.dial) × (console.new.output ≡ console.old.output) }
    ensures silent { result ≡ Status.Done → console.new.faults ≡ console.old.faults }
    ensures retry { route.new.retry ≡ route.old.retry }
{
    let Ok(who) = caller.who(alloc, HOST) else {
        return failed(&mut console.faults, &DriveError::Memory);
    };
    let forget = match Forget::new(alloc, who, choice) {
        Ok(forget) => forget,
        Err(ForgetError::NoPolicy) => return failed(&mut console.faults, &"no policy"),
    };
    match bring(alloc, forget, &mut route.dial, route.retry) {
        Ok(outcome) => show_forgotten(alloc, &outcome, console),
        Err(error) => failed(&mut console.faults, &error),
    }
}
