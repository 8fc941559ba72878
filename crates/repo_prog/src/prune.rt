//! `vault prune`.

ghost use Rattle.std.specs.Prelude.{◌≡◌};
ghost use Rattle.repo_prog.specs.declared.status.Status.{Status};
ghost use Rattle.repo_prog.specs.Shown.{ShowsPruned, TellsPruned};
ghost use Rattle.repo_prog.specs.Jobs.{PruneObeyed};

use crate::callers::{Caller, HOST};
use crate::consoles::Console;
use crate::routes::Route;
use crate::status::{Status, failed};
use crate::telling::{pruned_line, show_made, unfinished};
use repo_dial::{Dial, bring};
use repo_prune::Prune;
use repo_session::{DriveError, Outcome};
use std::alloc::Global;
use std::io::Write;

/// Writes the line of a prune that is done, or tells how else the job ended.
fn show_pruned<O: Write, F: Write>(
    alloc: Global,
    outcome: &Outcome,
    console: &mut Console<O, F>,
) -> Status
    ensures shows { ShowsPruned outcome.now result (O.contents console.old.output) (O.contents console.new.output) }
    ensures silent { result ≡ Status.Done → console.new.faults ≡ console.old.faults }
{
    let Outcome::Pruned { packs, bytes } = outcome else {
        return unfinished(alloc, Some(outcome), &mut console.faults);
    };
    show_made(pruned_line(alloc, *packs, *bytes), console)
}

/// `vault prune`: removes what no snapshot needs, and tells how many packs it deleted, and how many bytes of blobs it put
/// into new ones. After the first connection `route.retry` more are made at most. Where it ends before, each snapshot still
/// has all that it needs.
pub fn prune_command<D: Dial, O: Write, F: Write>(
    alloc: Global,
    caller: &Caller,
    route: &mut Route<D>,
    console: &mut Console<O, F>,
) -> Status
    ensures obeyed { PruneObeyed caller.now route.old.retry (D.connections route.old.dial) (D.connections route.new.dial) }
    ensures tells { TellsPruned caller.now route.old.retry (D.connections route.old.dial) (D.connections route.new.dial) result (O.contents console.old.output) (O.contents console.new.output) }
    ensures silent { result ≡ Status.Done → console.new.faults ≡ console.old.faults }
    ensures retry { route.new.retry ≡ route.old.retry }
{
    let Ok(who) = caller.who(alloc, HOST) else {
        return failed(&mut console.faults, &DriveError::Memory);
    };
    let prune = Prune::new(alloc, who);
    match bring(alloc, prune, &mut route.dial, route.retry) {
        Ok(outcome) => show_pruned(alloc, &outcome, console),
        Err(error) => failed(&mut console.faults, &error),
    }
}
