//! `vault restore`.

ghost use Rattle.std.specs.Fn.{CalledAt};
ghost use Rattle.std.specs.Prelude.{◌≡◌, ◌≢◌, Ok};
ghost use Rattle.repo_dial.specs.declared.again.TryError.{TryError};
ghost use Rattle.repo_session.specs.declared.driving.DriveError.{DriveError};
ghost use Rattle.repo_prog.specs.Jobs.{RestoreCame, RestoreObeyed};
ghost use Rattle.repo_prog.specs.declared.status.Status.{Status};
ghost use Rattle.repo_prog.specs.Shown.{ShowsRestored, TellsRestored};

use crate::callers::{Caller, HOST};
use crate::consoles::Console;
use crate::routes::Route;
use crate::status::{Status, failed};
use crate::telling::{complete_line, show_made, unfinished};
use repo_dial::{Dial, TryError, bring_into};
use repo_files::{Restorer, RestorerError};
use repo_name::Name;
use repo_restore::Restore;
use repo_session::{DriveError, Emission, Outcome};
use std::alloc::{AllocGlobal, Global};
use std::fs::Files;
use std::io::Write;

/// What is restored: the snapshot of this name, into this folder.
#[derive(Clone, Copy, Debug)]
pub struct Restoring<'a> {
    pub name: Name,
    pub folder: &'a str,
}

/// Writes the line of a restore that is complete, once what it gave out is finished, or tells how else the job ended.
fn show_restored<E: FnOnce() -> Result<(), DriveError>, O: Write, F: Write>(
    alloc: Global,
    outcome: &Outcome,
    finish: E,
    console: &mut Console<O, F>,
) -> Status
    requires { E.pre finish }
    ensures finished { result ≡ Status.Done → E.post finish (Ok tt) }
    ensures shows { ShowsRestored outcome.now result (O.contents console.old.output) (O.contents console.new.output) }
    ensures silent { result ≡ Status.Done → console.new.faults ≡ console.old.faults }
{
    let Outcome::Complete { entries } = outcome else {
        return unfinished(alloc, Some(outcome), &mut console.faults);
    };
    if let Err(error) = finish() {
        return failed(&mut console.faults, &error);
    }
    show_made(complete_line(alloc, *entries), console)
}

/// Brings a restore to its end, and hands what it gives out to a sink, each part once and in order.
fn restored<D: Dial, S: FnMut(&Emission) -> bool>(
    alloc: Global,
    caller: &Caller,
    name: Name,
    sink: &mut S,
    route: &mut Route<D>,
) -> Result<Outcome, TryError>
    requires callable { (state : S) (x : _) → S.pre state x }
    ensures came { RestoreCame (CalledAt S.FnMut) sink.old caller.now name result route.old.retry (D.connections route.old.dial) (D.connections route.new.dial) sink.new }
    ensures retry { route.new.retry ≡ route.old.retry }
{
    let who = caller.who(alloc, HOST)?;
    let restore = Restore::new(alloc, who, name);
    bring_into(alloc, restore, sink, &mut route.dial, route.retry)
}

/// The same of a sink that is handed over.
fn restored_by<D: Dial, S: FnMut(&Emission) -> bool>(
    alloc: Global,
    caller: &Caller,
    name: Name,
    sink: S,
    route: &mut Route<D>,
) -> Result<Outcome, TryError>
    requires callable { (state : S) (x : _) → S.pre state x }
    ensures came { (last : S) × RestoreCame (CalledAt S.FnMut) sink caller.now name result route.old.retry (D.connections route.old.dial) (D.connections route.new.dial) last }
    ensures retry { route.new.retry ≡ route.old.retry }
{
    let mut sink = sink;
    restored(alloc, caller, name, &mut sink, route)
}

/// Why a restore ended: if the restorer refused a part, its reason.
fn cause_of(error: TryError, refusal: DriveError) -> TryError
    ensures refused { error ≡ TryError.Drive DriveError.Sink → result ≡ TryError.Drive refusal }
    ensures other { error ≢ TryError.Drive DriveError.Sink → result ≡ error }
{
    match error {
        TryError::Drive(DriveError::Sink) => TryError::Drive(refusal),
        other => other,
    }
}

/// Tells why a folder can't be restored into.
fn not_begun<F: Write>(error: RestorerError, faults: &mut F) -> Status
    ensures { result ≡ Status.Failed }
{
    match error {
        RestorerError::NotEmpty => failed(faults, &"target not empty"),
        RestorerError::NotSafe => failed(faults, &"target not safe"),
        RestorerError::Unwritable => failed(faults, &DriveError::Sink),
        RestorerError::Memory => failed(faults, &DriveError::Memory),
    }
}

/// `vault restore`: restores a snapshot into a folder, which has to be empty, or isn't there: it is made for the first thing
/// that is given out, or where the restore is complete. What was written before an end stays. All of it is synced before it is
/// told as complete. For root the folder has to be safe from other users ([`is_safe_target`](repo_files::is_safe_target)).
///
/// After the first connection `route.retry` more are made at most; the folder is begun once, whatever connections it takes.
/// That the folder then holds what was given out is no clause, since no contract sees a file.
pub fn restore_command<T: Files + AllocGlobal + Clone + Drop, D: Dial, O: Write, F: Write>(
    rt: &T,
    caller: &Caller,
    restoring: Restoring<'_>,
    route: &mut Route<D>,
    console: &mut Console<O, F>,
) -> Status
    ensures obeyed { RestoreObeyed caller.now restoring.entry.name route.old.retry (D.connections route.old.dial) (D.connections route.new.dial) }
    ensures tells { TellsRestored caller.now restoring.entry.name route.old.retry (D.connections route.old.dial) (D.connections route.new.dial) result (O.contents console.old.output) (O.contents console.new.output) }
    ensures silent { result ≡ Status.Done → console.new.faults ≡ console.old.faults }
    ensures retry { route.new.retry ≡ route.old.retry }
{
    let Restoring { name, folder } = restoring;
    let mut restorer = match Restorer::new(rt, folder) {
        Ok(restorer) => restorer,
        Err(error) => return not_begun(error, &mut console.faults),
    };
    let sink = |emission: &Emission| restorer.write(emission);
    let outcome = match restored_by(rt.alloc(), caller, name, sink, route) {
        Ok(outcome) => outcome,
        Err(error) => {
            let cause = cause_of(error, restorer.refusal());
            return failed(&mut console.faults, &cause);
        }
    };
    let finish = || {
        if restorer.finish() {
            Ok(())
        } else {
            Err(restorer.refusal())
        }
    };
    show_restored(rt.alloc(), &outcome, finish, console)
}
