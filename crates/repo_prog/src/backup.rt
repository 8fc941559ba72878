//! `vault backup`.

ghost use Rattle.std.specs.Prelude.{◌≡◌, ◌≢◌, [], List, option_map};
ghost use Rattle.repo_name.specs.Rows.{IsHost};
ghost use Rattle.repo_feeding.specs.FedStates.{ended_of};
ghost use Rattle.repo_files.specs.declared.walk_ends.Skipped.{Skipped};
ghost use Rattle.repo_feeding.specs.Sources.{IsFresh, whole_of};
ghost use Rattle.repo_prog.specs.declared.status.Status.{Status};
ghost use Rattle.repo_prog.specs.Shown.{HasStoredFrom, ShowsStored, TellsStored, unflawed};
ghost use Rattle.repo_prog.specs.Errands.{BacksUp};
ghost use Rattle.repo_prog.specs.Jobs.{BackupObeyed};

use crate::callers::Caller;
use crate::consoles::Console;
use crate::printing::printed;
use crate::routes::Route;
use crate::status::{Status, failed, flawed, tell};
use crate::telling::{show_made, stored_line, unfinished};
use repo_backup::FeedError;
use repo_dial::{Dial, TryError, drive_again};
use repo_feeding::{FedBackup, GivenUp, Source};
use repo_files::{FolderWalk, Skipped, WalkError};
use repo_session::{Client, DriveError, Outcome};
use std::alloc::{AllocGlobal, Global};
use std::fs::Files;
use std::io::Write;

/// A source of a backup that leaves some things out.
pub trait LeavesOut {
    /// What it left out so far.
    ghost skipped: { Self → List Skipped };

    /// What it left out so far.
    fn left_out(&self) -> &[Skipped]
        ensures { result.now ≡ skipped self.now };
}

impl<R: Files + AllocGlobal + Clone + Drop> LeavesOut for FolderWalk<'_, R> {
    ghost skipped = { λ walk. walk.skipped.items };

    fn left_out(&self) -> &[Skipped] {
        self.skipped()
    }
}

/// Tells what is the matter with a path, as it is printed.
fn tell_path<F: Write>(alloc: Global, matter: &str, path: &str, faults: &mut F) {
    match printed(alloc, path) {
        Ok(path) => tell(faults, &format_args!("{matter} {path}")),
        Err(_) => tell(faults, &DriveError::Memory),
    }
}

/// Tells what a source left out, a line each.
fn tell_skipped<F: Write>(alloc: Global, skipped: &[Skipped], faults: &mut F) {
    for left in skipped {
        match left {
            Skipped::Other(path) => tell_path(alloc, "skipped", path.as_str(), faults),
            Skipped::Unnamed(folder) => {
                tell_path(alloc, "skipped an entry in", folder.as_str(), faults);
            }
        }
    }
}

/// Tells why a folder can't be read.
fn not_walked<F: Write>(alloc: Global, error: &WalkError, faults: &mut F) -> Status
    ensures { result ≡ Status.Failed }
{
    match error {
        WalkError::Unreadable(path) => tell_path(alloc, "unreadable", path.as_str(), faults),
        WalkError::Memory => tell(faults, &DriveError::Memory),
    }
    Status::Failed
}

/// Tells why what was found isn't backed up.
fn not_taken<F: Write>(error: FeedError, faults: &mut F) -> Status
    ensures { result ≡ Status.Failed }
{
    match error {
        FeedError::BadPath => failed(faults, &"start refused 1"),
        FeedError::Order => failed(faults, &"start refused 2"),
        FeedError::TooDeep => failed(faults, &"start refused 3"),
        FeedError::TooLarge => failed(faults, &"start refused 4"),
        FeedError::Memory => failed(faults, &DriveError::Memory),
        FeedError::NotWanted => failed(faults, &"start refused 6"),
    }
}

/// Tells why a backup was given up.
fn gave_up<F: Write>(alloc: Global, reason: &GivenUp<WalkError>, faults: &mut F) -> Status
    ensures { result ≡ Status.Failed }
{
    match reason {
        GivenUp::Source(error) => not_walked(alloc, error, faults),
        GivenUp::Refused(error) => not_taken(*error, faults),
        GivenUp::Endless => failed(faults, &DriveError::Limit),
    }
}

/// Writes the line of a snapshot that was stored, or tells how else the job ended.
fn show_stored<O: Write, F: Write>(
    alloc: Global,
    outcome: Option<&Outcome>,
    console: &mut Console<O, F>,
) -> Status
    ensures shows { ShowsStored (option_map (λ o. o.now) outcome.entry) result (O.contents console.old.output) (O.contents console.new.output) }
    ensures silent { result ≡ Status.Done → console.new.faults ≡ console.old.faults }
{
    let Some(Outcome::Stored { name, blobs, bytes }) = outcome else {
        return unfinished(alloc, outcome, &mut console.faults);
    };
    show_made(stored_line(alloc, name, *blobs, *bytes), console)
}

/// Tells what was left out, and then what was stored, or how else the job ended. Where something was left out the status of
/// a backup that is done is `Flawed`.
fn show_with<O: Write, F: Write>(
    alloc: Global,
    left_out: &[Skipped],
    outcome: Option<&Outcome>,
    console: &mut Console<O, F>,
) -> Status
    ensures shows { ShowsStored (option_map (λ o. o.now) outcome.entry) (unflawed result) (O.contents console.old.output) (O.contents console.new.output) }
    ensures whole { result ≡ Status.Done → left_out.now ≡ [] }
    ensures flawed { result ≡ Status.Flawed → left_out.now ≢ [] }
    ensures silent { result ≡ Status.Done → console.new.faults ≡ console.old.faults }
    ensures status { result ≢ Status.Usage }
{
    if left_out.is_empty() {
        return show_stored(alloc, outcome, console);
    }
    tell_skipped(alloc, left_out, &mut console.faults);
    let status = show_stored(alloc, outcome, console);
    flawed(status)
}

/// Tells how a backup ended: why it was given up, if it was; else what its source left out, and what it stored.
fn show_ended<S: Source<Error = WalkError> + LeavesOut + Drop, O: Write, F: Write>(
    alloc: Global,
    backup: &FedBackup<S>,
    console: &mut Console<O, F>,
) -> Status
    ensures shows { ShowsStored (ended_of backup.now.backup backup.now.awaited) (unflawed result) (O.contents console.old.output) (O.contents console.new.output) }
    ensures whole { result ≡ Status.Done → S.skipped backup.now.source ≡ [] }
    ensures flawed { result ≡ Status.Flawed → S.skipped backup.now.source ≢ [] }
    ensures silent { result ≡ Status.Done → console.new.faults ≡ console.old.faults }
    ensures status { result ≢ Status.Usage }
{
    if let Some(reason) = backup.given_up() {
        return gave_up(alloc, reason, &mut console.faults);
    }
    let left_out = backup.source().left_out();
    show_with(alloc, left_out, backup.outcome(), console)
}

/// Tells why a backup was given up, if it was, and then why it wasn't brought to its end.
fn show_broken<S: Source<Error = WalkError> + LeavesOut + Drop, F: Write>(
    alloc: Global,
    backup: &FedBackup<S>,
    error: &TryError,
    faults: &mut F,
) -> Status
    ensures { result ≡ Status.Failed }
{
    if let Some(reason) = backup.given_up() {
        gave_up(alloc, reason, faults);
    }
    failed(faults, error)
}

/// What is backed up, and under the name of which machine.
#[derive(Drop)]
pub struct Origin<'a, S> {
    /// 1 to 255 bytes.
    pub host: &'a str,
    /// A source, or the path of a folder.
    pub source: S,
}

/// Backs up what a source gives that gave nothing so far, under the name of a machine. Where the source fails, or an item of
/// it may not be backed up, the backup is given up, and that is told. After the first connection `route.retry` more are made
/// at most. The status is `Done` where the source had left nothing out in the end, and else `Flawed`, if a snapshot was stored.
pub fn backup_from<S: Source<Error = WalkError> + LeavesOut + Drop, D: Dial, O: Write, F: Write>(
    alloc: Global,
    caller: &Caller,
    origin: Origin<'_, S>,
    route: &mut Route<D>,
    console: &mut Console<O, F>,
) -> Status
    requires host { IsHost origin.host.now }
    requires fresh { IsFresh (S.told origin.source) (S.failed origin.source) }
    ensures obeyed { BackupObeyed caller.now origin.entry.host.now (whole_of (S.told origin.entry.source)) route.old.retry (D.connections route.old.dial) (D.connections route.new.dial) }
    ensures whole { result ≡ Status.Done → (left : S) × HasStoredFrom (S.told left) (S.failed left) S.rewinds × (S.skipped left ≡ []) }
    ensures flawed { result ≡ Status.Flawed → (left : S) × HasStoredFrom (S.told left) (S.failed left) S.rewinds × (S.skipped left ≢ []) }
    ensures tells { TellsStored caller.now origin.entry.host.now (whole_of (S.told origin.entry.source)) route.old.retry (D.connections route.old.dial) (D.connections route.new.dial) (unflawed result) (O.contents console.old.output) (O.contents console.new.output) }
    ensures silent { result ≡ Status.Done → console.new.faults ≡ console.old.faults }
    ensures status { result ≢ Status.Usage }
    ensures retry { route.new.retry ≡ route.old.retry }
{
    let Origin { host, source } = origin;
    let Ok(who) = caller.who(alloc, host) else {
        return failed(&mut console.faults, &DriveError::Memory);
    };
    let Ok(mut backup) = FedBackup::new(alloc, who, source) else {
        return failed(&mut console.faults, &DriveError::Memory);
    };
    match drive_again(
        alloc,
        &mut backup,
        &mut route.dial,
        route.retry,
        &mut |_| true,
    ) {
        Ok(_) => show_ended(alloc, &backup, console),
        Err(error) => show_broken(alloc, &backup, &error, &mut console.faults),
    }
}

/// `vault backup`: stores what a folder holds. Of a folder that can't be listed nothing is sent. A file or a folder below it
/// that can't be read is told as `unreadable` with its path, and the backup is given up. After the first connection
/// `route.retry` more are made at most.
///
/// That what is stored is what the folder holds is no clause, since no contract sees a file.
pub fn backup_command<T: Files + AllocGlobal + Clone + Drop, D: Dial, O: Write, F: Write>(
    rt: &T,
    caller: &Caller,
    origin: Origin<'_, &str>,
    route: &mut Route<D>,
    console: &mut Console<O, F>,
) -> Status
    requires { IsHost origin.host.now }
    ensures gives { BacksUp caller.now origin.entry.host.now route.old.retry (D.connections route.old.dial) (D.connections route.new.dial) (O.contents console.old.output) result (O.contents console.new.output) }
    ensures silent { result ≡ Status.Done → console.new.faults ≡ console.old.faults }
    ensures status { result ≢ Status.Usage }
    ensures retry { route.new.retry ≡ route.old.retry }
{
    let alloc = rt.alloc();
    let Origin { host, source } = origin;
    match FolderWalk::new(rt, source) {
        Ok(source) => backup_from(alloc, caller, Origin { host, source }, route, console),
        Err(error) => not_walked(alloc, &error, &mut console.faults),
    }
}
