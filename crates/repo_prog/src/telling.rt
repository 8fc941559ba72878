//! What the commands of clients write, and how they tell why they ended.

ghost use Rattle.std.specs.Prelude.{◌≡◌, ℕ, List, IfOk, option_map, string_bytes};
ghost use Rattle.repo_prog.specs.Commands.{IsEnd};
ghost use Rattle.repo_prog.specs.Tellings.{lock_word, lock_line, lock_lines, snapshot_line, snapshot_lines, stored_line, complete_line, foreseen_line, foreseen_lines, forgotten_line, forgotten_lines, pruned_line, upgraded_line, clean_line, fault_word, fault_line, fault_lines, removed_line, object_line, end_lines, ended_lines, unfinished_lines, unwelcome_line, Shows, TellsWhy, WritesFirst};
ghost use Rattle.repo_prog.specs.declared.status.Status.{Status};

use crate::consoles::Console;
use crate::printing::printed;
use crate::status::{Status, failed};
use repo_name::{LockRow, Name, Thing, Token};
use repo_session::{CheckFault, DriveError, End, FaultKind, Outcome, result_text, thing_word};
use repo_store::write_whole;
use repo_tree::Snapshot;
use repo_wire::Say;
use std::alloc::{AllocError, Global};
use std::io::Write;

/// What a lock is called.
fn lock_word(exclusive: bool) -> &'static str
    ensures { result.now ≡ lock_word exclusive }
{
    if exclusive { "exclusive" } else { "shared" }
}

/// The line of a live lock.
fn lock_line(alloc: Global, row: &LockRow) -> Result<String, AllocError>
    ensures { IfOk result (λ line. string_bytes line ≡ lock_line row.now) }
{
    let (token, time, word) = (row.token.0, row.time, lock_word(row.exclusive));
    let host = printed(alloc, row.host.as_str())?;
    format!(in alloc; "{token} {word} {time} {host}\n")
}

/// The lines of live locks.
pub fn lock_lines(alloc: Global, rows: &[LockRow]) -> Result<String, AllocError>
    ensures { IfOk result (λ lines. string_bytes lines ≡ lock_lines rows.now) }
{
    let mut lines = String::new(alloc);
    for row in rows {
        let line = lock_line(alloc, row)?;
        lines.push_str(line.as_str())?;
    }
    Ok(lines)
}

/// The line of a snapshot.
fn snapshot_line(alloc: Global, row: &(Name, Snapshot)) -> Result<String, AllocError>
    ensures { IfOk result (λ line. string_bytes line ≡ snapshot_line row.now) }
{
    let name = row.0.to_hex(alloc)?;
    let (time, host) = (row.1.time, printed(alloc, row.1.host.as_str())?);
    format!(in alloc; "{name} {time} {host}\n")
}

/// The lines of snapshots.
pub fn snapshot_lines(alloc: Global, rows: &[(Name, Snapshot)]) -> Result<String, AllocError>
    ensures { IfOk result (λ lines. string_bytes lines ≡ snapshot_lines rows.now) }
{
    let mut lines = String::new(alloc);
    for row in rows {
        let line = snapshot_line(alloc, row)?;
        lines.push_str(line.as_str())?;
    }
    Ok(lines)
}

/// The line of a backup that stored a snapshot.
pub fn stored_line(alloc: Global, name: &Name, blobs: u64, bytes: u64) -> Result<String, AllocError>
    ensures { IfOk result (λ line. string_bytes line ≡ stored_line name.now blobs bytes) }
{
    let name = name.to_hex(alloc)?;
    format!(in alloc; "stored {name} {blobs} {bytes}\n")
}

/// The line of a restore that is complete.
pub fn complete_line(alloc: Global, entries: u64) -> Result<String, AllocError>
    ensures { IfOk result (λ line. string_bytes line ≡ complete_line entries) }
{
    format!(in alloc; "complete {entries}\n")
}

/// The line of a snapshot that was forgotten.
fn forgotten_line(alloc: Global, name: &Name) -> Result<String, AllocError>
    ensures { IfOk result (λ line. string_bytes line ≡ forgotten_line name.now) }
{
    let name = name.to_hex(alloc)?;
    format!(in alloc; "forgotten {name}\n")
}

/// The lines of snapshots that were forgotten.
pub fn forgotten_lines(alloc: Global, names: &[Name]) -> Result<String, AllocError>
    ensures { IfOk result (λ lines. string_bytes lines ≡ forgotten_lines names.now) }
{
    let mut lines = String::new(alloc);
    for name in names {
        let line = forgotten_line(alloc, name)?;
        lines.push_str(line.as_str())?;
    }
    Ok(lines)
}

/// The line of a snapshot that would be forgotten.
fn foreseen_line(alloc: Global, name: &Name) -> Result<String, AllocError>
    ensures { IfOk result (λ line. string_bytes line ≡ foreseen_line name.now) }
{
    let name = name.to_hex(alloc)?;
    format!(in alloc; "would forget {name}\n")
}

/// The lines of snapshots that would be forgotten.
pub fn foreseen_lines(alloc: Global, names: &[Name]) -> Result<String, AllocError>
    ensures { IfOk result (λ lines. string_bytes lines ≡ foreseen_lines names.now) }
{
    let mut lines = String::new(alloc);
    for name in names {
        let line = foreseen_line(alloc, name)?;
        lines.push_str(line.as_str())?;
    }
    Ok(lines)
}

/// The line of a prune: so many packs were deleted, and so many bytes of blobs put into new ones.
pub fn pruned_line(alloc: Global, packs: u64, bytes: u64) -> Result<String, AllocError>
    ensures { IfOk result (λ line. string_bytes line ≡ pruned_line packs bytes) }
{
    format!(in alloc; "pruned {packs} {bytes}\n")
}

/// The line of an upgrade.
pub fn upgraded_line(alloc: Global) -> Result<String, AllocError>
    ensures { IfOk result (λ line. string_bytes line ≡ upgraded_line) }
{
    String::from_str(alloc, "upgraded\n")
}

/// The line of a check that found nothing at fault: so many snapshots, indexes and packs, and so many blobs that the
/// snapshots need.
pub fn clean_line(
    alloc: Global,
    snapshots: u64,
    indexes: u64,
    packs: u64,
    blobs: u64,
) -> Result<String, AllocError>
    ensures { IfOk result (λ line. string_bytes line ≡ clean_line snapshots indexes packs blobs) }
{
    format!(in alloc; "clean {snapshots} {indexes} {packs} {blobs}\n")
}

/// The word for how a thing is at fault.
pub fn fault_word(what: FaultKind) -> &'static str
    ensures { result.now ≡ fault_word what }
{
    match what {
        FaultKind::Missing => "missing",
        FaultKind::Name => "name",
        FaultKind::Unreadable => "unreadable",
        FaultKind::Place => "place",
        FaultKind::Unindexed => "unindexed",
    }
}

/// The line of a thing that is at fault.
fn fault_line(alloc: Global, fault: &CheckFault) -> Result<String, AllocError>
    ensures { IfOk result (λ line. string_bytes line ≡ fault_line fault.now) }
{
    let (thing, what) = (thing_word(fault.thing), fault_word(fault.what));
    let name = fault.name.to_hex(alloc)?;
    format!(in alloc; "fault {thing} {name} {what}\n")
}

/// The lines of things that are at fault.
pub fn fault_lines(alloc: Global, faults: &[CheckFault]) -> Result<String, AllocError>
    ensures { IfOk result (λ lines. string_bytes lines ≡ fault_lines faults.now) }
{
    let mut lines = String::new(alloc);
    for fault in faults {
        let line = fault_line(alloc, fault)?;
        lines.push_str(line.as_str())?;
    }
    Ok(lines)
}

/// The line of a lock that was removed.
pub fn removed_line(alloc: Global, token: Token) -> Result<String, AllocError>
    ensures { IfOk result (λ line. string_bytes line ≡ removed_line token) }
{
    let number = token.0;
    format!(in alloc; "removed {number}\n")
}

/// Writes a text on the output.
pub fn show<O: Write, F: Write>(text: &str, console: &mut Console<O, F>) -> Status
    ensures shows { Shows text.now result (O.contents console.old.output) (O.contents console.new.output) }
    ensures silent { result ≡ Status.Done → console.new.faults ≡ console.old.faults }
    ensures status { IsEnd result }
{
    match write_whole(&mut console.output, text.as_bytes()) {
        Ok(()) => Status::Done,
        Err(error) => failed(&mut console.faults, &error),
    }
}

/// Writes lines that were made, or tells that there was no memory for them.
pub fn show_made<O: Write, F: Write>(
    made: Result<String, AllocError>,
    console: &mut Console<O, F>,
) -> Status
    ensures shows { (lines : List ℕ) → IfOk made (λ text. string_bytes text ≡ lines) → Shows lines result (O.contents console.old.output) (O.contents console.new.output) }
    ensures silent { result ≡ Status.Done → console.new.faults ≡ console.old.faults }
    ensures status { IsEnd result }
{
    match made {
        Ok(lines) => show(lines.as_str(), console),
        Err(_) => failed(&mut console.faults, &DriveError::Memory),
    }
}

/// The line that names an object.
fn object_line(alloc: Global, thing: Thing, name: &Name) -> Result<String, AllocError>
    ensures { IfOk result (λ line. string_bytes line ≡ object_line thing name.now) }
{
    let (thing, name) = (thing_word(thing), name.to_hex(alloc)?);
    format!(in alloc; "{thing} {name}\n")
}

/// The line that names the object that is missing or can't be read, if a job ended by one; otherwise nothing.
fn end_lines(alloc: Global, end: End) -> Result<String, AllocError>
    ensures { IfOk result (λ lines. string_bytes lines ≡ end_lines end) }
{
    match end {
        End::Missing(thing, name) => object_line(alloc, thing, &name),
        End::BadObject(thing, name) => object_line(alloc, thing, &name),
        _ => Ok(String::new(alloc)),
    }
}

/// The same of what a job came to.
fn ended_lines(alloc: Global, outcome: Option<&Outcome>) -> Result<String, AllocError>
    ensures { IfOk result (λ lines. string_bytes lines ≡ ended_lines (option_map (λ o. o.now) outcome.entry)) }
{
    match outcome {
        Some(Outcome::Ended(end)) => end_lines(alloc, *end),
        _ => Ok(String::new(alloc)),
    }
}

/// The lines of a job that didn't do what it was for: how it ended, and the object that it ended by, if there is one.
fn unfinished_lines(alloc: Global, outcome: Option<&Outcome>) -> Result<String, AllocError>
    ensures { IfOk result (λ lines. string_bytes lines ≡ unfinished_lines (option_map (λ o. o.now) outcome.entry)) }
{
    let (text, object) = (
        result_text(alloc, outcome, false)?,
        ended_lines(alloc, outcome)?,
    );
    format!(in alloc; "{text}\n{object}")
}

/// The line of a reply that isn't what was asked for.
fn unwelcome_line(alloc: Global, say: &Say) -> Result<String, AllocError>
    ensures { IfOk result (λ line. string_bytes line ≡ unwelcome_line say.now) }
{
    match say {
        Say::Refused(code) => {
            let number = code.number();
            format!(in alloc; "refused {number}\n")
        }
        _ => String::from_str(alloc, "badreply\n"),
    }
}

/// Writes lines on the fault output. What can't be written is lost.
fn tell_lines<F: Write>(lines: &str, faults: &mut F)
    ensures { WritesFirst lines.now (F.contents faults.old) (F.contents faults.new) }
{
    let _ = write_whole(faults, lines.as_bytes());
}

/// Tells why a command failed by lines that were made, or that there was no memory for them.
fn failed_with<F: Write>(made: Result<String, AllocError>, faults: &mut F) -> Status
    ensures status { result ≡ Status.Failed }
    ensures tells { (lines : List ℕ) → IfOk made (λ text. string_bytes text ≡ lines) → TellsWhy lines (F.contents faults.old) (F.contents faults.new) }
{
    match made {
        Ok(lines) => tell_lines(lines.as_str(), faults),
        Err(_) => tell_lines("out of memory\n", faults),
    }
    Status::Failed
}

/// Tells of a reply that isn't what was asked for.
pub fn unwelcome<F: Write>(alloc: Global, say: &Say, faults: &mut F) -> Status
    ensures status { result ≡ Status.Failed }
    ensures tells { TellsWhy (unwelcome_line say.now) (F.contents faults.old) (F.contents faults.new) }
{
    failed_with(unwelcome_line(alloc, say), faults)
}

/// Tells how a job ended that didn't do what it was for. If it ended by an object that is missing or can't be read, a second line
/// names the object.
pub fn unfinished<F: Write>(alloc: Global, outcome: Option<&Outcome>, faults: &mut F) -> Status
    ensures status { result ≡ Status.Failed }
    ensures tells { TellsWhy (unfinished_lines (option_map (λ o. o.now) outcome.entry)) (F.contents faults.old) (F.contents faults.new) }
{
    failed_with(unfinished_lines(alloc, outcome), faults)
}
