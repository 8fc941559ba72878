//! What clients start for.

ghost use Rattle.std.specs.Prelude.{◌≡◌, map};
ghost use Rattle.repo_script.specs.Lines.{two, host, start_with, start_of, old_start_of, GivesLine};
ghost use Rattle.repo_script.specs.Numbers.{number};

use crate::arguments::{clients_of, host_of, one_index, policy_of, two_words};
use crate::faults::LineError;
use crate::lines::Start;
use crate::numbers::number;
use crate::tables::purpose_of;
use crate::verbs::Purpose;
use repo_name::Text;
use std::alloc::Global;

/// A host and a time.
fn host_and_time(alloc: Global, left: &[&str]) -> Result<(Text, u64), LineError>
    ensures { GivesLine (two host (number 64) (map (λ w. w.now) left.now)) result }
{
    let Some((host, time)) = two_words(left) else {
        return Err(LineError::NotUnderstood);
    };
    let Some(time) = number(time) else {
        return Err(LineError::NotUnderstood);
    };
    Ok((host_of(alloc, host)?, time))
}

/// The start of a backup, by its host and time.
fn backup_start(alloc: Global, left: &[&str]) -> Result<Start, LineError>
    ensures { GivesLine (start_with Purpose.Backup (map (λ w. w.now) left.now)) result }
{
    let (host, time) = host_and_time(alloc, left)?;
    Ok(Start::Backup { host, time })
}

/// The start of a backup that is fed, by its host and time.
fn pieces_start(alloc: Global, left: &[&str]) -> Result<Start, LineError>
    ensures { GivesLine (start_with Purpose.Pieces (map (λ w. w.now) left.now)) result }
{
    let (host, time) = host_and_time(alloc, left)?;
    Ok(Start::Pieces { host, time })
}

/// The start of a client that is for this.
fn start_with(alloc: Global, purpose: Purpose, left: &[&str]) -> Result<Start, LineError>
    ensures { GivesLine (start_with purpose (map (λ w. w.now) left.now)) result }
{
    let start = match purpose {
        Purpose::Backup => return backup_start(alloc, left),
        Purpose::Pieces => return pieces_start(alloc, left),
        Purpose::Forget => return Ok(Start::Forget(clients_of(alloc, left)?)),
        Purpose::Restore => one_index(left).map(|client| Start::Restore(client)),
        Purpose::Keep => policy_of(left).map(|policy| Start::Keep(policy)),
        Purpose::List if left.is_empty() => Some(Start::List),
        Purpose::Prune if left.is_empty() => Some(Start::Prune),
        Purpose::Check if left.is_empty() => Some(Start::Check),
        Purpose::Upgrade if left.is_empty() => Some(Start::Upgrade),
        _ => None,
    };
    start.ok_or(LineError::NotUnderstood)
}

/// The start that some words are.
pub fn start_of(alloc: Global, words: &[&str]) -> Result<Start, LineError>
    ensures { GivesLine (start_of (map (λ w. w.now) words.now)) result }
{
    let [word, left @ ..] = words else {
        return Err(LineError::NotUnderstood);
    };
    let Some(purpose) = purpose_of(*word) else {
        return Err(LineError::NotUnderstood);
    };
    start_with(alloc, purpose, left)
}

/// The start of an old client that some words are, behind the one that says that it is old.
pub fn old_start_of(alloc: Global, words: &[&str]) -> Result<Start, LineError>
    ensures { GivesLine (old_start_of (map (λ w. w.now) words.now)) result }
{
    let [word, left @ ..] = words else {
        return Err(LineError::NotUnderstood);
    };
    if *word != "start" {
        return Err(LineError::NotUnderstood);
    }
    start_of(alloc, left)
}
