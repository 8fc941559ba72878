//! Copies of events.

ghost use Rattle.std.specs.Prelude.{◌≡◌, IfOk, IsOk};
ghost use Rattle.repo_world.specs.Calmness.{IsLight};

use crate::events::Event;
use crate::jobs::{Entries, Job};
use repo_prune::Choice;
use repo_tree::{Entry, EntryKind};
use std::alloc::{AllocError, Global};

/// An equal one of what stands at a path. It fails for memory alone.
fn copy_of_kind(what: &EntryKind) -> Result<EntryKind, AllocError>
    ensures { IfOk result (λ copy. copy ≡ what.now) }
{
    match what {
        EntryKind::Dir => Ok(EntryKind::Dir),
        EntryKind::File(bytes) => Ok(EntryKind::File(bytes.clone()?)),
    }
}

/// An equal entry. It fails for memory alone.
fn copy_of_entry(entry: &Entry) -> Result<Entry, AllocError>
    ensures { IfOk result (λ copy. copy ≡ entry.now) }
{
    Ok(Entry {
        path: entry.path.clone()?,
        what: copy_of_kind(&entry.what)?,
    })
}

/// Equal entries. It fails for memory alone.
fn copy_of_entries(alloc: Global, entries: &Entries) -> Result<Entries, AllocError>
    ensures { IfOk result (λ copy. copy ≡ entries.now) }
{
    let mut copies = Vec::new(alloc);
    for entry in entries.as_slice() {
        copies.push(copy_of_entry(entry)?)?;
    }
    Ok(Entries::of(copies))
}

/// An equal choice. It fails for memory alone.
fn copy_of_choice(choice: &Choice) -> Result<Choice, AllocError>
    ensures { IfOk result (λ copy. copy ≡ choice.now) }
{
    match choice {
        Choice::Names(names) => Ok(Choice::Names(names.clone()?)),
        Choice::Keep(policy) => Ok(Choice::Keep(*policy)),
        Choice::KeepOf { host, policy } => Ok(Choice::KeepOf {
            host: host.clone()?,
            policy: *policy,
        }),
    }
}

/// An equal job. It fails for memory alone.
fn copy_of_job(alloc: Global, job: &Job) -> Result<Job, AllocError>
    ensures { IfOk result (λ copy. copy ≡ job.now) }
{
    match job {
        Job::Backup(entries) => Ok(Job::Backup(copy_of_entries(alloc, entries)?)),
        Job::Pieces => Ok(Job::Pieces),
        Job::Restore(name) => Ok(Job::Restore(*name)),
        Job::List => Ok(Job::List),
        Job::Forget(choice) => Ok(Job::Forget(copy_of_choice(choice)?)),
        Job::Prune => Ok(Job::Prune),
        Job::Check => Ok(Job::Check),
        Job::Upgrade => Ok(Job::Upgrade),
    }
}

/// An equal event. It fails for memory alone, and takes some for a start, or for what is asked, alone.
pub fn copy_of_event<'a>(alloc: Global, event: &Event<'a>) -> Result<Event<'a>, AllocError>
    ensures copy { IfOk result (λ copy. copy ≡ event.now) }
    ensures light { IsLight event.now → IsOk result }
{
    match event {
        Event::Start {
            job,
            host,
            time,
            old,
        } => Ok(Event::Start {
            job: copy_of_job(alloc, job)?,
            host: host.copy()?,
            time: *time,
            old: *old,
        }),
        Event::Deliver(message) => Ok(Event::Deliver(*message)),
        Event::Fault { message, fail } => Ok(Event::Fault {
            message: *message,
            fail: *fail,
        }),
        Event::Ask(request) => Ok(Event::Ask(request.copy()?)),
        Event::Feed { client, item } => Ok(Event::Feed {
            client: *client,
            item: *item,
        }),
        Event::Crash(client) => Ok(Event::Crash(*client)),
        Event::Restart => Ok(Event::Restart),
    }
}
