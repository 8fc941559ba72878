//! A world whose events happen in two goes: a backup of some entries, and a restore of what it stored; and what the world shows of them.

use crate::clients::stored_name;
use crate::lines::{ScriptError, cut, number};
use crate::stores::config_of;
use crate::told::Told;
use repo_name::{Kind, Name};
use repo_session::result_text;
use repo_store::MemShelf;
use repo_tree::Entry;
use repo_world::{Entries, Event, Host, Job, World};
use std::alloc::Global;

/// The least and the greatest length of a chunk, the low bits of a fingerprint and the bytes of a pack.
const RULE: &str = "64 128 6 1024";

/// A client's start, and the deliveries of so many messages from the first one on.
fn events_of(
    alloc: Global,
    job: Job,
    first: usize,
    count: usize,
) -> Result<Vec<Event<'static>>, ScriptError> {
    let mut events = Vec::new(alloc);
    let Ok(host) = Host::new(alloc, "a") else {
        return Err(ScriptError::Memory);
    };
    events.push(Event::Start {
        job,
        host,
        time: 5,
        old: false,
    })?;
    for place in 0..count {
        events.push(Event::Deliver(first.saturating_add(place)))?;
    }
    Ok(events)
}

/// A client starts, and so many messages are delivered, all of it at once. If there was no memory for one of these events, it happens once
/// more, with those behind it.
fn happen(
    alloc: Global,
    world: &mut World<MemShelf>,
    job: Job,
    first: usize,
    count: usize,
) -> Result<(), ScriptError> {
    let events = events_of(alloc, job, first, count)?;
    let Err(stopped) = world.run(events.as_slice()) else {
        return Ok(());
    };
    let rest = events.as_slice().get(stopped.applied..);
    match world.run(rest.unwrap_or(&[])) {
        Ok(()) => Ok(()),
        Err(_) => Err(ScriptError::Twice),
    }
}

/// How a client's job stands.
fn tell_client(
    alloc: Global,
    world: &World<MemShelf>,
    client: usize,
    told: &mut Told,
) -> Result<(), ScriptError> {
    let text = result_text(alloc, world.outcome(client), false)?;
    told.line(text.as_str())?;
    Ok(())
}

/// The bytes of a snapshot.
fn tell_snapshot(
    world: &mut World<MemShelf>,
    name: &Name,
    told: &mut Told,
) -> Result<(), ScriptError> {
    match world.object(Kind::Snapshot, name) {
        Ok(Some(bytes)) => told.bytes("snapshot", bytes.as_slice())?,
        Ok(None) => told.line("no snapshot")?,
        Err(_) => return Err(ScriptError::Memory),
    }
    Ok(())
}

/// What a client gave out on its first exchanges.
fn tell_given(
    world: &World<MemShelf>,
    client: usize,
    exchanges: usize,
    told: &mut Told,
) -> Result<(), ScriptError> {
    for place in 0..exchanges {
        if let Some(given) = world.emitted(client, place) {
            told.emissions(given)?;
        }
    }
    Ok(())
}

/// A backup that has so many exchanges, and a restore that has so many.
fn play_jobs(
    alloc: Global,
    world: &mut World<MemShelf>,
    entries: Vec<Entry>,
    (backup, restore): (usize, usize),
    told: &mut Told,
) -> Result<(), ScriptError> {
    let messages = backup.saturating_mul(2);
    happen(alloc, world, Job::Backup(Entries::of(entries)), 0, messages)?;
    tell_client(alloc, world, 0, told)?;
    let Some(name) = stored_name(world.outcome(0)) else {
        return Ok(());
    };
    tell_snapshot(world, &name, told)?;
    happen(
        alloc,
        world,
        Job::Restore(name),
        messages,
        restore.saturating_mul(2),
    )?;
    tell_client(alloc, world, 1, told)?;
    tell_given(world, 1, restore, told)
}

/// The same in a world that is no more then. A world is dear to drop: it is done here alone, with nothing else alive.
fn spent(
    alloc: Global,
    mut world: World<MemShelf>,
    entries: Vec<Entry>,
    exchanges: (usize, usize),
    told: &mut Told,
) -> Result<(), ScriptError> {
    play_jobs(alloc, &mut world, entries, exchanges, told)
}

/// Has a backup of some entries, and a restore of what it stored, happen in a world of its own: by two numbers, how many exchanges each
/// of them has.
pub fn run_world(
    alloc: Global,
    words: &str,
    entries: Vec<Entry>,
    told: &mut Told,
) -> Result<(), ScriptError> {
    let (backup, restore) = cut(words);
    let exchanges = (number(backup)? as usize, number(restore)? as usize);
    let config = config_of(RULE)?;
    match World::in_memory(alloc, &config) {
        Ok(world) => spent(alloc, world, entries, exchanges, told),
        Err(_) => Err(ScriptError::Memory),
    }
}
