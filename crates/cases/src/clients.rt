//! Clients of a store in memory: one job each, from its first request to its end.

use crate::lines::ScriptError;
use repo_name::{Instance, Name};
use repo_session::{Client, Emission, Outcome, Who, lockstep, result_text};
use repo_store::MemShelf;
use repo_world::{AnyClient, Job, NotBegun};
use std::alloc::Global;

/// A client of this identity for a job.
fn begun(alloc: Global, who: Who, job: Job) -> Result<AnyClient, ScriptError> {
    match AnyClient::new(alloc, who, job) {
        Ok(client) => Ok(client),
        Err(NotBegun::Refused(_)) => Err(ScriptError::Stopped),
        Err(NotBegun::Memory) => Err(ScriptError::Memory),
    }
}

/// A client for a job.
fn client_for(alloc: Global, job: Job) -> Result<AnyClient, ScriptError> {
    match Who::new(alloc, Instance([1; 16]), "bench", 0) {
        Ok(who) => begun(alloc, who, job),
        Err(_) => Err(ScriptError::Memory),
    }
}

/// How a job ended, and what it gave out.
#[derive(Drop)]
pub struct JobEnd {
    /// The words for how it ended.
    pub text: String,
    /// The snapshot that it stored.
    pub stored: Option<Name>,
    pub given: Vec<Emission>,
}

/// The snapshot that a job stored.
pub fn stored_name(outcome: Option<&Outcome>) -> Option<Name> {
    match outcome {
        Some(Outcome::Stored { name, .. }) => Some(*name),
        _ => None,
    }
}

/// Brings a client to its end. If there was no memory for a reply, the reply to the same request is taken once more.
fn ended<C: Client>(
    alloc: Global,
    client: &mut C,
    shelf: &mut MemShelf,
) -> Result<JobEnd, ScriptError> {
    let mut given = Vec::new(alloc);
    let mut ran = lockstep(alloc, client, shelf, &mut given);
    if ran.is_err() {
        // What was given out last may be lost: so only a client that gave nothing out goes on.
        if !client.emitted().is_empty() {
            return Err(ScriptError::Memory);
        }
        ran = lockstep(alloc, client, shelf, &mut given);
    }
    if ran.is_err() {
        return Err(ScriptError::Twice);
    }
    Ok(JobEnd {
        text: result_text(alloc, client.outcome(), false)?,
        stored: stored_name(client.outcome()),
        given,
    })
}

/// The same of a client that is no more then. One of all sorts is dear to drop, for the prover goes through each sort: so this is said of
/// any client.
fn spent<C: Client + Drop>(
    alloc: Global,
    mut client: C,
    shelf: &mut MemShelf,
) -> Result<JobEnd, ScriptError> {
    ended(alloc, &mut client, shelf)
}

/// Does a job at a shelf.
pub fn do_job(alloc: Global, job: Job, shelf: &mut MemShelf) -> Result<JobEnd, ScriptError> {
    match client_for(alloc, job) {
        Ok(client) => spent(alloc, client, shelf),
        Err(error) => Err(error),
    }
}
