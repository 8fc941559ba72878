//! Replies that are handed to a client one after another, whatever they say.

ghost use Rattle.std.specs.Prelude.{◌≡◌, List, Some, take, OnOk, IfErr};
ghost use Rattle.repo_session.specs.Talks.{Talk, TookEach, WantsMemory};
ghost use Rattle.repo_session.specs.Traces.{Trace};
ghost use Rattle.repo_session.specs.declared.outcomes.Outcome.{Outcome};

use crate::clients::Client;
use repo_wire::Reply;
use thiserror::Error;

/// There was no memory for a reply.
#[derive(Clone, Copy, Debug, PartialEq, Eq, Error)]
#[error("out of memory")]
pub struct Untaken {
    /// How many replies before it were taken or passed over.
    pub before: usize,
}

/// Has a client take these replies, one after another, whatever they say. Those that aren't to the request that is pending
/// change nothing, and so do those that come when nothing is pending. What the client gave out on a reply before the last
/// stands in its exchanges alone.
///
/// It fails for memory alone, at a reply to the request that is pending. Those before it were taken or passed over then, and
/// it may be taken again, with those behind it.
pub fn take_each<C: Client>(client: &mut C, replies: &[Reply]) -> Result<(), Untaken>
    ensures all { OnOk result ((talk : Talk) × TookEach (C.who (C.job client.old)).instance C.fits C.next client.old replies.now talk client.new) }
    ensures part { IfErr result (λ untaken. ((talk : Talk) × TookEach (C.who (C.job client.old)).instance C.fits C.next client.old (take untaken.before replies.now) talk client.new)
        × WantsMemory (C.rule (C.job client.old)).calm (C.next client.new) replies.now untaken.before) }
    ensures stays { (es : Trace) (outcome : Outcome) → C.fits client.old es → C.ended client.old ≡ Some outcome → C.ended client.new ≡ Some outcome }
    ensures job { C.job client.new ≡ C.job client.old }
{
    for before in 0..replies.len() {
        let Some(_) = client.pending() else {
            return Ok(());
        };
        if client.take(&replies[before]).is_err() {
            return Err(Untaken { before });
        }
    }
    Ok(())
}
