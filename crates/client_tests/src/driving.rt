//! A prune that is driven over replies that are there beforehand, and a request that is carried by itself.

use repo_name::{Instance, Token};
use repo_prune::Prune;
use repo_restore::SnapshotList;
use repo_session::{
    Client, Connection, DriveError, Outcome, Session, Who, ask, drive, drive_on, result_text,
    take_each,
};
use repo_wire::{Ask, Code, Reply, Request, Say};
use std::alloc::{AllocError, Global};
use std::io;

const INSTANCE: Instance = Instance([1; 16]);

/// The reply to a ticket that is the first request: token 1.
const TOKEN: &str = "00000021810101010101010101010101010101010100000000000000010000000000000001";

/// A reply to a ninth request, which nobody asked.
const NINTH: &str = "0000001982010101010101010101010101010101010000000000000009";

/// The reply to the second request: another lock is in the way.
const BUSY: &str = "0000001a8601010101010101010101010101010101000000000000000203";

/// The frame of a ticket that is the first request.
const TICKET: &str = "0000001901010101010101010101010101010101010000000000000001";

/// Of a prune that ended, how many requests were answered, its end, and what it wrote: the ticket, and the exclusive lock of host `a`
/// since time 5.
const PRUNED: &str =
    "2 busy 00000019010101010101010101010101010101010100000000000000010000002c0201010101010101010101010101010101000000000000000200000000000000010100000000000000050161";

/// The same of a list of snapshots, whose lock is a shared one.
const LISTED: &str =
    "2 busy 00000019010101010101010101010101010101010100000000000000010000002c0201010101010101010101010101010101000000000000000200000000000000010000000000000000050161";

/// The same of a prune whose replies end before the second is whole.
const CUT_OFF: &str =
    "read failed running 00000019010101010101010101010101010101010100000000000000010000002c0201010101010101010101010101010101000000000000000200000000000000010100000000000000050161";

/// A prune of host `a` at time 5.
fn prune(alloc: Global) -> Option<Session<Prune>> {
    let who = Who::new(alloc, INSTANCE, "a", 5).ok()?;
    Some(Prune::new(alloc, who))
}

/// How many requests were answered, or why not more; how the client ended; and what was written, in hexadecimal.
fn shown(
    alloc: Global,
    driven: Result<u64, DriveError>,
    outcome: Option<&Outcome>,
    written: &[u8],
) -> Result<String, AllocError> {
    let outcome = result_text(alloc, outcome, false)?;
    let written = hex::encode(alloc, written)?;
    match driven {
        Ok(answered) => format!(in alloc; "{answered} {outcome} {written}"),
        Err(error) => format!(in alloc; "{error} {outcome} {written}"),
    }
}

/// The bytes of some frames.
fn bytes_of(alloc: Global, frames: &[&str]) -> Option<Vec<u8>> {
    let mut digits = String::new(alloc);
    for frame in frames {
        digits.push_str(frame).ok()?;
    }
    hex::decode(alloc, digits.as_str()).ok()
}

/// What driving a prune over these replies gives.
fn driven(alloc: Global, replies: &[&str]) -> Option<String> {
    let replies = bytes_of(alloc, replies)?;
    let (mut reader, mut written) = (replies.as_slice(), Vec::new(alloc));
    let mut prune = prune(alloc)?;
    let answered = drive(alloc, &mut prune, &mut reader, &mut written, &mut |_| true);
    shown(alloc, answered, prune.outcome(), written.as_slice()).ok()
}

/// The same of a list of snapshots.
fn listed(alloc: Global, replies: &[&str]) -> Option<String> {
    let replies = bytes_of(alloc, replies)?;
    let (mut reader, mut written) = (replies.as_slice(), Vec::new(alloc));
    let who = Who::new(alloc, INSTANCE, "a", 5).ok()?;
    let mut list = SnapshotList::new(alloc, who);
    let answered = drive(alloc, &mut list, &mut reader, &mut written, &mut |_| true);
    shown(alloc, answered, list.outcome(), written.as_slice()).ok()
}

/// The same of a prune, over a connection on which somebody else's ticket was asked for before.
fn driven_on(alloc: Global, replies: &[&str]) -> Option<String> {
    let replies = bytes_of(alloc, replies)?;
    let (mut reader, mut written) = (replies.as_slice(), Vec::new(alloc));
    let mut connection = Connection::new(alloc).ok()?;
    let ticket = ticket();
    if !ticket.fits() {
        return None;
    }
    let came = connection.ask(&ticket, &mut reader, &mut io::sink()).ok()?;
    if came != reply(1, Say::Token(Token(1))) {
        return None;
    }
    let mut prune = prune(alloc)?;
    let answered = drive_on(
        &mut prune,
        &mut connection,
        &mut reader,
        &mut written,
        &mut |_| true,
    );
    shown(alloc, answered, prune.outcome(), written.as_slice()).ok()
}

/// A ticket that is the first request.
fn ticket() -> Request {
    Request {
        instance: INSTANCE,
        sequence: 1,
        ask: Ask::Ticket,
    }
}

/// A reply to the request of this number.
fn reply(sequence: u64, say: Say) -> Reply {
    Reply {
        instance: INSTANCE,
        sequence,
        say,
    }
}

/// How a prune stands that took a token, a reply that nobody asked for, and that another lock is in the way.
fn taken(alloc: Global) -> Option<String> {
    let replies = [
        reply(1, Say::Token(Token(1))),
        reply(9, Say::Done),
        reply(2, Say::Refused(Code::Busy)),
        reply(3, Say::Done),
    ];
    let mut prune = prune(alloc)?;
    take_each(&mut prune, &replies).ok()?;
    result_text(alloc, prune.outcome(), false).ok()
}

/// Whether the token of a ticket came, and the ticket was written.
fn is_asked(alloc: Global) -> Option<bool> {
    let replies = bytes_of(alloc, &[NINTH, TOKEN])?;
    let (mut reader, mut written) = (replies.as_slice(), Vec::new(alloc));
    let ticket = ticket();
    if !ticket.fits() {
        return None;
    }
    let came = ask(alloc, &mut reader, &mut written, &ticket).ok()?;
    let asked = bytes_of(alloc, &[TICKET])?;
    Some(came == reply(1, Say::Token(Token(1))) && written == asked)
}

/// Whether this text came.
fn is_text(came: Option<String>, wanted: &str) -> bool {
    match came {
        Some(text) => text.as_str() == wanted,
        None => false,
    }
}

#[test]
fn a_prune_is_driven_to_its_end(rt: HostRuntime) {
    let came = driven(rt.alloc(), &[TOKEN, NINTH, BUSY]);
    assert!(rt; is_text(came, PRUNED));
}

#[test]
fn a_list_is_driven_to_its_end(rt: HostRuntime) {
    let came = listed(rt.alloc(), &[TOKEN, NINTH, BUSY]);
    assert!(rt; is_text(came, LISTED));
}

#[test]
fn a_prune_is_driven_on_over_a_connection(rt: HostRuntime) {
    let came = driven_on(rt.alloc(), &[TOKEN, TOKEN, NINTH, BUSY]);
    assert!(rt; is_text(came, PRUNED));
}

// The reply to the lock is cut off.
#[test]
fn a_prune_is_driven_until_its_replies_end(rt: HostRuntime) {
    let came = driven(rt.alloc(), &[TOKEN, "0000001a86"]);
    assert!(rt; is_text(came, CUT_OFF));
}

#[test]
fn replies_are_taken_one_after_another(rt: HostRuntime) {
    assert!(rt; is_text(taken(rt.alloc()), "busy"));
}

#[test]
fn a_request_is_carried_by_itself(rt: HostRuntime) {
    assert_eq!(rt; is_asked(rt.alloc()), Some(true));
}
