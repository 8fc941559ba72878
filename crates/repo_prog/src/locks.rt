//! `vault locks`, `vault refresh` and `vault unlock`.

ghost use Rattle.std.specs.Prelude.{◌≡◌, ◌<◌, ◌+◌, ◌^◌, length, IfOk};
ghost use Rattle.repo_wire.specs.declared.messages.Ask.{Ask};
ghost use Rattle.repo_wire.specs.Messages.{IsAsk, IsShortAsk};
ghost use Rattle.repo_locks.specs.TokenMachine.{tokens_of};
ghost use Rattle.repo_prog.specs.Asking.{streams, request_of, chosen, Asked, Removes, RemovesLocks};
ghost use Rattle.repo_prog.specs.Commands.{IsEnd};
ghost use Rattle.repo_prog.specs.Tellings.{locks_told, refresh_told, removal_told, TellsIfThere};
ghost use Rattle.repo_prog.specs.declared.status.Status.{Status};

use crate::callers::Caller;
use crate::consoles::Console;
use crate::status::{Status, failed};
use crate::telling::{lock_lines, removed_line, show, show_made, unwelcome};
use repo_dial::{KnownChannel, ask_once};
use repo_locks::stale;
use repo_name::{LockRow, Token};
use repo_session::DriveError;
use repo_wire::{Ask, Say};
use std::alloc::{AllocError, Global};
use std::io::Write;

/// Writes the live locks of a reply, or tells of a reply that has none.
fn show_locks<O: Write, F: Write>(alloc: Global, say: &Say, console: &mut Console<O, F>) -> Status
    ensures tells { TellsIfThere (locks_told say.now) result (O.contents console.old.output) (O.contents console.new.output) }
    ensures silent { result ≡ Status.Done → console.new.faults ≡ console.old.faults }
    ensures status { IsEnd result }
{
    let Say::LockList(rows) = say else {
        return unwelcome(alloc, say, &mut console.faults);
    };
    show_made(lock_lines(alloc, rows.as_slice()), console)
}

/// `vault locks`: lists the live locks, a line each.
pub fn locks_command<E: KnownChannel, O: Write, F: Write>(
    alloc: Global,
    caller: &Caller,
    channel: &mut E,
    console: &mut Console<O, F>,
) -> Status
    ensures asked { Asked (request_of caller.now 1 Ask.Locks) locks_told (streams (E.ends channel.old) (O.contents console.old.output))
        result (streams (E.ends channel.new) (O.contents console.new.output)) }
    ensures silent { result ≡ Status.Done → console.new.faults ≡ console.old.faults }
    ensures status { IsEnd result }
{
    match ask_once(alloc, channel, &caller.request(1, Ask::Locks)) {
        Ok(reply) => show_locks(alloc, &reply.say, console),
        Err(error) => failed(&mut console.faults, &error),
    }
}

/// Tells that a lock has a new time, or of a reply that says something else.
fn show_refresh<O: Write, F: Write>(alloc: Global, say: &Say, console: &mut Console<O, F>) -> Status
    ensures tells { TellsIfThere (refresh_told say.now) result (O.contents console.old.output) (O.contents console.new.output) }
    ensures silent { result ≡ Status.Done → console.new.faults ≡ console.old.faults }
    ensures status { IsEnd result }
{
    match say {
        Say::Done => show("refreshed\n", console),
        _ => unwelcome(alloc, say, &mut console.faults),
    }
}

/// What asks for a later time of a token's lock.
fn refresh_of(token: Token, time: u64) -> Ask
    ensures value { result ≡ Ask.Refresh token time }
    ensures within { IsAsk result × IsShortAsk result }
{
    Ask::Refresh { token, time }
}

/// `vault refresh`: gives a token's live lock this moment as its time.
pub fn refresh_command<E: KnownChannel, O: Write, F: Write>(
    alloc: Global,
    caller: &Caller,
    token: Token,
    channel: &mut E,
    console: &mut Console<O, F>,
) -> Status
    ensures asked { Asked (request_of caller.now 1 (Ask.Refresh token caller.now.time)) refresh_told
        (streams (E.ends channel.old) (O.contents console.old.output))
        result (streams (E.ends channel.new) (O.contents console.new.output)) }
    ensures silent { result ≡ Status.Done → console.new.faults ≡ console.old.faults }
    ensures status { IsEnd result }
{
    let refresh = refresh_of(token, caller.time);
    match ask_once(alloc, channel, &caller.request(1, refresh)) {
        Ok(reply) => show_refresh(alloc, &reply.say, console),
        Err(error) => failed(&mut console.faults, &error),
    }
}

/// Tells that a lock was removed, or of a reply that says something else.
fn show_removal<O: Write, F: Write>(
    alloc: Global,
    token: Token,
    say: &Say,
    console: &mut Console<O, F>,
) -> Status
    ensures tells { TellsIfThere (removal_told token say.now) result (O.contents console.old.output) (O.contents console.new.output) }
    ensures silent { result ≡ Status.Done → console.new.faults ≡ console.old.faults }
    ensures status { IsEnd result }
{
    match say {
        Say::Done => show_made(removed_line(alloc, token), console),
        _ => unwelcome(alloc, say, &mut console.faults),
    }
}

/// The removal of a token's lock, and the number of the request for it.
#[derive(Clone, Copy)]
struct Removal {
    token: Token,
    sequence: u64,
}

/// Removes the lock of a token, by the request of this number, and tells that it is done.
fn remove_lock<E: KnownChannel, O: Write, F: Write>(
    alloc: Global,
    caller: &Caller,
    removal: Removal,
    channel: &mut E,
    console: &mut Console<O, F>,
) -> Status
    ensures asked { Asked (request_of caller.now removal.sequence (Ask.Unlock removal.token)) (removal_told removal.token)
        (streams (E.ends channel.old) (O.contents console.old.output))
        result (streams (E.ends channel.new) (O.contents console.new.output)) }
    ensures silent { result ≡ Status.Done → console.new.faults ≡ console.old.faults }
    ensures status { IsEnd result }
{
    let Removal { token, sequence } = removal;
    let request = caller.request(sequence, Ask::Unlock(token));
    match ask_once(alloc, channel, &request) {
        Ok(reply) => show_removal(alloc, token, &reply.say, console),
        Err(error) => failed(&mut console.faults, &error),
    }
}

/// Removes locks one after another, from the request of number 2 on, and tells each as it is done. The first one
/// that isn't done ends it.
fn remove_locks<E: KnownChannel, O: Write, F: Write>(
    alloc: Global,
    caller: &Caller,
    tokens: &[Token],
    channel: &mut E,
    console: &mut Console<O, F>,
) -> Status
    requires few { length tokens.now < 2 ^ 62 }
    ensures removes { Removes caller.now tokens.now (streams (E.ends channel.old) (O.contents console.old.output))
        result (streams (E.ends channel.new) (O.contents console.new.output)) }
    ensures silent { result ≡ Status.Done → console.new.faults ≡ console.old.faults }
    ensures status { IsEnd result }
{
    let mut sequence = 2;
    for token in tokens {
        let removal = Removal {
            token: *token,
            sequence,
        };
        match remove_lock(alloc, caller, removal, channel, console) {
            Status::Done => sequence += 1,
            other => return other,
        }
    }
    Status::Done
}

/// The tokens of all locks.
fn all_tokens(alloc: Global, rows: &[LockRow]) -> Result<Vec<Token>, AllocError>
    ensures { IfOk result (λ tokens. tokens.items ≡ tokens_of rows.now) }
{
    rows.iter().map(|row| row.token).collect(alloc)
}

/// The tokens of the locks that are to be removed: of all, or of the stale ones.
fn chosen(alloc: Global, rows: &[LockRow], now: u64, all: bool) -> Result<Vec<Token>, AllocError>
    ensures { IfOk result (λ tokens. tokens.items ≡ chosen all now rows.now) }
{
    if all {
        all_tokens(alloc, rows)
    } else {
        stale(alloc, rows, now)
    }
}

/// `vault unlock`: removes the stale locks, or all, and tells each as it is done. What a client does afterwards
/// whose lock was removed is refused.
pub fn unlock_command<E: KnownChannel, O: Write, F: Write>(
    alloc: Global,
    caller: &Caller,
    all: bool,
    channel: &mut E,
    console: &mut Console<O, F>,
) -> Status
    ensures unlocks { RemovesLocks caller.now all (streams (E.ends channel.old) (O.contents console.old.output))
        result (streams (E.ends channel.new) (O.contents console.new.output)) }
    ensures silent { result ≡ Status.Done → console.new.faults ≡ console.old.faults }
    ensures status { IsEnd result }
{
    let reply = match ask_once(alloc, channel, &caller.request(1, Ask::Locks)) {
        Ok(reply) => reply,
        Err(error) => return failed(&mut console.faults, &error),
    };
    let Say::LockList(rows) = &reply.say else {
        return unwelcome(alloc, &reply.say, &mut console.faults);
    };
    match chosen(alloc, rows.as_slice(), caller.time, all) {
        Ok(tokens) => remove_locks(alloc, caller, tokens.as_slice(), channel, console),
        Err(_) => failed(&mut console.faults, &DriveError::Memory),
    }
}
