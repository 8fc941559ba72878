//! The answer to each request.

ghost use Rattle.std.specs.Prelude.{◌≡◌, ◌≤◌, ◌+◌};
ghost use Rattle.repo_wire.specs.Messages.{replies, IsReply, IsSay, IsShortSay};
ghost use Rattle.repo_wire.specs.Stream.{FitsFrame};
ghost use Rattle.repo_store.specs.Runs.{Replies};
ghost use Rattle.repo_store.specs.AppendOnly.{OnlyAppends};
ghost use Rattle.repo_store.specs.Failing.{AnswersAsArmed};
ghost use Rattle.repo_store.specs.StoreMachine.{reads_of, refusal, IsAnswerable, IsQuiet, IsRuledOut, Looks, Step, SaysFault, SaysItsFault};

use crate::lock_answers::{
    answer_lock, answer_locks, answer_refresh, answer_ticket, answer_unlock,
};
use crate::object_answers::{
    answer_config, answer_delete, answer_get, answer_list, answer_put, answer_range,
};
use crate::shelves::{Shelf, ShelfError};
use crate::upgrades::answer_upgrade;
use repo_name::Instance;
use repo_wire::{Ask, Code, Reply, Request, Say};
use std::alloc::Global;

/// The refusal for a call of the shelf that failed.
pub fn refusal(error: ShelfError) -> Say
    ensures { result ≡ refusal error }
{
    match error {
        ShelfError::Fault => Say::Refused(Code::Fault),
        ShelfError::Memory => Say::Refused(Code::NoMemory),
    }
}

/// What is said to what is asked.
fn say_to<S: Shelf>(alloc: Global, shelf: &mut S, ask: &Ask) -> Say
    requires { IsAnswerable ask.now }
    ensures step { S.honest shelf.old → Step (S.store shelf.old) ask.now result (S.store shelf.new) }
    ensures cause { S.honest shelf.old → SaysFault (S.failed shelf.old) result (S.failed shelf.new) }
    ensures armed { AnswersAsArmed S.honest S.armed S.own S.store shelf.old ask.now result shelf.new }
    ensures honest { S.honest shelf.old → S.honest shelf.new }
    ensures before { S.honest shelf.old → ¬ Looks (S.store shelf.old) ask.now → shelf.new ≡ shelf.old }
    ensures told { SaysItsFault (S.faults shelf.old) result (S.faults shelf.new) }
    ensures read { S.reads shelf.new ≤ S.reads shelf.old + reads_of ask.now }
    ensures once { S.writes shelf.new ≤ S.writes shelf.old + 1 }
    ensures quiet { S.honest shelf.old → IsQuiet (S.store shelf.old) ask.now → S.writes shelf.new ≡ S.writes shelf.old }
    ensures ruled_out { IsRuledOut result → S.writes shelf.new ≡ S.writes shelf.old }
    ensures within { IsSay result × IsShortSay result }
{
    match ask {
        Ask::Ticket => answer_ticket(shelf),
        Ask::Lock(row) => answer_lock(shelf, row),
        Ask::Refresh { token, time } => answer_refresh(shelf, *token, *time),
        Ask::Unlock(token) => answer_unlock(shelf, *token),
        Ask::Locks => answer_locks(alloc, shelf),
        Ask::List { kind, after } => answer_list(shelf, *kind, after.as_ref()),
        Ask::Get { kind, name } => answer_get(shelf, *kind, name),
        Ask::Range {
            pack,
            offset,
            length,
        } => answer_range(shelf, pack, *offset, *length),
        Ask::Put {
            token,
            kind,
            name,
            bytes,
        } => answer_put(shelf, *token, *kind, name, bytes.as_slice()),
        Ask::Delete { token, kind, name } => answer_delete(shelf, *token, *kind, name),
        Ask::Config => answer_config(shelf),
        Ask::Upgrade(token) => answer_upgrade(alloc, shelf, *token),
    }
}

/// A reply to this instance and sequence.
fn reply_to(instance: Instance, sequence: u64, say: Say) -> Reply
    requires { IsSay say }
    ensures reply { result ≡ record { instance = instance; sequence = sequence; say = say } }
    ensures within { IsReply result }
{
    let instance = Instance(instance.to_bytes());
    Reply {
        instance,
        sequence,
        say,
    }
}

/// The answer to a request: one step of the store machine, over an honest shelf. It repeats the request's
/// instance and sequence, and fits a frame.
///
/// Code 10 is said only where the shelf failed in this call, by itself or as it was told to; the store is then
/// as before, or as after the answer that the request would have had. It is said whenever a call of the shelf told
/// a fault. What a shelf was told to fail in fails in just that call, and then no more: before any change if that
/// is a reading call, and else before or after the change, as the shelf was told. After every other refusal the store is as before. A store that only appends
/// keeps each object. The shelf is read at most once, for an upgrade at most twice, and asked to write at most once; and not at all for a request that only reads, a
/// lock that is held already, an unlock that changes nothing, an upgrade of a config that is of version 2
/// already, and where the refusal is another than 10 and 11. What is answered before the shelf is looked at leaves it as it was.
pub fn answer<S: Shelf>(alloc: Global, shelf: &mut S, request: &Request) -> Reply
    requires { IsAnswerable request.now.ask }
    ensures replies { S.honest shelf.old → Replies (S.store shelf.old) request.now result (S.store shelf.new) }
    ensures kept { S.honest shelf.old → OnlyAppends (S.store shelf.old) (S.store shelf.new) }
    ensures cause { S.honest shelf.old → SaysFault (S.failed shelf.old) result.say (S.failed shelf.new) }
    ensures armed { AnswersAsArmed S.honest S.armed S.own S.store shelf.old request.now.ask result.say shelf.new }
    ensures honest { S.honest shelf.old → S.honest shelf.new }
    ensures before { S.honest shelf.old → ¬ Looks (S.store shelf.old) request.now.ask → shelf.new ≡ shelf.old }
    ensures told { SaysItsFault (S.faults shelf.old) result.say (S.faults shelf.new) }
    ensures read { S.reads shelf.new ≤ S.reads shelf.old + reads_of request.now.ask }
    ensures once { S.writes shelf.new ≤ S.writes shelf.old + 1 }
    ensures quiet { S.honest shelf.old → IsQuiet (S.store shelf.old) request.now.ask → S.writes shelf.new ≡ S.writes shelf.old }
    ensures ruled_out { IsRuledOut result.say → S.writes shelf.new ≡ S.writes shelf.old }
    ensures fits { FitsFrame replies result }
    ensures repeats { (result.instance ≡ request.now.instance) × (result.sequence ≡ request.now.sequence) }
{
    let say = say_to(alloc, shelf, &request.ask);
    reply_to(request.instance, request.sequence, say)
}
