//! The answers to what is asked of objects and of the config.

ghost use Rattle.std.specs.Prelude.{◌≡◌, ◌≤◌, ◌+◌, length, option_map, IfSome, IsTrue, ◌↔◌};
ghost use Rattle.repo_name.specs.declared.names.Name.{Name};
ghost use Rattle.repo_wire.specs.declared.messages.Ask.{Ask};
ghost use Rattle.repo_wire.specs.Messages.{IsSay, IsShortSay};
ghost use Rattle.repo_store.specs.Failing.{AnswersAsArmed};
ghost use Rattle.repo_store.specs.StoreMachine.{object_limit, config_limit, range_limit, GetSays, IsRuledOut, Step, SaysFault, SaysItsFault, Looks};
ghost use Rattle.repo_name.specs.Limits.{fields_limit};

use crate::answers::refusal;
use crate::shelves::{Shelf, Slice};
use repo_name::{
    BLOB_LIMIT, Bytes, INDEX_LIMIT, Kind, Name, PACK_LIMIT, TEXT_LIMIT, Token, name_of,
};
use repo_wire::{Code, Say};

/// The most names of a page.
const PAGE: usize = 256;

/// The most bytes of an object of this kind.
fn limit_of(kind: Kind) -> usize
    ensures { result ≡ object_limit kind }
{
    match kind {
        Kind::Pack => PACK_LIMIT,
        Kind::Index => INDEX_LIMIT,
        Kind::Snapshot => TEXT_LIMIT,
    }
}

/// What is said of bytes that are there or not, and have a limit.
fn say_of(found: Option<Bytes>, limit: usize) -> Say
    requires { limit ≤ fields_limit }
    ensures says { GetSays limit found result }
    ensures within { IsSay result × IsShortSay result }
{
    match found {
        None => Say::Refused(Code::Missing),
        Some(bytes) => {
            if bytes.as_slice().len() > limit {
                return Say::Refused(Code::TooLarge);
            }
            Say::Bytes(bytes)
        }
    }
}

/// Gives a page of names.
pub fn answer_list<S: Shelf>(shelf: &mut S, kind: Kind, after: Option<&Name>) -> Say
    ensures step { S.honest shelf.old → Step (S.store shelf.old) (Ask.List kind (option_map (λ name. name.now) after.entry)) result (S.store shelf.new) }
    ensures cause { S.honest shelf.old → SaysFault (S.failed shelf.old) result (S.failed shelf.new) }
    ensures armed { AnswersAsArmed S.honest S.armed S.own S.store shelf.old (Ask.List kind (option_map (λ name. name.now) after.entry)) result shelf.new }
    ensures honest { S.honest shelf.old → S.honest shelf.new }
    ensures told { SaysItsFault (S.faults shelf.old) result (S.faults shelf.new) }
    ensures read { S.reads shelf.new ≤ S.reads shelf.old + 1 }
    ensures quiet { S.writes shelf.new ≡ S.writes shelf.old }
    ensures within { IsSay result × IsShortSay result }
{
    match shelf.names_after(kind, after, PAGE) {
        Ok(page) => Say::Names {
            more: page.more,
            names: page.names,
        },
        Err(error) => refusal(error),
    }
}

/// Gives an object whole.
pub fn answer_get<S: Shelf>(shelf: &mut S, kind: Kind, name: &Name) -> Say
    ensures step { S.honest shelf.old → Step (S.store shelf.old) (Ask.Get kind name.now) result (S.store shelf.new) }
    ensures cause { S.honest shelf.old → SaysFault (S.failed shelf.old) result (S.failed shelf.new) }
    ensures armed { AnswersAsArmed S.honest S.armed S.own S.store shelf.old (Ask.Get kind name.now) result shelf.new }
    ensures honest { S.honest shelf.old → S.honest shelf.new }
    ensures told { SaysItsFault (S.faults shelf.old) result (S.faults shelf.new) }
    ensures read { S.reads shelf.new ≤ S.reads shelf.old + 1 }
    ensures quiet { S.writes shelf.new ≡ S.writes shelf.old }
    ensures within { IsSay result × IsShortSay result }
{
    match shelf.get(kind, name) {
        Ok(found) => say_of(found, limit_of(kind)),
        Err(error) => refusal(error),
    }
}

/// Gives the config.
pub fn answer_config<S: Shelf>(shelf: &mut S) -> Say
    ensures step { S.honest shelf.old → Step (S.store shelf.old) Ask.Config result (S.store shelf.new) }
    ensures cause { S.honest shelf.old → SaysFault (S.failed shelf.old) result (S.failed shelf.new) }
    ensures armed { AnswersAsArmed S.honest S.armed S.own S.store shelf.old Ask.Config result shelf.new }
    ensures honest { S.honest shelf.old → S.honest shelf.new }
    ensures told { SaysItsFault (S.faults shelf.old) result (S.faults shelf.new) }
    ensures read { S.reads shelf.new ≤ S.reads shelf.old + 1 }
    ensures quiet { S.writes shelf.new ≡ S.writes shelf.old }
    ensures within { IsSay result × IsShortSay result }
{
    match shelf.config() {
        Ok(found) => say_of(found, TEXT_LIMIT),
        Err(error) => refusal(error),
    }
}

/// Gives a part of a pack.
pub fn answer_range<S: Shelf>(shelf: &mut S, pack: &Name, offset: u32, length: u32) -> Say
    ensures step { S.honest shelf.old → Step (S.store shelf.old) (Ask.Range pack.now offset length) result (S.store shelf.new) }
    ensures cause { S.honest shelf.old → SaysFault (S.failed shelf.old) result (S.failed shelf.new) }
    ensures armed { AnswersAsArmed S.honest S.armed S.own S.store shelf.old (Ask.Range pack.now offset length) result shelf.new }
    ensures honest { S.honest shelf.old → S.honest shelf.new }
    ensures before { ¬ Looks (S.store shelf.old) (Ask.Range pack.now offset length) → shelf.new ≡ shelf.old }
    ensures told { SaysItsFault (S.faults shelf.old) result (S.faults shelf.new) }
    ensures read { S.reads shelf.new ≤ S.reads shelf.old + 1 }
    ensures quiet { S.writes shelf.new ≡ S.writes shelf.old }
    ensures within { IsSay result × IsShortSay result }
{
    if length == 0 || length as usize > BLOB_LIMIT {
        return Say::Refused(Code::Malformed);
    }
    match shelf.range(pack, offset, length) {
        Ok(Slice::Found(bytes)) => Say::Bytes(bytes),
        Ok(Slice::Missing) => Say::Refused(Code::Missing),
        Ok(Slice::Outside) => Say::Refused(Code::Range),
        Err(error) => refusal(error),
    }
}

/// Stores an object, under a live lock.
pub fn answer_put<S: Shelf>(
    shelf: &mut S,
    token: Token,
    kind: Kind,
    name: &Name,
    bytes: &[u8],
) -> Say
    ensures step { S.honest shelf.old → Step (S.store shelf.old) (Ask.Put token kind name.now bytes.now) result (S.store shelf.new) }
    ensures cause { S.honest shelf.old → SaysFault (S.failed shelf.old) result (S.failed shelf.new) }
    ensures armed { AnswersAsArmed S.honest S.armed S.own S.store shelf.old (Ask.Put token kind name.now bytes.now) result shelf.new }
    ensures honest { S.honest shelf.old → S.honest shelf.new }
    ensures before { ¬ Looks (S.store shelf.old) (Ask.Put token kind name.now bytes.now) → shelf.new ≡ shelf.old }
    ensures told { SaysItsFault (S.faults shelf.old) result (S.faults shelf.new) }
    ensures read { S.reads shelf.new ≤ S.reads shelf.old + 1 }
    ensures once { S.writes shelf.new ≤ S.writes shelf.old + 1 }
    ensures ruled_out { IsRuledOut result → S.writes shelf.new ≡ S.writes shelf.old }
    ensures within { IsSay result × IsShortSay result }
{
    if bytes.len() > limit_of(kind) {
        return Say::Refused(Code::TooLarge);
    }
    let live = match shelf.live_as(token) {
        Ok(live) => live,
        Err(error) => return refusal(error),
    };
    if live.is_none() {
        return Say::Refused(Code::Dead);
    }
    if name_of(bytes) != *name {
        return Say::Refused(Code::NameMismatch);
    }
    match shelf.put(kind, name, bytes) {
        Ok(()) => Say::Done,
        Err(error) => refusal(error),
    }
}

/// Removes an object, under a live exclusive lock. A store that only appends refuses it, before it is asked
/// anything else.
pub fn answer_delete<S: Shelf>(shelf: &mut S, token: Token, kind: Kind, name: &Name) -> Say
    ensures step { S.honest shelf.old → Step (S.store shelf.old) (Ask.Delete token kind name.now) result (S.store shelf.new) }
    ensures cause { S.honest shelf.old → SaysFault (S.failed shelf.old) result (S.failed shelf.new) }
    ensures armed { AnswersAsArmed S.honest S.armed S.own S.store shelf.old (Ask.Delete token kind name.now) result shelf.new }
    ensures honest { S.honest shelf.old → S.honest shelf.new }
    ensures before { S.honest shelf.old → ¬ Looks (S.store shelf.old) (Ask.Delete token kind name.now) → shelf.new ≡ shelf.old }
    ensures told { SaysItsFault (S.faults shelf.old) result (S.faults shelf.new) }
    ensures read { S.reads shelf.new ≤ S.reads shelf.old + 1 }
    ensures once { S.writes shelf.new ≤ S.writes shelf.old + 1 }
    ensures ruled_out { IsRuledOut result → S.writes shelf.new ≡ S.writes shelf.old }
    ensures within { IsSay result × IsShortSay result }
{
    if shelf.append_only() {
        return Say::Refused(Code::AppendOnly);
    }
    let live = match shelf.live_as(token) {
        Ok(live) => live,
        Err(error) => return refusal(error),
    };
    match live {
        None => return Say::Refused(Code::Dead),
        Some(false) => return Say::Refused(Code::NotExclusive),
        Some(true) => {}
    }
    match shelf.remove(kind, name) {
        Ok(()) => Say::Done,
        Err(error) => refusal(error),
    }
}
