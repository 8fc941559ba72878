//! The answer to an upgrade: a config of version 1 is written anew with version 2.

ghost use Rattle.std.specs.Prelude.{◌≡◌, ◌≢◌, ◌⊎◌, ◌≤◌, ◌+◌};
ghost use Rattle.repo_tree.specs.declared.faults.TextError.{TextError};
ghost use Rattle.repo_wire.specs.declared.messages.Ask.{Ask};
ghost use Rattle.repo_wire.specs.declared.messages.Code.{Code};
ghost use Rattle.repo_wire.specs.Messages.{IsSay, IsShortSay};
ghost use Rattle.repo_store.specs.Failing.{AnswersAsArmed};
ghost use Rattle.repo_store.specs.StoreMachine.{IsQuiet, IsRuledOut, Step, SaysFault, SaysItsFault};
ghost use Rattle.repo_store.specs.Upgrades.{IsDue};

use crate::answers::refusal;
use crate::shelves::Shelf;
use repo_name::{Bytes, Token};
use repo_tree::{Config, GREATEST_VERSION, TextError};
use repo_wire::{Code, Say};
use std::alloc::Global;

/// What an upgrade has to do.
enum Due {
    /// To keep this text as the config.
    Save(Vec<u8>),
    /// Nothing: the config is of version 2.
    Nothing,
    /// To refuse: there is no config, or none that reads, or no memory.
    Refuse(Code),
}

/// The refusal where the config can't be read.
fn unread(error: TextError) -> Code
    ensures { (result ≡ Code.NoMemory) ⊎ ((result ≡ Code.Malformed) × (error ≢ TextError.Memory)) }
{
    match error {
        TextError::Memory => Code::NoMemory,
        _ => Code::Malformed,
    }
}

/// What an upgrade has to do where this is the config, or there is none.
fn work_due(alloc: Global, found: Option<Bytes>) -> Due
    ensures { IsDue found result }
{
    let Some(text) = found else {
        return Due::Refuse(Code::Missing);
    };
    let config = match Config::read(alloc, text.as_slice()) {
        Ok(config) => config,
        Err(error) => return Due::Refuse(unread(error)),
    };
    if config.version == GREATEST_VERSION {
        return Due::Nothing;
    }
    let raised = Config {
        version: GREATEST_VERSION,
        id: config.id,
        params: config.params,
        target: config.target,
    };
    match raised.write(alloc) {
        Ok(text) => Due::Save(text),
        Err(_) => Due::Refuse(Code::NoMemory),
    }
}

/// Raises the config to version 2, under a live exclusive lock; also where the store only appends.
pub fn answer_upgrade<S: Shelf>(alloc: Global, shelf: &mut S, token: Token) -> Say
    ensures step { S.honest shelf.old → Step (S.store shelf.old) (Ask.Upgrade token) result (S.store shelf.new) }
    ensures cause { S.honest shelf.old → SaysFault (S.failed shelf.old) result (S.failed shelf.new) }
    ensures armed { AnswersAsArmed S.honest S.armed S.own S.store shelf.old (Ask.Upgrade token) result shelf.new }
    ensures honest { S.honest shelf.old → S.honest shelf.new }
    ensures told { SaysItsFault (S.faults shelf.old) result (S.faults shelf.new) }
    ensures read { S.reads shelf.new ≤ S.reads shelf.old + 2 }
    ensures once { S.writes shelf.new ≤ S.writes shelf.old + 1 }
    ensures quiet { S.honest shelf.old → IsQuiet (S.store shelf.old) (Ask.Upgrade token) → S.writes shelf.new ≡ S.writes shelf.old }
    ensures ruled_out { IsRuledOut result → S.writes shelf.new ≡ S.writes shelf.old }
    ensures within { IsSay result × IsShortSay result }
{
    let live = match shelf.live_as(token) {
        Ok(live) => live,
        Err(error) => return refusal(error),
    };
    match live {
        None => return Say::Refused(Code::Dead),
        Some(false) => return Say::Refused(Code::NotExclusive),
        Some(true) => {}
    }
    let found = match shelf.config() {
        Ok(found) => found,
        Err(error) => return refusal(error),
    };
    match work_due(alloc, found) {
        Due::Refuse(code) => Say::Refused(code),
        Due::Nothing => Say::Done,
        Due::Save(text) => match shelf.save_config(text.as_slice()) {
            Ok(()) => Say::Done,
            Err(error) => refusal(error),
        },
    }
}
