//! The words of what a client asks of a server.

ghost use Rattle.std.specs.Prelude.{◌≡◌, ◌++◌, ◌∷◌, [], List, IfOk, IsTrue, IsFalse, codes};
ghost use Rattle.clap.specs.Walk.{Rule, Text};
ghost use Rattle.repo_prog.specs.Commands.{IsErrand, errand_word};
ghost use Rattle.repo_prog.specs.Spelled.{AddsCommands, AddsWords, IsCommand, again_rules, backup_rules, command_shape, copies, forget_rules, number_rule, of_locks, refresh_rules, repairs, restore_rules, server_rules, unlock_rules};
ghost use Rattle.repo_prog.specs.Words.{AskFor, IsRetryOf};

use crate::choosing::{choice_of, choice_words};
use crate::folder_words::folder_of;
use crate::help::{
    BACKUP, CHECK, FORGET, LOCKS, PRUNE, REFRESH, RESTORE, SNAPSHOTS, UNLOCK, UPGRADE,
};
use crate::meanings::{HOST, REMOVE_ALL, RESTORED, RETRY, SERVER, SNAPSHOT, SOURCE, TOKEN};
use crate::words::{
    WordsError, flag, idle, is_given, needed, number, number_of, with_word, word_of,
};
use clap::{ArgMatches, Command};
use repo_name::{Name, Text, Token, is_host};
use repo_prune::Choice;
use std::alloc::{AllocError, Global};

/// What a client asks of a server.
#[derive(Debug, Drop)]
pub enum Errand {
    /// Store what a folder holds, under the name of a machine, 1 to 255 bytes.
    Backup { host: Text, folder: String },
    /// List the snapshots.
    Snapshots,
    /// Restore a snapshot into a folder.
    Restore { name: Name, folder: String },
    /// Forget the chosen snapshots. A host is 1 to 255 bytes.
    Forget(Choice),
    /// Tell which snapshots would be forgotten. A host is 1 to 255 bytes.
    Foresee(Choice),
    /// Remove what no snapshot needs.
    Prune,
    /// Make the store's config one of version 2.
    Upgrade,
    /// Check all of the store.
    Check,
    /// Ask about the locks.
    Locks(LockErrand),
}

/// What a client asks of a server about locks.
#[derive(Debug, Drop)]
pub enum LockErrand {
    /// List the live ones.
    List,
    /// Give a token's lock a new time.
    Refresh(Token),
    /// Remove the stale ones, or all.
    Remove { all: bool },
}

/// A command that goes to a server's address.
fn errand_words<'a>(
    alloc: Global,
    name: &'a str,
    about: &'a str,
    help: &'a str,
) -> Result<Command<'a>, AllocError>
    ensures { IfOk result (IsCommand name.entry.now server_rules) }
{
    let command = Command::new(alloc, name).about(about).after_help(help);
    let command = with_word(command, Ok(needed(alloc, "ADDR", SERVER)))?;
    with_word(command, idle(alloc, "0"))
}

/// The word that says how often it is connected again, added to those of a command.
fn retry_words<'a>(alloc: Global, command: Command<'a>) -> Result<Command<'a>, AllocError>
    ensures { IfOk result (AddsWords command.entry (number_rule (codes "retry") (codes "0") ∷ [])) }
{
    with_word(command, number(alloc, "retry", "0", RETRY))
}

fn backup_words<'a>(alloc: Global) -> Result<Command<'a>, AllocError>
    ensures { IfOk result (IsCommand (codes "backup") backup_rules) }
{
    let about = "Stores what a folder holds as a snapshot";
    let command = retry_words(alloc, errand_words(alloc, "backup", about, BACKUP)?)?;
    let command = with_word(command, Ok(needed(alloc, "HOST", HOST)))?;
    with_word(command, Ok(needed(alloc, "PATH", SOURCE)))
}

fn snapshots_words<'a>(alloc: Global) -> Result<Command<'a>, AllocError>
    ensures { IfOk result (IsCommand (codes "snapshots") again_rules) }
{
    let about = "Lists the snapshots";
    retry_words(alloc, errand_words(alloc, "snapshots", about, SNAPSHOTS)?)
}

fn restore_words<'a>(alloc: Global) -> Result<Command<'a>, AllocError>
    ensures { IfOk result (IsCommand (codes "restore") restore_rules) }
{
    let about = "Restores a snapshot into an empty folder";
    let command = retry_words(alloc, errand_words(alloc, "restore", about, RESTORE)?)?;
    let command = with_word(command, Ok(needed(alloc, "NAME", SNAPSHOT)))?;
    with_word(command, Ok(needed(alloc, "DIR", RESTORED)))
}

fn forget_words<'a>(alloc: Global) -> Result<Command<'a>, AllocError>
    ensures { IfOk result (IsCommand (codes "forget") forget_rules) }
{
    let about = "Forgets snapshots by their names, or those that a policy doesn't keep";
    let command = retry_words(alloc, errand_words(alloc, "forget", about, FORGET)?)?;
    choice_words(alloc, command)
}

fn prune_words<'a>(alloc: Global) -> Result<Command<'a>, AllocError>
    ensures { IfOk result (IsCommand (codes "prune") again_rules) }
{
    let about = "Removes what no snapshot needs";
    retry_words(alloc, errand_words(alloc, "prune", about, PRUNE)?)
}

fn upgrade_words<'a>(alloc: Global) -> Result<Command<'a>, AllocError>
    ensures { IfOk result (IsCommand (codes "upgrade") again_rules) }
{
    let about = "Makes the store one of version 2";
    retry_words(alloc, errand_words(alloc, "upgrade", about, UPGRADE)?)
}

fn check_words<'a>(alloc: Global) -> Result<Command<'a>, AllocError>
    ensures { IfOk result (IsCommand (codes "check") again_rules) }
{
    let about = "Tells whether all is well";
    retry_words(alloc, errand_words(alloc, "check", about, CHECK)?)
}

fn refresh_words<'a>(alloc: Global) -> Result<Command<'a>, AllocError>
    ensures { IfOk result (IsCommand (codes "refresh") refresh_rules) }
{
    let about = "Gives a live lock this moment as its time";
    let token = needed(alloc, "TOKEN", TOKEN).value_parser(clap::value_parser!(u64));
    let command = errand_words(alloc, "refresh", about, REFRESH)?;
    with_word(command, Ok(token))
}

fn unlock_words<'a>(alloc: Global) -> Result<Command<'a>, AllocError>
    ensures { IfOk result (IsCommand (codes "unlock") unlock_rules) }
{
    let about = "Removes stale locks, or all";
    let command = errand_words(alloc, "unlock", about, UNLOCK)?;
    with_word(command, Ok(flag(alloc, "remove-all", REMOVE_ALL)))
}

/// The words of one more command, added to those of the program.
pub fn with_command<'a>(
    program: Command<'a>,
    words: Result<Command<'a>, AllocError>,
) -> Result<Command<'a>, AllocError>
    ensures { (name : Text) → (rules : List Rule) → IfOk words.entry (IsCommand name rules) → IfOk result (AddsCommands program.entry (command_shape name rules ∷ [])) }
{
    match words {
        Ok(words) => program.subcommand(words),
        Err(error) => Err(error),
    }
}

/// The commands that store and give back, added to those of the program.
fn with_copies<'a>(alloc: Global, program: Command<'a>) -> Result<Command<'a>, AllocError>
    ensures { IfOk result (AddsCommands program.entry copies) }
{
    let program = with_command(program, backup_words(alloc))?;
    let program = with_command(program, snapshots_words(alloc))?;
    with_command(program, restore_words(alloc))
}

/// The commands that want the store for themselves, added to those of the program.
fn with_repairs<'a>(alloc: Global, program: Command<'a>) -> Result<Command<'a>, AllocError>
    ensures { IfOk result (AddsCommands program.entry repairs) }
{
    let program = with_command(program, forget_words(alloc))?;
    let program = with_command(program, prune_words(alloc))?;
    let program = with_command(program, check_words(alloc))?;
    with_command(program, upgrade_words(alloc))
}

/// The commands of locks, added to those of the program.
fn with_locks<'a>(alloc: Global, program: Command<'a>) -> Result<Command<'a>, AllocError>
    ensures { IfOk result (AddsCommands program.entry of_locks) }
{
    let program = with_command(
        program,
        errand_words(alloc, "locks", "Lists the live locks", LOCKS),
    )?;
    let program = with_command(program, refresh_words(alloc))?;
    with_command(program, unlock_words(alloc))
}

/// The commands that go to a server, added to those of the program.
pub fn with_errands<'a>(alloc: Global, program: Command<'a>) -> Result<Command<'a>, AllocError>
    ensures { IfOk result (AddsCommands program.entry (copies ++ repairs ++ of_locks)) }
{
    let program = with_copies(alloc, program)?;
    let program = with_repairs(alloc, program)?;
    with_locks(alloc, program)
}

fn backup_errand(alloc: Global, words: &ArgMatches) -> Result<Errand, WordsError>
    ensures within { IfOk result IsErrand }
    ensures word { IfOk result (λ errand. errand_word errand ≡ codes "backup") }
    ensures asked { IfOk result (AskFor words.now) }
{
    let host = word_of(alloc, words, "HOST")?;
    if !is_host(host.as_str()) {
        return Err(WordsError::BadArgument);
    }
    let folder = folder_of(alloc, words, "PATH")?;
    Ok(Errand::Backup {
        host: Text::of(host),
        folder,
    })
}

fn restore_errand(alloc: Global, words: &ArgMatches) -> Result<Errand, WordsError>
    ensures within { IfOk result IsErrand }
    ensures word { IfOk result (λ errand. errand_word errand ≡ codes "restore") }
    ensures asked { IfOk result (AskFor words.now) }
{
    let word = word_of(alloc, words, "NAME")?;
    let Ok(name) = Name::from_hex(word.as_str()) else {
        return Err(WordsError::BadArgument);
    };
    let folder = folder_of(alloc, words, "DIR")?;
    Ok(Errand::Restore { name, folder })
}

/// The errand of a choice: it is forgotten, or only told what would be.
fn forget_by(choice: Choice, is_dry_run: bool) -> Errand
    ensures dry { IsTrue is_dry_run → result ≡ Errand.Foresee choice }
    ensures real { IsFalse is_dry_run → result ≡ Errand.Forget choice }
{
    if is_dry_run {
        Errand::Foresee(choice)
    } else {
        Errand::Forget(choice)
    }
}

fn forget_errand(alloc: Global, words: &ArgMatches) -> Result<Errand, WordsError>
    ensures within { IfOk result IsErrand }
    ensures word { IfOk result (λ errand. errand_word errand ≡ codes "forget") }
    ensures asked { IfOk result (AskFor words.now) }
{
    let choice = choice_of(alloc, words)?;
    Ok(forget_by(choice, is_given(words, "dry-run")))
}

/// How often it is connected again, by the words of one of these commands: 0 where it has no word for that.
pub fn retry_of(words: &ArgMatches) -> u64
    ensures { IsRetryOf words.now result }
{
    words.get_one::<u64>("retry").unwrap_or(0)
}

/// What the words of one of these commands ask for.
pub fn errand_of(alloc: Global, command: &str, words: &ArgMatches) -> Result<Errand, WordsError>
    ensures within { IfOk result IsErrand }
    ensures word { IfOk result (λ errand. errand_word errand ≡ command.now) }
    ensures asked { IfOk result (AskFor words.now) }
{
    match command {
        "backup" => backup_errand(alloc, words),
        "snapshots" => Ok(Errand::Snapshots),
        "restore" => restore_errand(alloc, words),
        "forget" => forget_errand(alloc, words),
        "prune" => Ok(Errand::Prune),
        "check" => Ok(Errand::Check),
        "upgrade" => Ok(Errand::Upgrade),
        "locks" => Ok(Errand::Locks(LockErrand::List)),
        "refresh" => {
            let number = number_of(words, "TOKEN")?;
            Ok(Errand::Locks(LockErrand::Refresh(Token(number))))
        }
        "unlock" => {
            let all = is_given(words, "remove-all");
            Ok(Errand::Locks(LockErrand::Remove { all }))
        }
        _ => Err(WordsError::BadArgument),
    }
}
