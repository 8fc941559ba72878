//! What the words of `vault forget` choose.

ghost use Rattle.std.specs.Prelude.{◌≡◌, ◌≢◌, ◌↔◌, [], map, codes, IfErr, IfOk, IfSome, IsErr, IsTrue};
ghost use Rattle.clap.specs.Matches.{found_of, first_value};
ghost use Rattle.repo_name.specs.Naming.{hex_of};
ghost use Rattle.repo_name.specs.Rows.{IsHost};
ghost use Rattle.repo_prog.specs.Commands.{HasPolicy, IsChoice, choice_for};
ghost use Rattle.repo_prog.specs.Spelled.{AddsWords, IsOfKind, choice_rules, count_rule, option_rule};
ghost use Rattle.repo_prog.specs.Words.{Chooses, IsNumber, IsPolicyOf, words_of};
ghost use Rattle.repo_prog.specs.declared.words.WordsError.{WordsError};
ghost use Rattle.repo_prune.specs.declared.choices.Choice.{Choice};

use crate::meanings::{DRY_RUN, FORGOTTEN, KEEP_DAILY, KEEP_LAST, OF_HOST};
use crate::words::{WordsError, flag, number, with_word};
use clap::{Arg, ArgAction, ArgMatches, Command};
use repo_name::{Name, Names, Text, is_host};
use repo_prune::{Choice, Policy};
use std::alloc::{AllocError, Global};

/// An option whose word is a count, and what it means.
fn count<'a>(alloc: Global, name: &'a str, meaning: &'a str) -> Result<Arg<'a>, AllocError>
    ensures { IfOk result (IsOfKind (count_rule name.entry.now)) }
{
    match number(alloc, name, "0", meaning) {
        Ok(word) => Ok(word.value_parser(clap::value_parser!(u32))),
        Err(error) => Err(error),
    }
}

/// The option whose word is the host that a policy is for.
fn of_host<'a>(alloc: Global) -> Result<Arg<'a>, AllocError>
    ensures { IfOk result (IsOfKind (option_rule (codes "host"))) }
{
    Ok(
        Arg::new(alloc, "host")
            .long("host")
            .value_name("HOST")
            .action(ArgAction::Set)
            .help(OF_HOST),
    )
}

/// The words of a choice, added to those of a command.
pub fn choice_words<'a>(alloc: Global, command: Command<'a>) -> Result<Command<'a>, AllocError>
    ensures { IfOk result (AddsWords command.entry choice_rules) }
{
    let command = with_word(command, count(alloc, "keep-last", KEEP_LAST))?;
    let command = with_word(command, count(alloc, "keep-daily", KEEP_DAILY))?;
    let command = with_word(command, of_host(alloc))?;
    let command = with_word(command, Ok(flag(alloc, "dry-run", DRY_RUN)))?;
    let names = Arg::new(alloc, "NAME").num_args(0..).help(FORGOTTEN);
    with_word(command, Ok(names))
}

/// A count that `clap` has read.
fn count_of(words: &ArgMatches, name: &str) -> Result<u32, WordsError>
    ensures { IfOk result (IsNumber words.now name.now) }
{
    match words.get_one::<u32>(name) {
        Some(count) => Ok(count),
        None => Err(WordsError::BadArgument),
    }
}

/// The names that these words spell.
fn named(alloc: Global, words: &[&str]) -> Result<Vec<Name>, WordsError>
    ensures { IfOk result (λ names. map (λ word. word.now) words.now ≡ map hex_of names.items) }
{
    let mut names = Vec::new(alloc);
    for word in words {
        let Ok(name) = Name::from_hex(word) else {
            return Err(WordsError::BadArgument);
        };
        names.push(name).map_err(|_| AllocError)?;
    }
    Ok(names)
}

/// The host that a policy is for, where the words name one: 1 to 255 bytes.
fn host_of(alloc: Global, words: &ArgMatches) -> Result<Option<Text>, WordsError>
    ensures within { IfOk result (λ host. IfSome host IsHost) }
    ensures host { IfOk result (λ host. host ≡ first_value (found_of words.now) (codes "host")) }
{
    let Some(word) = words.get_str("host") else {
        return Ok(None);
    };
    if !is_host(word) {
        return Err(WordsError::BadArgument);
    }
    Ok(Some(Text::of(String::from_str(alloc, word)?)))
}

/// What a policy chooses, for one host or for all.
fn choice_for(host: Option<Text>, policy: Policy) -> Choice
    ensures { result ≡ choice_for host policy }
{
    match host {
        Some(host) => Choice::KeepOf { host, policy },
        None => Choice::Keep(policy),
    }
}

/// Whether a policy is given, or a host.
fn has_policy(host: &Option<Text>, policy: &Policy) -> bool
    ensures { IsTrue result ↔ HasPolicy host.now policy.now }
{
    host.is_some() || policy.last != 0 || policy.daily != 0
}

/// What these counts, this host and these names choose: the names, where there are any, and else by a policy of the counts,
/// for the host where there is one. Names and any of the others together are refused.
fn choice_by(host: Option<Text>, policy: Policy, names: Vec<Name>) -> Result<Choice, WordsError>
    ensures refused { IsErr result ↔ ((names.items ≢ []) × HasPolicy host policy) }
    ensures both { IfErr result (λ error. error ≡ WordsError.NamesAndPolicy) }
    ensures names { IfOk result (λ choice. names.items ≢ [] → choice ≡ Choice.Names names.items) }
    ensures policy { IfOk result (λ choice. names.items ≡ [] → choice ≡ choice_for host policy) }
    ensures within { IfSome host IsHost → IfOk result IsChoice }
{
    if names.is_empty() {
        return Ok(choice_for(host, policy));
    }
    if has_policy(&host, &policy) {
        return Err(WordsError::NamesAndPolicy);
    }
    Ok(Choice::Names(Names::of(names)))
}

/// The policy of the words.
fn policy_of(words: &ArgMatches) -> Result<Policy, WordsError>
    ensures { IfOk result (IsPolicyOf words.now) }
{
    Ok(Policy {
        last: count_of(words, "keep-last")?,
        daily: count_of(words, "keep-daily")?,
    })
}

/// The names that the words spell.
fn names_of(alloc: Global, words: &ArgMatches) -> Result<Vec<Name>, WordsError>
    ensures { IfOk result (λ names. words_of words.now (codes "NAME") ≡ map hex_of names.items) }
{
    match words.get_strs("NAME") {
        Some(words) => named(alloc, words),
        None => Ok(Vec::new(alloc)),
    }
}

/// What the words choose.
pub fn choice_of(alloc: Global, words: &ArgMatches) -> Result<Choice, WordsError>
    ensures within { IfOk result IsChoice }
    ensures chooses { IfOk result (Chooses words.now) }
{
    let policy = policy_of(words)?;
    let host = host_of(alloc, words)?;
    let names = names_of(alloc, words)?;
    choice_by(host, policy, names)
}
