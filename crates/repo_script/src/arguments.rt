//! The words of a line that are left behind those that say what it is.

ghost use Rattle.std.specs.Prelude.{◌≡◌, Some, IfOk, map, option_map};
ghost use Rattle.repo_script.specs.Lines.{alone, one, two, host, bytes, clients, GivesLine};
ghost use Rattle.repo_script.specs.Numbers.{number, numbers};
ghost use Rattle.repo_script.specs.Tables.{word_in, kinds, sorts, fails};

use crate::faults::LineError;
use crate::lines::Clients;
use crate::numbers::{count, index, number};
use crate::sorts::AskSort;
use crate::tables::{fail_of, kind_of, sort_of};
use hex::FromHexError;
use repo_name::{Bytes, Text, is_host};
use repo_prune::Policy;
use repo_store::Fail;
use std::alloc::Global;

/// The one word left.
pub fn one_word<'a>(left: &[&'a str]) -> Option<&'a str>
    ensures { option_map (λ w. w.now) result ≡ one Some (map (λ w. w.now) left.now) }
{
    match left {
        [word] => Some(*word),
        _ => None,
    }
}

/// The two words left.
pub fn two_words<'a>(left: &[&'a str]) -> Option<(&'a str, &'a str)>
    ensures { option_map (λ w. (w.0.now, w.1.now)) result ≡ two Some Some (map (λ w. w.now) left.now) }
{
    match left {
        [first, second] => Some((*first, *second)),
        _ => None,
    }
}

/// The number that the one word left is, as an index.
pub fn one_index(left: &[&str]) -> Option<usize>
    ensures { result ≡ one (number 64) (map (λ w. w.now) left.now) }
{
    match left {
        [word] => index(*word),
        _ => None,
    }
}

/// The number that the one word left is.
pub fn one_number(left: &[&str]) -> Option<u64>
    ensures { result ≡ one (number 64) (map (λ w. w.now) left.now) }
{
    match left {
        [word] => number(*word),
        _ => None,
    }
}

/// The two numbers that the two words left are.
pub fn two_numbers(left: &[&str]) -> Option<(u64, u64)>
    ensures { result ≡ two (number 64) (number 64) (map (λ w. w.now) left.now) }
{
    match left {
        [first, second] => Some((number(*first)?, number(*second)?)),
        _ => None,
    }
}

/// A number, and whether a lock is exclusive.
pub fn number_and_kind(left: &[&str]) -> Option<(u64, bool)>
    ensures { result ≡ two (number 64) (word_in kinds) (map (λ w. w.now) left.now) }
{
    match left {
        [first, second] => Some((number(*first)?, kind_of(*second)?)),
        _ => None,
    }
}

/// A client and a sort of request.
pub fn index_and_sort(left: &[&str]) -> Option<(usize, AskSort)>
    ensures { result ≡ two (number 64) (word_in sorts) (map (λ w. w.now) left.now) }
{
    match left {
        [first, second] => Some((index(*first)?, sort_of(*second)?)),
        _ => None,
    }
}

/// A client and a failure.
pub fn index_and_fail(left: &[&str]) -> Option<(usize, Fail)>
    ensures { result ≡ two (number 64) (word_in fails) (map (λ w. w.now) left.now) }
{
    match left {
        [first, second] => Some((index(*first)?, fail_of(*second)?)),
        _ => None,
    }
}

/// A policy.
pub fn policy_of(left: &[&str]) -> Option<Policy>
    ensures { result ≡ option_map (λ x. record { last = x.0; daily = x.1 }) (two (number 32) (number 32) (map (λ w. w.now) left.now)) }
{
    match left {
        [first, second] => {
            let last = count(*first)?;
            let daily = count(*second)?;
            Some(Policy { last, daily })
        }
        _ => None,
    }
}

/// The host that a word is.
pub fn host_of(alloc: Global, word: &str) -> Result<Text, LineError>
    ensures { GivesLine (host word.now) result }
{
    if !is_host(word) {
        return Err(LineError::NotUnderstood);
    }
    Ok(Text::of(String::from_str(alloc, word)?))
}

/// The bytes that a word is.
pub fn bytes_of(alloc: Global, word: &str) -> Result<Bytes, LineError>
    ensures { GivesLine (bytes word.now) result }
{
    if word == "-" {
        return Ok(Bytes::of(Vec::new(alloc)));
    }
    match hex::decode(alloc, word) {
        Ok(bytes) => Ok(Bytes::of(bytes)),
        Err(FromHexError::OutOfMemory) => Err(LineError::Memory),
        Err(_) => Err(LineError::NotUnderstood),
    }
}

/// The clients that all these words are.
fn indexes(alloc: Global, left: &[&str]) -> Result<Clients, LineError>
    ensures { GivesLine (numbers (map (λ w. w.now) left.now)) result }
{
    let mut found = Vec::new(alloc);
    for word in left {
        let Some(client) = index(*word) else {
            return Err(LineError::NotUnderstood);
        };
        if found.push(client).is_err() {
            return Err(LineError::Memory);
        }
    }
    Ok(Clients::of(found))
}

/// The clients of the words left.
pub fn clients_of(alloc: Global, left: &[&str]) -> Result<Clients, LineError>
    ensures { GivesLine (clients (map (λ w. w.now) left.now)) result }
{
    if left.is_empty() {
        return Err(LineError::NotUnderstood);
    }
    indexes(alloc, left)
}
