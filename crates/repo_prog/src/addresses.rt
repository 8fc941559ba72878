//! The addresses of servers, as words of the command line.

ghost use Rattle.std.specs.Prelude.{◌↔◌, ℕ, List, IfNone, IfOk, IfSome, IsTrue, codes, string_bytes};
ghost use Rattle.repo_prog.specs.Addresses.{IsAddress, LeavesPort};
ghost use Rattle.repo_prog.specs.Words.{IsWord};

use crate::words::{WordsError, word_of};
use clap::ArgMatches;
use std::alloc::Global;

/// Whether a text is an address as a socket's call takes it: a host that isn't empty, a colon, and behind the last colon a port,
/// 0 to 65535. Whether there is such a host isn't asked.
pub fn is_address(text: &str) -> bool
    ensures { IsTrue result ↔ IsAddress text.now }
{
    match text.rsplit_once(':') {
        Some((host, port)) => !host.is_empty() && port.parse::<u16>().is_ok(),
        None => false,
    }
}

/// The host of an address that leaves the port to the system: it is 0. `None`: the address names a port, or is none.
pub fn host_alone(text: &str) -> Option<&str>
    ensures some { IfSome result (λ host. LeavesPort text.now host.now) }
    ensures none { IfNone result ((host : List ℕ) → ¬ LeavesPort text.now host) }
{
    let (host, port) = text.rsplit_once(':')?;
    let port = port.parse::<u16>().ok()?;
    if port == 0 { Some(host) } else { None }
}

/// The address among the words of a command.
pub fn address_of(alloc: Global, words: &ArgMatches) -> Result<String, WordsError>
    ensures within { IfOk result (λ address. IsAddress (string_bytes address)) }
    ensures word { IfOk result (λ address. IsWord words.now (codes "ADDR") (string_bytes address)) }
{
    let address = word_of(alloc, words, "ADDR")?;
    if !is_address(address.as_str()) {
        return Err(WordsError::BadArgument);
    }
    Ok(address)
}
