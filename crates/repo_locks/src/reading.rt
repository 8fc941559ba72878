//! The parts of the ledger's bytes, read from the front of some bytes.

ghost use Rattle.std.specs.Prelude.{◌≡◌, ◌≤◌, ◌++◌, length, All, IfOk, IsErrOf};
ghost use Rattle.std.specs.List.{flat_map};
ghost use Rattle.repo_name.specs.declared.tokens.Token.{Token};
ghost use Rattle.repo_locks.specs.declared.outcomes.LedgerError.{LedgerError};
ghost use Rattle.repo_locks.specs.TokenMachine.{Tokens, fresh_limit};
ghost use Rattle.repo_locks.specs.LedgerBytes.{token_bytes, fresh_bytes, IsNumber, HasBytes, HasNoNumbers, HasNoFresh};

use crate::limits::{FRESH_LIMIT, LIVE_LIMIT};
use crate::outcomes::LedgerError;
use repo_name::{LockRow, Token, count_at, number_at, read_rows};
use std::alloc::Global;

/// So many numbers at the front, and the bytes after them.
fn numbers_at(alloc: Global, count: usize, bytes: &[u8]) -> Result<(Vec<Token>, &[u8]), LedgerError>
    ensures found { IfOk result (λ x. (length x.0.items ≡ count) × All IsNumber x.0.items × (bytes.now ≡ flat_map token_bytes x.0.items ++ x.1.now)) }
    ensures shape { IsErrOf result LedgerError.Shape → HasNoNumbers count bytes.now }
{
    let mut numbers = Vec::with_capacity(alloc, count)?;
    let mut rest = bytes;
    for _ in 0..count {
        let (number, after) = number_at(rest).ok_or(LedgerError::Shape)?;
        numbers.push(Token(number))?;
        rest = after;
    }
    Ok((numbers, rest))
}

/// The fresh numbers at the front, behind their count, and the bytes after them.
pub fn fresh_at(alloc: Global, bytes: &[u8]) -> Result<(Vec<Token>, &[u8]), LedgerError>
    ensures found { IfOk result (λ x. (length x.0.items ≤ fresh_limit) × All IsNumber x.0.items × (bytes.now ≡ fresh_bytes x.0.items ++ x.1.now)) }
    ensures shape { IsErrOf result LedgerError.Shape → HasNoFresh bytes.now }
{
    let (count, rest) = count_at(bytes).ok_or(LedgerError::Shape)?;
    if count > FRESH_LIMIT {
        return Err(LedgerError::Shape);
    }
    numbers_at(alloc, count, rest)
}

/// The parts of a ledger, lawful or not.
#[derive(Drop)]
pub struct Parts {
    pub next: u64,
    pub fresh: Vec<Token>,
    pub live: Vec<LockRow>,
}

/// The parts of which these are the bytes, all of them.
pub fn parts_of(alloc: Global, bytes: &[u8]) -> Result<Parts, LedgerError>
    ensures found { IfOk result (λ p. HasBytes (record { next = p.next; fresh = p.fresh.items; live = p.live.items }) bytes.now) }
    ensures shape { IsErrOf result LedgerError.Shape → (l : Tokens) → ¬ HasBytes l bytes.now }
{
    let (next, rest) = number_at(bytes).ok_or(LedgerError::Shape)?;
    let (fresh, rest) = fresh_at(alloc, rest)?;
    let (live, rest) = read_rows(alloc, LIVE_LIMIT, rest)?;
    if !rest.is_empty() {
        return Err(LedgerError::Shape);
    }
    Ok(Parts { next, fresh, live })
}
