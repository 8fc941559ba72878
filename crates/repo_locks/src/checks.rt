//! The tests that tell a lawful ledger.

ghost use Rattle.std.specs.Prelude.{◌≡◌, ◌↔◌, true, length, IsTrue, None};
ghost use Rattle.repo_name.specs.declared.tokens.Token.{Token};
ghost use Rattle.repo_locks.specs.TokenMachine.{Tokens, is_among, kind_among, has_exclusive, tokens_of};
ghost use Rattle.repo_locks.specs.Lawful.{Ascends, IsLedger};
ghost use Rattle.repo_locks.specs.LedgerBytes.{FitsBytes};

use crate::searches::is_among;
use repo_name::{LockRow, Token};
use std::collections::BTreeSet;

/// Whether the numbers ascend, from 1 on and below the next one.
pub fn numbers_ascend(numbers: &[Token], next: u64) -> bool
    ensures { IsTrue result ↔ Ascends 0 next numbers.now }
{
    let mut low = 0;
    for number in numbers {
        if number.0 <= low || number.0 >= next {
            return false;
        }
        low = number.0;
    }
    true
}

/// Whether the rows ascend by token, from 1 on and below the next one.
pub fn rows_ascend(rows: &[LockRow], next: u64) -> bool
    ensures { IsTrue result ↔ Ascends 0 next (tokens_of rows.now) }
{
    let mut low = 0;
    for row in rows {
        if row.token.0 <= low || row.token.0 >= next {
            return false;
        }
        low = row.token.0;
    }
    true
}

/// Whether none of the numbers has a row.
pub fn are_apart(numbers: &BTreeSet<Token>, rows: &[LockRow]) -> bool
    ensures { IsTrue result ↔ ((t : Token) → is_among numbers.now.keys t ≡ true → kind_among rows.now t ≡ None) }
{
    for row in rows {
        if is_among(numbers, row.token) {
            return false;
        }
    }
    true
}

/// Whether one of the rows is exclusive.
fn has_exclusive(rows: &[LockRow]) -> bool
    ensures { result ≡ has_exclusive rows.now }
{
    for row in rows {
        if row.exclusive {
            return true;
        }
    }
    false
}

/// Whether an exclusive row is the only one.
pub fn exclusive_is_only(rows: &[LockRow]) -> bool
    ensures { IsTrue result ↔ (has_exclusive rows.now ≡ true → length rows.now ≡ 1) }
{
    rows.len() == 1 || !has_exclusive(rows)
}

/// Whether a next number, numbers that ascend below it, and rows are those of a lawful ledger. They fit its
/// bytes.
pub fn is_lawful(next: u64, numbers: &BTreeSet<Token>, rows: &[LockRow]) -> bool
    ensures { let l : Tokens = record { next = next; fresh = numbers.now.keys; live = rows.now }
        in FitsBytes l → Ascends 0 l.next l.fresh → IsTrue result ↔ IsLedger l }
{
    next >= 1 && rows_ascend(rows, next) && are_apart(numbers, rows) && exclusive_is_only(rows)
}
