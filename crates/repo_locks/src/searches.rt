//! Looking a number up among the fresh ones and the live rows, and putting in, changing and leaving out a row.

ghost use Rattle.std.specs.Prelude.{◌≡◌, true, length, None, is_some, OnOk, OnErr};
ghost use Rattle.std.specs.BTreeMap.{values};
ghost use Rattle.repo_locks.specs.TokenMachine.{is_among, kind_among, has_exclusive, tokens_of, without, rows_without, with_row, rows_at};
ghost use Rattle.repo_locks.specs.TokenMaps.{AreAscending, AreUnderTokens};

use repo_name::{LockRow, Token};
use std::alloc::AllocError;
use std::collections::{BTreeMap, BTreeSet};

/// Whether the number is among these.
pub fn is_among(numbers: &BTreeSet<Token>, token: Token) -> bool
    ensures { result ≡ is_among numbers.now.keys token }
{
    numbers.contains(&token)
}

/// How the number is live in these rows: `None` where it isn't, else whether its row is exclusive.
pub fn kind_among(rows: &BTreeMap<Token, LockRow>, token: Token) -> Option<bool>
    requires { AreUnderTokens rows.now.entries }
    ensures { result ≡ kind_among (values rows.now) token }
{
    match rows.get(&token) {
        Some(row) => Some(row.exclusive),
        None => None,
    }
}

/// Whether one of the rows is exclusive, where such a row is the only one.
pub fn first_is_exclusive(rows: &BTreeMap<Token, LockRow>) -> bool
    requires { has_exclusive (values rows.now) ≡ true → length (values rows.now) ≡ 1 }
    ensures { result ≡ has_exclusive (values rows.now) }
{
    match rows.first_key_value() {
        Some((_, row)) => row.exclusive,
        None => false,
    }
}

/// Puts a row under its token, which has none. It fails for memory alone, and then nothing changed.
pub fn put_row(rows: &mut BTreeMap<Token, LockRow>, row: LockRow) -> Result<(), AllocError>
    requires under { AreUnderTokens rows.old.entries }
    requires free { kind_among (values rows.old) row.token ≡ None }
    ensures ok { OnOk result (values rows.new ≡ with_row row (values rows.old)) }
    ensures err { OnErr result (values rows.new ≡ values rows.old) }
    ensures under { AreUnderTokens rows.new.entries }
{
    rows.insert(row.token, row)?;
    Ok(())
}

/// Leaves a number out, and says whether it was there. It takes no memory.
pub fn leave_out(numbers: &mut BTreeSet<Token>, token: Token) -> bool
    requires { AreAscending numbers.old.keys }
    ensures was { result ≡ is_among numbers.old.keys token }
    ensures left { numbers.new.keys ≡ without token numbers.old.keys }
{
    numbers.remove(&token)
}

/// Leaves a token's row out, and says whether there was one. It takes no memory.
pub fn leave_out_row(rows: &mut BTreeMap<Token, LockRow>, token: Token) -> bool
    requires under { AreUnderTokens rows.old.entries }
    requires ascend { AreAscending (tokens_of (values rows.old)) }
    ensures was { result ≡ is_some (kind_among (values rows.old) token) }
    ensures left { values rows.new ≡ rows_without token (values rows.old) }
    ensures under { AreUnderTokens rows.new.entries }
{
    rows.remove(&token).is_some()
}

/// Brings the time of a token's row up to this one, where it isn't later, and says whether there is a row.
/// It takes no memory.
pub fn bring_up(rows: &mut BTreeMap<Token, LockRow>, token: Token, time: u64) -> bool
    requires under { AreUnderTokens rows.old.entries }
    requires ascend { AreAscending (tokens_of (values rows.old)) }
    ensures was { result ≡ is_some (kind_among (values rows.old) token) }
    ensures brought { values rows.new ≡ rows_at token time (values rows.old) }
    ensures under { AreUnderTokens rows.new.entries }
{
    match rows.get_mut(&token) {
        Some(row) => {
            row.time = row.time.max(time);
            true
        }
        None => false,
    }
}
