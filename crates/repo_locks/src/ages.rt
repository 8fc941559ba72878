//! Which locks are so old that their clients may be gone.

ghost use Rattle.std.specs.Prelude.{◌≡◌, IfOk};
ghost use Rattle.repo_locks.specs.Ages.{is_stale, stale_tokens};

use repo_name::{LockRow, Token};
use std::alloc::{AllocError, Global};

/// How many seconds a lock's time may lie in the past before the lock is stale.
const STALE_AGE: u64 = 1800;

/// Whether the row's time lies further in the past.
fn is_stale(row: &LockRow, now: u64) -> bool
    ensures { result ≡ is_stale now row.now }
{
    now.saturating_sub(row.time) > STALE_AGE
}

/// The tokens of the rows whose time lies more than 1,800 seconds before now, in the rows' order. Times
/// and now are seconds since 1970. A time after now is not stale. It fails for memory alone.
pub fn stale(alloc: Global, rows: &[LockRow], now: u64) -> Result<Vec<Token>, AllocError>
    ensures { IfOk result (λ tokens. tokens.items ≡ stale_tokens now rows.now) }
{
    rows.iter()
        .filter(|row| is_stale(row, now))
        .map(|row| row.token)
        .collect(alloc)
}
