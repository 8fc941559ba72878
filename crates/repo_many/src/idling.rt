//! How long a connection may stand still, and how long a wait may be. All times are nanoseconds.

ghost use Rattle.std.specs.Prelude.{◌≡◌};
ghost use Rattle.repo_many.specs.Times.{endured, is_idle, shorter, time_left, wait_for};

use crate::progress::Progress;
use repo_store::ServeError;

/// How many nanoseconds a wait may take while some wait for room for large frames, a second.
const WANTED: u64 = 1_000_000_000;

/// Whether a connection was idle for too long that moved last at a time.
pub fn is_idle(idle: Option<u64>, time: u64, since: u64) -> bool
    ensures { result ≡ is_idle idle time since }
{
    match idle {
        Some(most) => time.saturating_sub(since) >= most,
        None => false,
    }
}

/// What becomes of a connection that stands still: it fails if it was idle for too long, in writing if it is to be given something.
pub fn endure(is_idle: bool, gives: bool) -> Progress
    ensures { result ≡ endured is_idle gives }
{
    match (is_idle, gives) {
        (false, _) => Progress::Still,
        (true, false) => Progress::Failed(ServeError::Read),
        (true, true) => Progress::Failed(ServeError::Write),
    }
}

/// The shorter of two waits, of which `None` is for ever.
pub fn shorter(one: Option<u64>, other: Option<u64>) -> Option<u64>
    ensures { result ≡ shorter one other }
{
    match (one, other) {
        (Some(one), Some(other)) => Some(one.min(other)),
        (Some(one), None) => Some(one),
        (None, other) => other,
    }
}

/// How long a connection may stand still yet that moved last at this time.
fn time_left(idle: Option<u64>, time: u64, since: u64) -> Option<u64>
    ensures { result ≡ time_left idle time since }
{
    match idle {
        Some(most) => Some(most.saturating_sub(time.saturating_sub(since))),
        None => None,
    }
}

/// How long a wait may be: at most until the connection is idle for too long that moved at the earliest time, and a second while
/// some wait for room.
pub fn wait_for(idle: Option<u64>, time: u64, earliest: Option<u64>, wanted: bool) -> Option<u64>
    ensures { result ≡ wait_for idle time earliest wanted }
{
    let most = if wanted { Some(WANTED) } else { None };
    match earliest {
        Some(earliest) => shorter(most, time_left(idle, time, earliest)),
        None => shorter(most, None),
    }
}
