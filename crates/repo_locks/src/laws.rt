//! The laws of the ledger, each as the contract of a function that does nothing.

ghost use Rattle.repo_locks.specs.Laws.{StartIsLawful, StepsStayLawful, IssuedIsFresh, LockedIsLive, UnlockedIsNeither, NumbersGoForward, DeadStaysDead, LiveStaysLive, NothingToUnlock, ExclusiveIsAlone};
ghost use Rattle.repo_locks.specs.LedgerBytes.{LedgersAreOne};

/// The ledger before any ticket is lawful.
pub fn start_is_lawful()
    ensures { StartIsLawful }
{}

/// A ticket, a lock, a refresh or an unlock of a lawful ledger leaves a lawful one, whatever it gave.
pub fn steps_stay_lawful()
    ensures { StepsStayLawful }
{}

/// After a ticket its number is fresh.
pub fn issued_is_fresh()
    ensures { IssuedIsFresh }
{}

/// After a lock that succeeds its number is live, shared or exclusive as asked for.
pub fn locked_is_live()
    ensures { LockedIsLive }
{}

/// After an unlock its number is neither fresh nor live.
pub fn unlocked_is_neither()
    ensures { UnlockedIsNeither }
{}

/// A number goes from not issued to fresh, from fresh to live, and never back; its kind doesn't change.
pub fn numbers_go_forward()
    ensures { NumbersGoForward }
{}

/// A number that was issued and is neither fresh nor live is never fresh or live again.
pub fn dead_stays_dead()
    ensures { DeadStaysDead }
{}

/// A number that is live stays so in its way, shared or exclusive, until its own unlock.
pub fn live_stays_live()
    ensures { LiveStaysLive }
{}

/// An unlock of a number that is neither fresh nor live would change nothing.
pub fn nothing_to_unlock()
    ensures { NothingToUnlock }
{}

/// Where a number is live and exclusive no other is live.
pub fn exclusive_is_alone()
    ensures { ExclusiveIsAlone }
{}

/// Lawful ledgers with equal bytes are equal.
pub fn ledgers_are_one()
    ensures { LedgersAreOne }
{}
