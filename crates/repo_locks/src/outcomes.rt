//! What the ledger's calls give: a grant, or why there is none.

use repo_name::RowError;
use std::alloc::{AllocError, AllocFailed};
use thiserror::Error;

/// What a lock that succeeds is.
#[derive(Clone, Copy, Debug, PartialEq, Eq)]
pub enum Grant {
    /// The token was fresh, and is live from now on.
    New,
    /// The token was live before as it was asked for, and nothing changed.
    Held,
}

/// Why no number was issued.
#[derive(Clone, Copy, Debug, PartialEq, Eq, Error)]
pub enum TicketError {
    /// The next number is 2^64 - 1, which is never issued.
    #[error("all numbers were issued")]
    Exhausted,
    #[error("out of memory")]
    Memory,
}

/// Why a token isn't live as it was asked for, the first cause that applies.
#[derive(Clone, Copy, Debug, PartialEq, Eq, Error)]
pub enum LockError {
    /// It is neither fresh nor live.
    #[error("the lock is dead")]
    Dead,
    /// It is live, and of the other kind.
    #[error("the lock is of the other kind")]
    OtherKind,
    /// Something is live and this one is to be exclusive, or an exclusive one is live.
    #[error("another lock is in the way")]
    Busy,
    /// As many are live as may be.
    #[error("too many locks")]
    Full,
    #[error("out of memory")]
    Memory,
}

/// Why no time was brought up.
#[derive(Clone, Copy, Debug, PartialEq, Eq, Error)]
pub enum RefreshError {
    /// The token isn't live.
    #[error("the lock is dead")]
    Dead,
}

/// Why no ledger was read.
#[derive(Clone, Copy, Debug, PartialEq, Eq, Error)]
pub enum LedgerError {
    /// The bytes are no lawful ledger's.
    #[error("no ledger")]
    Shape,
    #[error("out of memory")]
    Memory,
}

impl From<AllocError> for TicketError {
    ghost use Rattle.std.specs.Prelude.{◌≡◌};
    ghost use Rattle.repo_locks.specs.declared.outcomes.TicketError.{TicketError};

    ghost from_gives = { λ e r. r ≡ TicketError.Memory };

    fn from(_: AllocError) -> TicketError {
        TicketError::Memory
    }
}

impl From<AllocError> for LockError {
    ghost use Rattle.std.specs.Prelude.{◌≡◌};
    ghost use Rattle.repo_locks.specs.declared.outcomes.LockError.{LockError};

    ghost from_gives = { λ e r. r ≡ LockError.Memory };

    fn from(_: AllocError) -> LockError {
        LockError::Memory
    }
}

impl From<AllocError> for LedgerError {
    ghost use Rattle.std.specs.Prelude.{◌≡◌};
    ghost use Rattle.repo_locks.specs.declared.outcomes.LedgerError.{LedgerError};

    ghost from_gives = { λ e r. r ≡ LedgerError.Memory };

    fn from(_: AllocError) -> LedgerError {
        LedgerError::Memory
    }
}

impl<T: Drop> From<AllocFailed<T>> for LedgerError {
    ghost use Rattle.std.specs.Prelude.{◌≡◌};
    ghost use Rattle.repo_locks.specs.declared.outcomes.LedgerError.{LedgerError};

    ghost from_gives = { λ e r. r ≡ LedgerError.Memory };

    fn from(_: AllocFailed<T>) -> LedgerError {
        LedgerError::Memory
    }
}

impl From<RowError> for LedgerError {
    ghost use Rattle.std.specs.Prelude.{◌≡◌};
    ghost use Rattle.repo_locks.specs.LedgerBytes.{ledger_error};

    ghost from_gives = { λ e r. r ≡ ledger_error e };

    fn from(error: RowError) -> LedgerError {
        match error {
            RowError::Shape => LedgerError::Shape,
            RowError::Memory => LedgerError::Memory,
        }
    }
}
