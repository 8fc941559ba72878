//! Why a script isn't played to its end.

use repo_store::Unwritten;
use std::alloc::{AllocError, AllocFailed};
use thiserror::Error;

/// Why a script isn't played to its end. The lines before the one at which it stopped were run, and what they print was
/// written.
#[derive(Clone, Copy, Debug, PartialEq, Eq, Error)]
pub enum PlayError {
    /// The reader failed. Just the lines were run that had ended in what was read.
    #[error("read failed")]
    Read,
    /// The writer failed, or took nothing: of what one more line prints a first part was written, or nothing, but not all.
    #[error("write failed")]
    Write,
    /// The line of this number, counted from 1, isn't understood: its bytes are no line, or it names a client that isn't there
    /// or that reported no snapshot.
    #[error("line {0}: not understood")]
    Line(u64),
    /// There are more than 2^32 lines, or a line takes 2^32 steps, or there were 2^48 reads.
    #[error("limit")]
    Limit,
    #[error("out of memory")]
    Memory,
}

impl From<AllocError> for PlayError {
    ghost use Rattle.std.specs.Prelude.{◌≡◌};
    ghost use Rattle.repo_play.specs.declared.faults.PlayError.{PlayError};

    ghost from_gives = { λ e r. r ≡ PlayError.Memory };

    fn from(_: AllocError) -> PlayError {
        PlayError::Memory
    }
}

/// Why a message wasn't carried to its other end.
#[derive(Clone, Copy, Debug, PartialEq, Eq, Error)]
pub enum CarryError {
    /// Its frame has more than 65,536 bytes, which may be more than a connection takes before anybody reads from it.
    #[error("frame too large for loop")]
    TooLarge,
    /// The connection couldn't be made.
    #[error("not reached")]
    NotReached,
    /// The reader failed, or ended before the message was whole.
    #[error("read failed")]
    Read,
    /// The writer failed, or took nothing.
    #[error("write failed")]
    Write,
    /// What came out isn't what went in.
    #[error("malformed")]
    Malformed,
    #[error("out of memory")]
    Memory,
}

impl From<AllocError> for CarryError {
    ghost use Rattle.std.specs.Prelude.{◌≡◌};
    ghost use Rattle.repo_play.specs.declared.faults.CarryError.{CarryError};

    ghost from_gives = { λ e r. r ≡ CarryError.Memory };

    fn from(_: AllocError) -> CarryError {
        CarryError::Memory
    }
}

impl<T: Drop> From<AllocFailed<T>> for CarryError {
    ghost use Rattle.std.specs.Prelude.{◌≡◌};
    ghost use Rattle.repo_play.specs.declared.faults.CarryError.{CarryError};

    ghost from_gives = { λ e r. r ≡ CarryError.Memory };

    fn from(_: AllocFailed<T>) -> CarryError {
        CarryError::Memory
    }
}

impl From<Unwritten> for CarryError {
    ghost use Rattle.std.specs.Prelude.{◌≡◌};
    ghost use Rattle.repo_play.specs.declared.faults.CarryError.{CarryError};

    ghost from_gives = { λ e r. r ≡ CarryError.Write };

    fn from(_: Unwritten) -> CarryError {
        CarryError::Write
    }
}

/// Why a script whose messages are carried isn't run to its end.
#[derive(Clone, Copy, Debug, PartialEq, Eq, Error)]
pub enum LoopError {
    /// It isn't played to its end.
    #[error("{0}")]
    Play(PlayError),
    /// A message wasn't carried. The lines before the one at which it stopped were run, and what they print was written.
    #[error("{0}")]
    Carry(CarryError),
}

impl From<PlayError> for LoopError {
    ghost use Rattle.std.specs.Prelude.{◌≡◌};
    ghost use Rattle.repo_play.specs.declared.faults.LoopError.{LoopError};

    ghost from_gives = { λ e r. r ≡ LoopError.Play e };

    fn from(error: PlayError) -> LoopError {
        LoopError::Play(error)
    }
}

impl From<AllocError> for LoopError {
    ghost use Rattle.std.specs.Prelude.{◌≡◌};
    ghost use Rattle.repo_play.specs.declared.faults.LoopError.{LoopError};
    ghost use Rattle.repo_play.specs.declared.faults.PlayError.{PlayError};

    ghost from_gives = { λ e r. r ≡ LoopError.Play PlayError.Memory };

    fn from(_: AllocError) -> LoopError {
        LoopError::Play(PlayError::Memory)
    }
}

/// Why a line isn't run.
#[derive(Clone, Copy, Debug, PartialEq, Eq)]
pub enum Halt {
    /// It makes no sense where it stands.
    Nonsense,
    /// It takes too many steps.
    Limit,
    /// A message wasn't carried.
    Carry(CarryError),
    Memory,
}

impl From<AllocError> for Halt {
    ghost use Rattle.std.specs.Prelude.{◌≡◌};
    ghost use Rattle.repo_play.specs.declared.faults.Halt.{Halt};

    ghost from_gives = { λ e r. r ≡ Halt.Memory };

    fn from(_: AllocError) -> Halt {
        Halt::Memory
    }
}

impl From<CarryError> for Halt {
    ghost use Rattle.std.specs.Prelude.{◌≡◌};
    ghost use Rattle.repo_play.specs.declared.faults.Halt.{Halt};

    ghost from_gives = { λ e r. r ≡ Halt.Carry e };

    fn from(error: CarryError) -> Halt {
        Halt::Carry(error)
    }
}

impl<T: Drop> From<AllocFailed<T>> for Halt {
    ghost use Rattle.std.specs.Prelude.{◌≡◌};
    ghost use Rattle.repo_play.specs.declared.faults.Halt.{Halt};

    ghost from_gives = { λ e r. r ≡ Halt.Memory };

    fn from(_: AllocFailed<T>) -> Halt {
        Halt::Memory
    }
}
