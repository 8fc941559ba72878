//! Why `frames` ended before the input did.

use repo_store::ServiceError;
use repo_wire::Fault;
use std::alloc::AllocError;
use thiserror::Error;

/// Why `frames` ended before the input did. The requests before it were answered, and their replies
/// written, but after `Write`, `Limit` and `Memory`, where some first part of them was.
#[derive(Clone, Copy, Debug, PartialEq, Eq, Error)]
pub enum FramesError {
    /// The reader failed.
    #[error("read failed")]
    Read,
    /// The writer failed, or took nothing.
    #[error("write failed")]
    Write,
    /// This line, counted from 1, isn't hexadecimal: a byte is no digit, or their number is odd.
    #[error("line {0}: not hexadecimal")]
    Hex(u64),
    /// The stream has this fault.
    #[error("{0}")]
    Wire(Fault),
    /// The input ends inside a frame.
    #[error("end of input inside a frame")]
    Inside,
    /// 2^32 requests were answered, or 2^48 reads made.
    #[error("limit")]
    Limit,
    /// There was no memory.
    #[error("out of memory")]
    Memory,
}

impl From<AllocError> for FramesError {
    ghost use Rattle.std.specs.Prelude.{◌≡◌};
    ghost use Rattle.repo_prog.specs.declared.errors.FramesError.{FramesError};

    ghost from_gives = { λ e r. r ≡ FramesError.Memory };

    fn from(_: AllocError) -> FramesError {
        FramesError::Memory
    }
}

impl From<ServiceError> for FramesError {
    ghost use Rattle.std.specs.Prelude.{◌≡◌};
    ghost use Rattle.repo_prog.specs.Talks.{frames_error};

    ghost from_gives = { λ e r. r ≡ frames_error e };

    fn from(error: ServiceError) -> FramesError {
        match error {
            ServiceError::Wire(fault) => FramesError::Wire(fault),
            ServiceError::Write => FramesError::Write,
            ServiceError::Limit => FramesError::Limit,
            ServiceError::Memory => FramesError::Memory,
        }
    }
}
