//! Why no line is read.

use std::alloc::AllocError;
use thiserror::Error;

/// Why no line is read.
#[derive(Clone, Copy, Debug, PartialEq, Eq, Error)]
pub enum LineError {
    /// The bytes are no line of a script.
    #[error("not understood")]
    NotUnderstood,
    #[error("out of memory")]
    Memory,
}

impl From<AllocError> for LineError {
    ghost use Rattle.std.specs.Prelude.{◌≡◌};
    ghost use Rattle.repo_script.specs.declared.faults.LineError.{LineError};

    ghost from_gives = { λ e r. r ≡ LineError.Memory };

    fn from(_: AllocError) -> LineError {
        LineError::Memory
    }
}
