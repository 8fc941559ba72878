//! Why a blob isn't added, or bytes aren't read.

use std::alloc::AllocError;
use thiserror::Error;

/// Why a writer refuses a blob, or why bytes are no pack.
#[derive(Clone, Copy, Debug, PartialEq, Eq, Error)]
pub enum PackError {
    /// The writer is due: it is to be sealed.
    #[error("the pack is due")]
    Closed,
    /// The blob has more than 8,388,608 bytes.
    #[error("the blob is too large for a pack")]
    TooLarge,
    /// There is no memory to add the blob, or to seal the pack.
    #[error("out of memory")]
    Memory,
    /// There are fewer than the four bytes of the header's length.
    #[error("the pack is too short")]
    Short,
    /// The header's length is 0, so there is no blob.
    #[error("the pack has no blob")]
    Empty,
    /// The header's length is no multiple of 37, above 151,552, or more than the bytes before it.
    #[error("the pack's header has a wrong length")]
    HeaderLength,
    /// An entry's kind is above 1.
    #[error("the pack has a blob of unknown kind")]
    BlobKind,
    /// An entry's length is 0 or above 8,388,608, or they aren't together the bytes before the header.
    #[error("the pack has blobs of wrong lengths")]
    Lengths,
}

impl From<AllocError> for PackError {
    ghost use Rattle.std.specs.Prelude.{◌≡◌};
    ghost use Rattle.repo_pack.specs.declared.faults.PackError.{PackError};

    ghost from_gives = { λ _ e. e ≡ PackError.Memory };

    fn from(_: AllocError) -> PackError {
        PackError::Memory
    }
}
