//! Why bytes are no index, and why an index isn't written.

ghost use Rattle.std.specs.Prelude.{◌≡◌, ◌≢◌, OnOk, OnErr};
ghost use Rattle.repo_index.specs.declared.faults.IndexError.{IndexError};

use repo_json::JsonError;
use std::alloc::AllocError;
use thiserror::Error;

/// Why an index isn't read or written. Writing knows `Memory` alone.
///
/// Of several reasons reading tells `Json` first. Then it goes through the text: a `Shape` of the whole, and then the
/// packs one after another, of each a `Shape` of its two members, a `Name` of its id, and its blobs one after another,
/// of each `Shape`, `Name` and `Range` in this order; at last what it supersedes, item by item `Shape` and `Name`.
/// `Memory` may come in place of any of them.
#[derive(Clone, Copy, Debug, PartialEq, Eq, Error)]
pub enum IndexError {
    /// The bytes are no JSON (RFC 8259).
    #[error("the bytes are no JSON")]
    Json,
    /// A member that is wanted is missing or of another type, or a blob's `type` is neither `data` nor `tree`.
    #[error("a member is missing or of another type")]
    Shape,
    /// An id or a superseded name isn't 64 digits in lower case.
    #[error("a name is not 64 digits in lower case")]
    Name,
    /// A blob has no byte or more than 8,388,608, or ends past the first 25,165,823 bytes of its pack.
    #[error("a blob is out of range")]
    Range,
    #[error("out of memory")]
    Memory,
}

impl IndexError {
    /// Fails where there was no memory to read an index, and there alone: else its bytes are at fault.
    pub fn check_fault(self) -> Result<(), AllocError>
        ensures fault { OnOk result (self ≢ IndexError.Memory) }
        ensures memory { OnErr result (self ≡ IndexError.Memory) }
    {
        match self {
            IndexError::Memory => Err(AllocError),
            _ => Ok(()),
        }
    }
}

impl From<AllocError> for IndexError {
    ghost use Rattle.std.specs.Prelude.{◌≡◌};
    ghost use Rattle.repo_index.specs.declared.faults.IndexError.{IndexError};

    ghost from_gives = { λ e r. r ≡ IndexError.Memory };

    fn from(_: AllocError) -> IndexError {
        IndexError::Memory
    }
}

impl From<JsonError> for IndexError {
    ghost use Rattle.std.specs.Prelude.{◌≡◌};
    ghost use Rattle.repo_index.specs.IndexFaults.{index_error};

    ghost from_gives = { λ e r. r ≡ index_error e };

    fn from(error: JsonError) -> IndexError {
        match error {
            JsonError::Json => IndexError::Json,
            JsonError::Memory => IndexError::Memory,
        }
    }
}
