//! What a shelf tells of what came of a disk's call.

ghost use Rattle.std.specs.Prelude.{◌≡◌};
ghost use Rattle.repo_folder.specs.Spelling.{told};

use repo_disk::DiskError;
use repo_store::ShelfError;

/// What a shelf tells of what came of a call.
pub fn told<T>(outcome: Result<T, DiskError>) -> Result<T, ShelfError>
    ensures { result ≡ told outcome }
{
    match outcome {
        Ok(value) => Ok(value),
        Err(DiskError::Failed) => Err(ShelfError::Fault),
        Err(DiskError::Memory) => Err(ShelfError::Memory),
    }
}
