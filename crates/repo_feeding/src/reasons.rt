//! Why a backup was given up.

ghost use Rattle.std.specs.Prelude.{◌≡◌, ◌↔◌, IsTrue};
ghost use Rattle.repo_backup.specs.declared.items.FeedError.{FeedError};
ghost use Rattle.repo_feeding.specs.declared.reasons.GivenUp.{GivenUp};

use repo_backup::FeedError;

/// Why a backup was given up.
#[derive(Debug, Drop)]
pub enum GivenUp<E: Drop> {
    /// The source failed, for this reason.
    Source(E),
    /// The item that came next wasn't taken, for this reason.
    Refused(FeedError),
    /// It was fed without end: of a source of which that is known, 2^127 items and bytes at least.
    Endless,
}

impl<E: Drop> GivenUp<E> {
    /// Whether there was no memory for an item.
    pub(crate) fn is_for_memory(&self) -> bool
        ensures { IsTrue result ↔ (self.now ≡ GivenUp.Refused FeedError.Memory) }
    {
        matches!(self, GivenUp::Refused(FeedError::Memory))
    }
}
