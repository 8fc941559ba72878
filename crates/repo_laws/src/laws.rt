//! What holds of several jobs together, by the definitions alone. Each function is empty, and its contract is the law.

ghost use Rattle.repo_laws.specs.Laws.{RestoredIsFed, RestoredIsFirst, RestoredIsFirstOfFed, RestoredIsHanded};

/// A restore of the snapshot that a backup reported as stored, after it and alone with the same store, gives out
/// the entries that were handed to the backup, where it reports that it gave out all.
pub fn restored_is_handed()
    ensures { RestoredIsHanded }
{}

/// However far such a restore came, and however it ended, what it gave out is the first of the entries that were handed to the
/// backup; where a file is open, the first bytes of it.
pub fn restored_is_first()
    ensures { RestoredIsFirst }
{}

/// One that reports that it gave out all, of a snapshot that a backup reported as stored which fed itself, gives out what the
/// items spell that it was fed, and that is what its source was made to give, where that is known.
pub fn restored_is_fed()
    ensures { RestoredIsFed }
{}

/// However far such a restore came, and however it ended, what it gave out is the first of that; where a file is open, the first
/// bytes of it.
pub fn restored_is_first_of_fed()
    ensures { RestoredIsFirstOfFed }
{}
