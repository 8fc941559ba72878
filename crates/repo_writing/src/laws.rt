//! What may be added to a sound store, by the definitions alone. Each function is empty, and its contract is the law.

ghost use Rattle.repo_writing.specs.Laws.{ListedIsSound, GivenIsSound};

/// An index is a sound one that lists packs which were put, with exactly their blobs, and packs of which it has exactly
/// the facts that indexes gave which were read: where what was got and put is still there.
pub fn listed_index_is_sound()
    ensures { ListedIsSound }
{}

/// A snapshot is a sound one whose tree spells some entries in items that indexes give which were read or put: where what
/// was got and put is still there, and no two of the blobs held and of these items have one name.
pub fn given_snapshot_is_sound()
    ensures { GivenIsSound }
{}
