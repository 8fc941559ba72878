//! What holds of a walk, by its definitions alone. The function is empty, and its contract is the law.

ghost use Rattle.repo_reach.specs.Laws.{UsedIsReached};

/// Where nothing is left to look at, and each tree that was seen was read, what the walk came upon in a way is what the
/// roots of this way reach, by the version of their snapshots: the trees that were looked at so, and the content of those
/// at paths of fewer than 100 components.
pub fn used_is_reached()
    ensures { UsedIsReached }
{}
