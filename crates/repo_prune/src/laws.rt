//! What holds of a forget, of a prune and of an upgrade that are alone with their store, by the definitions alone. Each
//! function is empty, and its contract is the law.

ghost use Rattle.repo_prune.specs.Laws.{ForgetKeepsSound, ForgetEndsWell, ForgetOfAppendOnly, ForeseenIsForgotten, ForgetLeavesTheOthers};
ghost use Rattle.repo_prune.specs.PruneLaws.{PruneKeepsSound, PruneEndsWell, PruneOfAppendOnly, PruneLeavesWhatIsNeeded};
ghost use Rattle.repo_prune.specs.UpgradeLaws.{UpgradeChangesNoObject, UpgradeEndsWell};

/// A forget alone with its store takes snapshots alone from it, and leaves a sound store sound: after every exchange,
/// whatever the store answers, and also where the store is one step ahead of it. Premise: no two of the objects, and of
/// the blobs in packs, have one name.
pub fn forget_keeps_sound()
    ensures { ForgetKeepsSound }
{}

/// A forget alone with a store in which it finds all that it wants, which isn't one that only appends, and whose device
/// doesn't fail, ends `Forgotten`, or the store had no memory.
pub fn forget_ends_well()
    ensures { ForgetEndsWell }
{}

/// A forget alone with a store in which it finds all that it wants, which only appends, and whose device doesn't fail,
/// forgets nothing: it ends `Refused` for that mode, or `Forgotten` with no names, or the store had no memory. Such a
/// store keeps each of its objects, and the forget adds none.
pub fn forget_of_append_only()
    ensures { ForgetOfAppendOnly }
{}

/// What `would_forget` gives of the rows of all snapshots is what a forget deletes that finds the same ones.
pub fn foreseen_is_forgotten()
    ensures { ForeseenIsForgotten }
{}

/// Where a forget alone with its store tells what it forgot, the snapshots that stay are just those that aren't chosen:
/// by names those that weren't given, by a policy those of which it keeps a row among the snapshots of the store, by one
/// for a host also those of other hosts.
pub fn forget_leaves_the_others()
    ensures { ForgetLeavesTheOthers }
{}

/// A prune alone with its store leaves the snapshots as they are, and a sound store sound: after every exchange, whatever the
/// store answers, and also where the store is one step ahead. Premise: no two of the objects, of those that are put, and of the
/// blobs in their packs, have one name.
pub fn prune_keeps_sound()
    ensures { PruneKeepsSound }
{}

/// A prune alone with a store in which it finds all that it wants, which isn't one that only appends, and whose device
/// doesn't fail, is done at its end, or the store had no memory. Premise: as above.
pub fn prune_ends_well()
    ensures { PruneEndsWell }
{}

/// A prune alone with a store in which it finds all that it wants, which only appends, and whose device doesn't fail,
/// prunes no pack: it ends `Refused` for that mode, or `Pruned` with no packs, or the store had no memory. Such a store
/// keeps each of its objects, and the prune adds packs and indexes alone. Premise: as above.
pub fn prune_of_append_only()
    ensures { PruneOfAppendOnly }
{}

/// Where a prune alone with its sound store is done, the store has just what its snapshots need, once: the facts of its
/// indexes are of blobs that snapshots reach, each such blob has one fact, and so has each blob of each pack. Premise: as above.
pub fn prune_leaves_what_is_needed()
    ensures { PruneLeavesWhatIsNeeded }
{}

/// An upgrade alone with its store changes no object: after every exchange, whatever the store answers, and also where the store
/// is one step ahead.
pub fn upgrade_changes_no_object()
    ensures { UpgradeChangesNoObject }
{}

/// An upgrade alone with a store in which it finds all that it wants, whose versions it knows, and whose device doesn't fail, ends
/// `Upgraded`, or the store had no memory; also where the store only appends.
pub fn upgrade_ends_well()
    ensures { UpgradeEndsWell }
{}
