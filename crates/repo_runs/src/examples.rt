//! That the definitions can be met, by the definitions alone. Each function is empty, and its contract is the law.

ghost use Rattle.repo_runs.specs.Backed.{BackupIsARun, ForgetIsARun, PruneIsARun, RestoreIsARun};
ghost use Rattle.repo_runs.specs.Example.{ExampleIsARun};
ghost use Rattle.repo_runs.specs.Lone.{FedBackupIsARun, LoneTalkIsARun};
ghost use Rattle.repo_runs.specs.SomeTexts.{NothingClashesInRuns, TextsAreApart};

/// A client that talks alone with the world's store, from its ticket to its end, as it owes it, is a part of a run: so a run
/// may come to all that jobs come to one after another, each alone with the store that the one before it left. So is one that
/// was fed some items between its exchanges, where it might be.
pub fn lone_talk_is_a_run()
    ensures { LoneTalkIsARun }
{}

/// A backup that feeds itself, as `vault backup` does, and talks alone with the world's store to its end, is a part of a run, as a
/// backup that is fed, with some items between its exchanges.
pub fn fed_backup_is_a_run()
    ensures { FedBackupIsARun }
{}

/// The definitions can be met: eight events are a run, in which a call of the store's device fails, a message is delivered late,
/// a lock is removed and the store is opened anew, and no two byte lists clash in its last world.
pub fn example_is_a_run()
    ensures { ExampleIsARun }
{}

/// What a backup owes can be met to its end: with any texts as they are written, a run leads to a world with one client, a backup
/// of an empty folder, which is reported as stored; its snapshot, its index and its pack are there. Nothing clashes in that world,
/// nor in the last ones of the next three laws, where no two of these texts and the tree have one name, and none but the index
/// reads as an index that says a fact.
pub fn backup_is_a_run()
    ensures { BackupIsARun }
{}

/// So can that of a restore: a second client, which starts after that world, restores the snapshot, and is complete.
pub fn restore_is_a_run()
    ensures { RestoreIsARun }
{}

/// So can that of a prune: a second client, which starts after that world, prunes the store, and is done. It put the index again; and
/// the pack, whose tree the snapshot needs, the index and the snapshot are there still.
pub fn prune_is_a_run()
    ensures { PruneIsARun }
{}

/// So can those of a forget and of a prune that deletes: a second client, which starts after that world, forgets the snapshot; and a
/// third, which starts after that, prunes the store: it deletes the index and the pack, and no object is left.
pub fn forget_is_a_run()
    ensures { ForgetIsARun }
{}

/// There are such texts: a config, a pack of the empty tree, its index and a snapshot, as they are written, are within their limits,
/// no two of them and the tree have one name, and none but the index says a fact. The proof computes their digests.
pub fn some_texts_are_apart()
    ensures { TextsAreApart }
{}

/// So nothing clashes in the last world of a run in which that snapshot is stored, of one in which after that a restore of it is
/// complete, of one in which after that a prune is done, and of one in which after that it is forgotten, and then the store pruned:
/// the premise of the laws of all runs can be met there.
pub fn nothing_clashes_in_runs()
    ensures { NothingClashesInRuns }
{}
