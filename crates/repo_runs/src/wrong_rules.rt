//! What wrong rules break, as examples of what the right ones are for, by the definitions alone. Each function is empty, and
//! its contract is the law; each wrong rule stands in a file of definitions of its own.

ghost use Rattle.repo_runs.specs.WrongDeletes.{DeletesForEverBreakBag};
ghost use Rattle.repo_runs.specs.WrongLocks.{GrantsAgainBreakBag};
ghost use Rattle.repo_runs.specs.WrongPacksFirst.{PacksFirstBreakSound};
ghost use Rattle.repo_runs.specs.WrongListedPacks.{UnkeptBreakSound};
ghost use Rattle.repo_runs.specs.WrongSnapshots.{SnapshotFirstBreaksSound};
ghost use Rattle.repo_runs.specs.WrongReplies.{TakesAnyBreakBag};

/// A store that deletes under any token that was ever granted: what a client got may go while its token is live.
pub fn deletes_for_ever_break_bag()
    ensures { DeletesForEverBreakBag }
{}

/// A store that grants the lock of a dead token again: what its client got is to be there again, and isn't.
pub fn grants_again_break_bag()
    ensures { GrantsAgainBreakBag }
{}

/// A prune that deletes packs before the old indexes: an index names a pack that isn't there.
pub fn packs_first_break_sound()
    ensures { PacksFirstBreakSound }
{}

/// A prune that fixes what it deletes before it repacks: a new index names a pack that isn't there.
pub fn unkept_break_sound()
    ensures { UnkeptBreakSound }
{}

/// A backup that puts its snapshot before its index: nothing gives the snapshot's tree.
pub fn snapshot_first_breaks_sound()
    ensures { SnapshotFirstBreaksSound }
{}

/// A client that takes any reply to its instance: it got bytes under a name under which they were never put.
pub fn takes_any_break_bag()
    ensures { TakesAnyBreakBag }
{}
