//! What keeps the bag of messages in order, by the kind of the event; and what that gives of versions. Each function is empty,
//! and its contract is the law.

ghost use Rattle.repo_runs.specs.BagLaws.{CrashesKeepBag, DeadKeepBag, DeleteKeepsBag, EachUpgradeHolds, EverySnapshotIsVersioned, FeedsKeepBag, LocksKeepBag, OldClientsAreFenced, PutKeepsBag, PutsAreOfVersion, ReadsKeepBag, RemovedLocksAreGone, RepliesKeepBag, StartsKeepBag, StrangersKeepBag, StrangersTicketsAreTheirs, UpgradeKeepsBag, UpgradedIsOfVersion};

/// A put that is delivered while its token is live keeps it so.
pub fn put_keeps_bag()
    ensures { PutKeepsBag }
{}

/// So does a delete that is delivered while its token is live and exclusive.
pub fn delete_keeps_bag()
    ensures { DeleteKeepsBag }
{}

/// So does a put under a token that isn't live, or a delete or an upgrade under one that isn't live and exclusive; and it changes
/// no object, and not the config.
pub fn dead_tokens_keep_bag()
    ensures { DeadKeepBag }
{}

/// So does a request that reads; and it changes nothing in the store.
pub fn reads_keep_bag()
    ensures { ReadsKeepBag }
{}

/// So does a request on tickets and locks; and it changes no object.
pub fn locks_keep_bag()
    ensures { LocksKeepBag }
{}

/// An upgrade that is delivered while its token is live and exclusive keeps the bag in order, and changes no object.
pub fn upgrade_keeps_bag()
    ensures { UpgradeKeepsBag }
{}

/// So does a client that takes the reply which it awaits.
pub fn replies_keep_bag()
    ensures { RepliesKeepBag }
{}

/// So does a client that takes an item; and it changes nothing in the store.
pub fn feeds_keep_bag()
    ensures { FeedsKeepBag }
{}

/// So does a client that starts.
pub fn starts_keep_bag()
    ensures { StartsKeepBag }
{}

/// So does a client that stops for good.
pub fn crashes_keep_bag()
    ensures { CrashesKeepBag }
{}

/// So does the store's answer to somebody who is no client and asks for anything that is no put, no deletion and no upgrade;
/// and it changes no object, not the config, no client and no message.
pub fn strangers_keep_bag()
    ensures { StrangersKeepBag }
{}

/// A lock that is removed so is gone, where the store's device doesn't fail.
pub fn removed_locks_are_gone()
    ensures { RemovedLocksAreGone }
{}

/// The number of a ticket that was given to somebody who is no client is never that of a client's ticket.
pub fn strangers_tickets_are_theirs()
    ensures { StrangersTicketsAreTheirs }
{}

/// A snapshot that is put under a live token is of the version that the store's config has then.
pub fn puts_are_of_version()
    ensures { PutsAreOfVersion }
{}

/// While a client works that knows version 1 alone, and its token is live, the store's config is of version 1, unless
/// the client sent an upgrade itself.
pub fn old_clients_are_fenced()
    ensures { OldClientsAreFenced }
{}

/// Where a client reports an upgrade the store's config is of version 2.
pub fn upgraded_is_of_version()
    ensures { UpgradedIsOfVersion }
{}

/// After any events each snapshot there is of a version that the store's config has, or of a lower one.
pub fn every_snapshot_is_versioned()
    ensures { EverySnapshotIsVersioned }
{}

/// Once a client reported an upgrade the store's config is of version 2, at every later time.
pub fn each_upgrade_holds()
    ensures { EachUpgradeHolds }
{}
