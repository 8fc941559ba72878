//! Which snapshots of a store are kept, and the forgetting of the others.
//!
//! [`keep`] gives the names of the snapshots that a [`Policy`] keeps: of each host the last ones, and the last of each
//! of the last days. A [`Forget`] is a job that deletes snapshots, those of the names given to it or those that a policy
//! doesn't keep; a session of repo_session around it is a client. A [`Prune`] is one that removes what no snapshot needs:
//! it moves used blobs to new packs, lists the packs that stay in new indexes, and deletes the others. [`Plan`] says what
//! a prune keeps of the packs and what it moves, by what the indexes say and which blobs are used. An [`Upgrade`] is a job
//! that makes a store's config one of version 2.
//!
//! Promised: `keep` gives just the names of the rows that the policy keeps, whatever their order. `would_forget` gives just
//! those that a forget would delete of the rows of all snapshots, in the order of these, and deletes nothing. A forget is a
//! client of repo_session, so each request was one that the exchanges before it allow, whoever answers: it deletes a listed
//! snapshot that is chosen, ascending, so each once, by a policy after all were read; it lists snapshots, by a policy it
//! gets each of them once, and it reads nothing else, and nothing after its first delete; and it puts nothing. `Forgotten`
//! comes only once the delete of each chosen one is done. Alone with its store it keeps it sound, ends well where the store
//! isn't one that only appends, forgets nothing where it is, and leaves just the others (`laws`). A plan keeps just the
//! packs of 1 to 4,096 blobs that are all used copies, and moves just the used copies of the others; of each used blob
//! that an index gives, the used copy is the one at the least place. A prune deletes nothing before all that it puts is
//! done and gives each blob that a listed snapshot needs, no pack before the old indexes, and each kind ascending;
//! blobs move in the order of their places; no pack that it puts was full before its last blob, by the config, and each
//! is with it, or nothing more waits to be moved; then each index lists only packs that were put or stay, of blobs that
//! are needed and that none before it lists, packs in the order of their names, 20,000 blobs or more and without its
//! last pack fewer, or nothing more waits to be listed; if an index names a pack that isn't listed, it ends `Missing` of
//! the least such pack, before it puts or deletes anything; it reads each snapshot and each index once, no pack as a whole,
//! and of a blob the place of its used copy, if it is a tree that a listed snapshot needs and that wasn't
//! received, or is the next that moves, if those that wait for its pack leave room in it. If a blob that moves comes bad,
//! the prune asks for the blob's other copies, in the order of their places, before it asks for anything else; it ends
//! with the bad blob only if each copy came bad. It reads nothing after its
//! first delete, and ends `Pruned` once each old index and each pack that no new index lists is deleted; alone with a
//! store that only appends it prunes no pack. An upgrade asks for one thing, once, where the config is of version 1,
//! and is `Upgraded` only where the config is of version 2. Not promised: that a store answers.
//!
//! The definitions stand in `specs/`: `Keeping` (what a policy keeps), `Forgetting` (which snapshots a forget may
//! delete, and how it may end), `Ascending` (in which order forgets and prunes delete); and what is known on the way:
//! `Walks` (how the rows of a host are gone down), `Picking`, `ForgetStates`; `Laws` (a forget alone with its store);
//! `Plans` (what a prune keeps and moves); `Reading`, `Unfound` and `Deciding` (its reading of trees, and what it decides
//! by them); `Unlisted` (a pack that an index names and that isn't listed); `Moving` (its new packs); `Indexing` and `Relisting` (its new indexes); `Deleting` (its deletes); `PruneStates`
//! (what is known in each of its stages); `Pruning` (what a prune may read, put and delete, and how it may end);
//! `Upgrading` and `UpgradeStates` (the same of an upgrade).
#![tactic(auto)]

mod advancing;
mod choices;
mod deciding;
mod deleting;
mod forgets;
mod indexing;
mod keeping;
mod laws;
mod listings;
mod moving;
mod picking;
mod plans;
mod prunes;
mod reading;
mod relisting;
mod replies;
mod standings;
mod unfound;
mod unlisted;
mod upgrades;

pub use choices::{Choice, ForgetError};
pub use forgets::Forget;
pub use keeping::{Policy, keep};
pub use laws::{
    foreseen_is_forgotten, forget_ends_well, forget_keeps_sound, forget_leaves_the_others,
    forget_of_append_only, prune_ends_well, prune_keeps_sound, prune_leaves_what_is_needed,
    prune_of_append_only, upgrade_changes_no_object, upgrade_ends_well,
};
pub use picking::would_forget;
pub use plans::Plan;
pub use prunes::Prune;
pub use upgrades::Upgrade;
