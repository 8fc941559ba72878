//! What a store gives back: the list of its snapshots, and a snapshot's directories and files.
//!
//! A [`SnapshotList`] is a job that lists the store's snapshots and reads each of them. A [`Restore`] is one
//! that gives out the directories and files of a snapshot, in order, a file by pieces: it reads the snapshot and
//! the indexes, and walks over the trees, depth first. A session of repo_session around each is its client.
//!
//! Promised: each request was one that the exchanges before it allow, whoever answers: a list reads snapshots alone, and a
//! restore its snapshot, then all indexes, each once, and then, from its least place, always the blob that comes next behind
//! what was given out, and it once: nothing is held back, and nothing read ahead or again ([`next_is_reached`]). `Listed`
//! comes only where the snapshots were listed to their end, and gives each of them, in order, as the bytes that were read under its name say. `Complete` comes only where what was given out is what the
//! snapshot's tree spells in the blobs that were received, which have the names that indexes which were read give
//! them; each part given out is a piece of such a blob, or a directory or a file that a tree which was received has
//! at its path; all that was given out so far, however the restore ends, is a beginning of what the snapshot's tree spells;
//! each file that is closed has just the bytes that a tree lists there; and all this holds over any replies
//! ([`restored_is_what_came`], [`given_is_what_came`], [`given_is_a_beginning`], [`closed_is_whole`]). A blob that no index
//! gives, a file whose blobs haven't its size and a tree that no directory has are told only where all that comes before was
//! given out: it is the blob, the file or the tree that comes next, of a file's blobs the first missing one, and the tree is
//! broken just there. Not promised: that a store answers, or that a list or a restore ends well.
//!
//! The definitions stand in `specs/`: `Listing` (when a list may be told), `Beginnings` (what a tree spells first),
//! `Positions` (which blob comes next, and where a tree that does is broken), `Restoring` (what a restore may ask, give out and
//! tell, over the trees of repo_session's `Trees`); and what is known on the way: `ListStates`, `Walks`, `Nodes`, `Walking` and
//! `Moves` (where a walk over trees stands, what its steps give, and how each brings it on), `RestoreStates`.
#![tactic(auto)]

mod laws;
mod listings;
mod nodes;
mod restores;
mod steps;
mod walks;

pub use laws::{
    closed_is_whole, first_is_of_all, given_is_a_beginning, given_is_what_came,
    list_changes_nothing, list_ends_well, next_is_reached, restore_changes_nothing,
    restore_ends_well, restore_gives_first, restored_is_what_came,
};
pub use listings::SnapshotList;
pub use restores::Restore;
