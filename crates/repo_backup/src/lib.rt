//! Backup of entries into a store.
//!
//! A [`Backup`] is a job of repo_session, and `Session<Backup>` its client. The entries handed in are checked, and
//! laid out as the steps of a walk through their folder. Once the store's indexes were read, the walk feeds the steps'
//! items to the work, which cuts files into chunks and makes the trees of directories; each of these blobs is added to
//! a pack, unless an index gives it or it was added before. Chunks that ended wait for their names, so that eight are
//! named side by side, which is faster than one by one: until there are eight, or 8,388,608 bytes of them, or the open
//! pack would be full with them, and at most until the file ends. So no pack is full before the chunk that makes it so
//! was taken. By a config of version 2 a directory is in parts, which are made from the last one to the first, each a
//! tree of its own; where a pack is full between two of them, it is put before the next one is made. A pack is put as
//! soon as it is full, and the last one at the end; an index whenever 20,000 blobs or more wait for one and at the
//! end; and the snapshot, of the config's version, last.
//!
//! Promised: entries are refused for the first fault of the first one that has one; each pack, index and snapshot that
//! is put is one that the rule of a backup allows after the exchanges before it, whoever answers; `Stored` comes only
//! once the snapshot's put is done, with the counts of what was put. Not promised: that a store answers, or that a
//! backup ends well.
//!
//! The definitions stand in `specs/`: `Handed` (which entries may be handed in), `Folders` (a folder, its entries,
//! nodes and blobs), `Rules` (what a backup may put, and how it may end); and what is known on the way: `Plans` (a
//! folder's steps, and the items that they feed), `Packings` (the packs), `Backing` (what is known of the trace),
//! `BackupStates` and `Backups` (where the job and the client stand). What any job knows that puts packs and indexes
//! stands in repo_writing, with when these are full.
//!
//! A [`PieceBackup`] does the same for a folder that nobody holds whole: it is fed items, one after another, that spell
//! the entries. It wants them once every index was read, while nothing is pending. An item is taken, of a piece maybe a
//! first part, or it isn't, for the first fault that it has or for want of memory, and then nothing of it is put. Where it
//! wants input no pack is full, and what waits for an index is less than 20,000 blobs (`FitsPieces`). `Stored` comes only
//! where the items ended, and then the snapshot spells what they spell; `Abandoned` where the last one gave up.
//!
//! `Items` says where items lead, which may be taken, and the first fault of others; `Standings` the same in chunks, and
//! what is made so far; `ItemLaws` that what they spell may be handed in. `PieceRules` says what such a backup may ask for,
//! when it may want input, and how it may end; what is known on the way stands in `PartsMade` (the parts of a directory),
//! `Waiting` (chunks that wait for their names), `Pieces` (the work, which both share), `PieceStates`, `PieceBackups` and
//! `PieceObedience`.
#![tactic(auto)]

mod added;
mod backups;
mod checks;
mod ended;
mod faults;
mod item_laws;
mod item_steps;
mod items;
mod laws;
mod packing;
mod parts;
mod piece_backing;
mod piece_backups;
mod piece_jobs;
mod piece_steps;
mod piece_works;
mod pieces;
mod plans;
mod sending;
mod steps;
mod walks;

pub use backups::Backup;
pub use faults::BackupError;
pub use item_laws::{
    end_is_last, example_is_spelled, faults_forbid, giving_up_is_last, items_lead, made_grows,
    made_of_all, spelled_are_handed, whole_is_spelled,
};
pub use item_steps::{ItemsError, lockstep_items};
pub use items::{FeedError, Item};
pub use laws::{
    backup_ends_well, backup_keeps_sound, fed_backup_ends_well, fed_backup_keeps_sound,
};
pub use piece_backups::PieceBackup;
pub use piece_steps::lockstep_fed;
