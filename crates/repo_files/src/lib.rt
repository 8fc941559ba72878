//! Files: a folder that is walked through for a backup, one that a restore is written into, and the disk on which a
//! store's folder is kept.
//!
//! A [`FolderWalk`] gives what a folder holds, as a source of a backup that feeds itself: its directories and its files,
//! one item after another, each file in pieces, so that nobody holds it all. Links, sockets and the like are left out, and
//! listed. A [`Restorer`] writes what a restore gives out: each file
//! under a temporary name until it is whole, and syncs all of it, each file by the handle that wrote it. Behind the close of a file its
//! length has to be right. Calls on paths that are interrupted are made again. [`is_safe_target`] says
//! whether another user could lead a restore of root elsewhere. A [`FileDisk`] is a store's folder as a
//! [`repo_disk::Disk`]: each of its calls is one or two calls of the system. It holds its folder, by a lock on a file, so
//! that there is one at a time. [`create_store`] and [`open_store`] look whether the folder may be made a store, or is
//! one, and give the shelf of `repo_folder` over it: `config`, `ledger`, and the objects as files named by their names in
//! lower-case hexadecimal, packs under `data/` and their first two digits, indexes under `index/`, snapshots under
//! `snapshots/`, as restic's design document has them; what is being written under `tmp/`. They touch nothing there that
//! isn't a store's own.
//!
//! Promised: no call goes wrong in memory, and each ends. A restorer takes the parts of a restore
//! in their order, and at such paths alone, so at none with `..` in it. A part of a file has the asked length. All folders
//! of a store were synced, as far as the system tells, before it is opened.
//!
//! Not promised: what a file holds, before or after. No contract can say so of a machine, and `faithful` is
//! never claimed here: that a file system does what the calls of a disk say is a premise of all that is proved of a store
//! in a folder. So no contract sees either that a link isn't followed, that a walk leaves nothing out
//! and goes in order, that a restorer replaces nothing, or that files of others stay: tests over
//! real folders and over a file system that stops after any call show these. It wants a file system whose
//! rename within a folder is atomic, whose syncs reach the disk, and whose locks on files keep others out.
//!
//! The definitions stand in `specs/`: `Restoring` (what a restorer takes, and where it stands); and in `specs/inner/`: `Places` (paths, and where they lie), `Unknown` (a disk of
//! which nothing is known).
#![tactic(auto)]

pub use file_disk::FileDisk;
pub use holding::HoldFile;
pub use restoring::{Restorer, RestorerError};
pub use safe_targets::is_safe_target;
pub use stores::{create_store, has_config, open_store};
pub use walk_ends::{Skipped, WalkError};
pub use walking::FolderWalk;

mod claims;
mod drafts;
mod file_disk;
mod folders;
mod grounds;
mod holding;
mod identities;
mod interruptions;
mod listings;
mod own_names;
mod phases;
mod places;
mod restoring;
mod rooms;
mod safe_targets;
mod stores;
mod system;
mod walk_ends;
mod walking;
