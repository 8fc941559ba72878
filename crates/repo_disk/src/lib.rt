//! A disk, as a store's folder is kept on it.
//!
//! [`Disk`] is what a store's folder asks of a file system, call by call. [`MemDisk`] is one in memory, of which it
//! can be chosen what each call does, and what a power cut leaves. [`Stopping`] is a disk that stops after some calls.
//!
//! Promised: both are faithful, so all that is proved over faithful disks holds of them, with power cuts. Each
//! content that a cut may leave, in plain words, is what the names come to in some run, and no other content is. Not promised: that a disk of the outside world is faithful.
//!
//! The definitions stand in `specs/`: `Disks` (what a disk has, what that comes to, and what each call does to it),
//! `Cuts` (what a cut may leave, in plain words, and the laws), `Drafts` (names of files that are
//! being written), `Memory` (what a disk in memory has).
#![tactic(auto)]

mod choices;
mod disks;
mod files;
pub mod laws;
mod logs;
mod memory;
mod rooms;
mod stopping;
mod young;

pub use choices::{Choice, Comes};
pub use disks::{Cuts, Disk, DiskError};
pub use files::{File, Part};
pub use memory::MemDisk;
pub use rooms::Room;
pub use stopping::Stopping;
