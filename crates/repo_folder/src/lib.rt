//! The shelf in a folder on a disk.
//!
//! A [`DirShelf`] keeps a store on any [`repo_disk::Disk`]: `config`, `ledger`, and each object as a file of its name in
//! lower-case hexadecimal, packs in a folder for each first byte. A file is written under another name, synced, renamed
//! into its place, and its folder synced, before the call is acknowledged. Files of other names are passed over. No call
//! answers from what may still be undone: all folders are synced where that isn't known, from the top down.
//!
//! Promised: over a faithful disk it is an honest shelf, with all laws of one; `create` makes an empty store, also where
//! a making was cut off; `open`, `kill` and `cut` leave the store as it was, whatever failed before. So what was
//! acknowledged or answered is never undone, and a call that failed made its change whole, once and for all, or not.
//! Not promised: that a disk of the outside world is faithful, and that nobody else writes to it.
//!
//! The definitions stand in `specs/`: `Folders` (what a folder asks of its disk, and what its calls do), `Spelling` (the
//! store that files spell), `Ledgers` (the ledger that bytes spell), `Listings` (names of objects in a folder), `Lives`
//! (what calls, kills and cuts, one after another, come to), `Laws`.
#![tactic(auto)]

mod dir_shelf;
mod folders;
mod keeping;
pub mod laws;
mod listing;
mod lives;
mod opening;
mod pages;
mod places;
mod syncing;
mod telling;
mod turns;
mod unopened;

pub use dir_shelf::DirShelf;
pub use folders::{Folder, Standing};
pub use places::{CONFIG, LEDGER, is_draft};
pub use turns::{Turn, live};
pub use unopened::Unopened;
