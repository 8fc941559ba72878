//! Packs and indexes that a job writes.
//!
//! A job that adds to a store makes packs of blobs, and indexes of packs. A [`Packer`] holds the pack that is being
//! written and the one that is sealed; [`Counts`] count what was put; an `IndexText` of repo_index holds the packs that
//! wait to be listed, and [`is_full`] says when they are to be; [`put_pack`], [`put_index`] and [`put_text`] are the
//! requests.
//!
//! Promised: a sealed pack is a true one of just the blobs added, under its name, and is listed with exactly them;
//! an index lists what waited. Not promised: which blobs a job adds, and when it puts what; that is the job's own rule.
//!
//! The definitions stand in `specs/`: `Blobs` (blobs by kind and name), `Putting` (what was put, and is done; what an
//! index may list), `Sealing` (a sealed pack, and its listing), `Filling` (when a pack is full, and an index), `Writing`
//! (what is known of the trace), `Laws` (what may be added to a sound store).
#![tactic(auto)]

mod counts;
mod laws;
mod packers;
mod puts;
mod targets;

pub use counts::Counts;
pub use laws::{given_snapshot_is_sound, listed_index_is_sound};
pub use packers::Packer;
pub use puts::{is_full, put_index, put_pack, put_text};
pub use targets::Target;
