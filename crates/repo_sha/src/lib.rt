//! SHA-256 (FIPS 180-4) in vector lanes.
//!
//! Of one message the schedules of eight blocks are made side by side, and the rounds word by word, since each needs the
//! one before it. Of many pieces eight go through all rounds side by side, each in a lane of its own, and where a piece
//! ends the next takes its lane.
//!
//! Promised: [`digest`] and [`digests`] are the standard's function of the bytes, at every length. Not promised: speed.
//! The processor is chosen when a program is built; on one with vectors of 256 bits lanes gain most.
//!
//! What SHA-256 is stands in the kit's crate `sha2`, and here nothing but it is cited. The definitions in `specs/` are
//! `Pieces` (the pieces of some bytes), `Messages` (a padded message as blocks), `Lanes` (what stands in a lane),
//! `Schedules` (eight schedules side by side), and `Batches` (how pieces go through lanes).
#![tactic(auto)]

mod batches;
mod constants;
mod lane_rounds;
mod lanes;
mod messages;
mod pieces;
mod rounds;
mod schedules;
mod streams;
mod turns;

pub use batches::digests;
pub use streams::digest;
