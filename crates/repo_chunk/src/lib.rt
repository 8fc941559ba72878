//! Content-defined chunking: where a stream of bytes is cut into chunks, in the manner of restic's chunker.
//!
//! A chunk ends at the least length, from a least one on, at which the low bits of Rabin's fingerprint of its last 64
//! bytes are zero, and at a greatest length if there is none. So equal stretches of two files are mostly cut alike.
//!
//! Promised: however a stream is cut into pieces, [`Chunker`] finds the cuts of the whole; each list has cuts, and no
//! others. No call takes memory. Not promised: how even the lengths are, and speed; a byte costs two look-ups at most,
//! and the first ones of a chunk, which cannot end it, cost none.
//!
//! The definitions stand in `specs/`: `Rabin` (the remainder), `Parameters`, `Cuts` (the rule), `Chunkers` (what a
//! chunker holds), `Runs` (a whole run), `Laws`, whose laws are the contracts of the functions of [`laws`], and for
//! the remainder of a window that moves on `Tables` and `Rolling`.
#![tactic(auto)]

pub use chunkers::{Chunker, Scan};
pub use parameters::{ParamError, Params};
pub use rabin::remainder;
pub use runs::report_cuts;

mod chunkers;
pub mod laws;
mod parameters;
mod rabin;
mod rolling;
mod runs;
mod tables;
