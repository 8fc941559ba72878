//! Connections to a server that are made one after another, and a job that is brought to its end over them.
//!
//! A connection is a channel that tells what goes over it ([`KnownChannel`]): a reader and a writer ([`Pair`]), or one in
//! memory that records all ([`Recorder`]). A [`Dial`] is a way to connect: an [`Address`], or a connection that is there
//! already ([`Once`]). [`drive_again`] carries a client's requests over one connection, as `drive_over` of `repo_session`
//! does, and where that ends, over the next one; [`bring`] does so with a job, and gives how it ended; [`ask_once`] asks one
//! request.
//!
//! Promised: over all its connections a client goes as over one, and the request that was pending goes first. Over each it
//! goes in turn: it hears only while the reply to a request is awaited that was said whole, and nothing else goes over
//! it. Where more than one may be made, nothing is said over any before its store was asked for its config, and exchanges
//! of the client stand only over connections that told one and the same, the first that was told. Where what a client
//! gave out isn't taken, the lock that is given back over the connection that stands is that of its own ticket; it is kept
//! where the job goes on over another one.
//! Not promised: that a connection can be had, or that a lock is given back where a connection broke.
//!
//! The definitions stand in `specs/`: `Ends` (what is known of a connection, and how it goes on), `Dialing` (connections,
//! tries, which store is met, what a driver gives), `Bringing` (a job that is brought on, and to its end, by its own rule),
//! `Recording` (what is recorded).
#![tactic(auto)]

mod again;
mod asking;
mod bringing;
mod dialing;
mod ends;
mod farewells;
mod peers;
mod recording;

pub use again::{TryError, drive_again};
pub use asking::ask_once;
pub use bringing::{bring, bring_into};
pub use dialing::{Address, Dial, Once};
pub use ends::{KnownChannel, Pair, pair_of, reader_of};
pub use recording::{Recorder, Tape, Went};
