//! Many connections at once, without threads: each brings requests, and one whole request is answered at a time.
//!
//! A [`Hall`] is a table of [`Guest`]s. A guest is a connection as its bytes show it: what it brought and
//! wasn't answered yet, and what of the last reply wasn't given to it yet. Nothing here reads or writes a
//! socket. Of each guest one request is being read and one reply given at most, since none is answered
//! before the last reply was given whole; and the room of a large frame is given back.
//!
//! Promised: the shelf is where one run of the store machine leads, over the requests of all guests in the
//! order in which they were answered; of each guest the requests are those of its own stream, in their
//! order, each is answered once, and what it was given are the first bytes of their replies' frames. Where
//! each guest is joined to a client, that run is made of the clients' talks. Not promised: in which order
//! guests are answered, which is the caller's choice; nor that a guest brings more only once it was served
//! all that it brought, which is the caller's to keep (`AreInTurn`): more is awaited of it where it wasn't
//! answered, hasn't ended, and has nothing to be given.
//!
//! The definitions stand in `specs/`: `Happenings` (what happened in a hall, and to one guest of it, and
//! that it was in turn), `Guests` (what is done for a guest), `Halls` (how a hall stands after what happened), `Joined` (the law).
#![tactic(auto)]

mod guests;
mod halls;
mod laws;

pub use guests::Guest;
pub use halls::{Hall, HallError};
pub use laws::joined_hall_is_a_run;
