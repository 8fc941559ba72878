//! The server of many connections at once, in one thread: a thin layer of sockets around a [`repo_hall::Hall`].
//!
//! Each round gives every connection that is ready one turn, and a turn answers one request at most. Where
//! no connection moved, it waits until one can. Nothing is read from a connection that hasn't taken its last
//! reply, and nothing of a frame before the one in front of it was answered. Large frames that are being read
//! take no more memory together than was said, or there is only one of them. Others wait for room in a queue, in
//! the order in which they came; while some wait, one that comes too slowly loses its room.
//!
//! Promised: whatever the connections bring, what they were answered, in the order in which they were, is
//! one run of the store machine; and of each connection what its guest was given are the first bytes of the
//! frames of the replies to its own requests. Each turn goes on in turn: a connection brings more only once each
//! whole request that it brought was answered, and all replies were given. Where each went well, nothing was told
//! as a fault. Who waits for room is overtaken by nobody (`LargeFrames`), and waits
//! for each other connection once at most ([`queues_are_fair`]). Not promised, since a listener and a poll
//! tell no contract what they did: that anybody is served, and how long anybody waits.
//!
//! The definitions are those of `repo_hall`: `Halls.Hosted`, `HallLeads`, `Happenings.AreInTurn`; and in `specs/`
//! `Rooms` (room for large frames), `Times` (what time counts, and how long one may be idle), `Arriving` (when a
//! connection is looked for), `Endings` (how connections end).
#![tactic(auto)]

mod arrivals;
mod connections;
mod doors;
mod idling;
mod large_frames;
mod laws;
mod manners;
mod places;
mod progress;
mod servers;
mod sockets;
mod steps;
mod times;
mod waits;
mod wires;

pub use laws::queues_are_fair;
pub use manners::Manner;
pub use servers::serve_many;
pub use times::Served;
