//! Tests of the public calls of clients: what is written and read while one is driven over a reader and a writer, which entries, hosts
//! and policies are refused, and which snapshots a policy keeps. The values are worked out by hand.
//!
//! They stand in a crate of their own since the proof of a crate with tests is made twice, with them and without.
#![tactic(auto)]

#[cfg(test)]
mod driving;
#[cfg(test)]
mod entries;
#[cfg(test)]
mod policies;
