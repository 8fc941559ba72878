//! Tests of what has to fail in the middle: stores, restorers and walks over a file system that stops or fails in a call, and
//! power cuts behind it; commands whose growth is refused. What the program does over real folders and sockets otherwise is
//! tried on the program itself (`trials/`), and what its commands print over replies by cases (`crates/cases`).
//!
//! They stand in a crate of their own since the proof of a crate with tests is made twice, with them and without.
#![tactic(auto)]

#[cfg(test)]
mod commands;
#[cfg(test)]
mod cutting;
#[cfg(test)]
mod fuses;
#[cfg(test)]
mod lasting;
#[cfg(test)]
mod restorers;
#[cfg(test)]
mod stores;
#[cfg(test)]
mod texts;
#[cfg(test)]
mod walking;
#[cfg(test)]
mod yards;
