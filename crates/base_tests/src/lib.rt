//! Tests of SHA-256 in lanes and of the formats: names, rows, chunks, packs, indexes, trees, small texts, frames and
//! ledgers, and of walks over trees, against values from outside.
//!
//! They stand in a crate of their own since the proof of a crate with tests is made twice, with them and without. A test is a
//! list of steps with no branch between them: each counts in a [`trials::Trial`] what is not as wanted. What bytes are read as
//! stands in the lines of `texts` and `bytes`, along which `formats` goes.
#![tactic(auto)]

#[cfg(test)]
mod bytes;
#[cfg(test)]
mod chunks;
#[cfg(test)]
mod entries;
#[cfg(test)]
mod formats;
#[cfg(test)]
mod frames;
#[cfg(test)]
mod growth;
#[cfg(test)]
mod ledgers;
#[cfg(test)]
mod limits;
#[cfg(test)]
mod lookups;
#[cfg(test)]
mod names;
#[cfg(test)]
mod packs;
#[cfg(test)]
mod sha;
#[cfg(test)]
mod spelling;
#[cfg(test)]
mod texts;
#[cfg(test)]
mod trials;
#[cfg(test)]
mod turns;
#[cfg(test)]
mod walks;
