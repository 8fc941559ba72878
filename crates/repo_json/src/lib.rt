//! JSON, as the texts of indexes, trees, snapshots and configs are made of it.
//!
//! Promised: [`parse`] gives the one value that some bytes read as (RFC 8259), and tells bytes that are no
//! JSON; [`hex_name`] gives the name of which a text is the hexadecimal, and tells a text that is no name's.
//! Not promised: what members a value has, or how long a text may be; each format says so itself.
//!
//! The definitions stand in `specs/`: `JsonText` (bytes that are JSON, the members of an object), `Listing`
//! (the items of a list, one after another), `JsonNames` (texts that are names).
#![tactic(auto)]

mod names;
mod parsing;

pub use names::hex_name;
pub use parsing::{JsonError, parse};
