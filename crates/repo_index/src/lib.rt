//! Indexes: which blobs lie where in which packs, as JSON texts (RFC 8259) in the manner of restic's design document
//! ("Indexing"), and look-up over many of them.
//!
//! An [`IndexText`] lists packs with the [`Fact`]s of each. A [`Lookup`] holds the facts of many indexes, and finds blobs;
//! [`Placed`] has them by their packs. The functions of [`laws`] are the laws of indexes.
//!
//! Promised: a writer gives the written text of its list, and it reads back; a reader gives the list of which the bytes
//! are a text, and an error but for memory only where there is none, the first in the text's order; look-up finds the
//! least place of a blob among the facts added. Not promised: that the packs are there, and hold these blobs.
//!
//! The definitions stand in `specs/`: `IndexText` (which bytes are an index, what it gives), `IndexFaults` (the first
//! fault of others), `IndexWriting`, `Exactness` (against the items of a pack), `Lookups`, `Order`, `Laws`.
#![tactic(auto)]

pub use facts::{Fact, Facts, PackFacts};
pub use faults::IndexError;
pub use index_text::IndexText;
pub use lookups::Lookup;
pub use placed::Placed;

mod bounds;
mod facts;
mod faults;
mod index_text;
mod keys;
pub mod laws;
mod lookups;
mod pack_facts;
mod placed;
mod reading;
mod writing;
