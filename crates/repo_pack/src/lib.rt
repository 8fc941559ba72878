//! Packs: many blobs in one object, in the manner of restic's design document ("Pack Format"),
//! without encryption.
//!
//! A pack is its blobs, one after another, then an entry of 37 bytes for each (its kind, its length in
//! four bytes, the lowest first, and its name), then the header's length in four bytes. A blob's offset
//! is the sum of the lengths before it. A pack has 1 to 4,096 blobs of 1 to 8,388,608 bytes each.
//!
//! Promised: what a [`PackWriter`] seals is a true pack of the blobs added, and [`PackView::read`] takes
//! exactly the bytes that stand in this layout, of which it shows each blob. Not promised: that a pack
//! that was read is true, unless [`PackView::all_named`] says so, or [`PackView::name_holds`] of each blob.
//!
//! The definitions stand in `specs/`: `PackLayout` (the layout, a true pack, offsets), `PackReading`
//! (what bytes show, and the fault of those that are no pack), `PackWriting` (a pack that is written).
#![tactic(auto)]

mod faults;
mod laws;
mod places;
mod rows;
mod views;
mod writers;

pub use faults::PackError;
pub use laws::{packs_are_one, ranges_are_items};
pub use places::{Entry, Place, PlacedBlob};
pub use views::PackView;
pub use writers::{PackWriter, Sealed, Unsealed};
