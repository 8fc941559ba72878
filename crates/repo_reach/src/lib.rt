//! Which blobs the trees of a store's snapshots reach.
//!
//! [`Trees`] walks over the trees of some roots, depth first, and asks for each tree once. Below the root of a snapshot of
//! version 2 directories go on along `next`, at their own depth; below another each is one tree. The walk looks at a tree
//! again where it is reached in the other way, or at another depth, since trees stand at paths of at most 100 components,
//! and one that does at one path may be too deep at another; that takes no request.
//!
//! Promised: at the end each tree that the roots reach was looked at, in each way and at each depth in which it is reached,
//! and no other was; and a tree that breaks its directory was told. Not promised: that a tree's blob is there, or can be
//! read; a tree that isn't is passed over, and whoever walks knows of it.
//!
//! The definitions stand in `specs/`: `Links` (what a tree's nodes lead to), `Joints` (a tree as a part of a directory),
//! `Collected` (what is reached), `Breaking` (why no directory has a tree), `Walks` (where a walk stands, and its steps),
//! `Laws` (what a walk that is done came upon), `Used` (that as a value).
#![tactic(auto)]

mod breaking;
mod joints;
mod laws;
mod links;
mod looks;
mod roots;
mod trees;
mod used;

pub use joints::{Ends, Joint, Next, read_with_next};
pub use laws::used_is_reached;
pub use links::Links;
pub use looks::Seen;
pub use roots::Root;
pub use trees::{Trees, Turn};
pub use used::Used;
