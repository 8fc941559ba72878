//! Trees, snapshots and the config of a repository as JSON texts (RFC 8259), in the manner of restic, and what a
//! tree spells.
//!
//! A tree lists the [`Node`]s of a directory, a [`Snapshot`] names the tree of a root, a [`Config`] fixes a
//! repository's rules. A tree in a set of blobs spells the [`Entry`]s of a backup, and reaches the blobs that it needs.
//!
//! Promised: a writer gives the written text of its value, and it reads back; a reader gives the value of which the
//! bytes are a text, and an error but for memory only where there is none, the first of its order; bytes are the text
//! of one value at most. The functions of [`laws`] are the laws of what trees spell and reach. Not promised: that a
//! read asks for no more memory than it needs, and that a set of blobs has no clash of names.
//!
//! The definitions stand in `specs/`: `Components`, `ShortJson`, `TreeText` (which bytes are a tree's text, and the
//! first fault of others), `TreeWriting`, `Versions`, `SnapshotText`, `ConfigText`, `Parts` (directories in one tree and in
//! parts, by the version of a snapshot), `PartReading`, `PartWriting` (the parts that the nodes of a directory get, and their
//! texts), `PartSizes` (how long they are), `Spelling`, `Laws`.
#![tactic(auto)]

pub use components::is_component;
pub use configs::Config;
pub use entries::{Entry, EntryKind};
pub use faults::{TextError, TreeError};
pub use nodes::{Node, NodeKind};
pub use part_cutting::part_sizes;
pub use part_reading::read_part;
pub use part_writing::write_part;
pub use paths::{Path, is_below, is_path};
pub use snapshots::Snapshot;
pub use tree_reading::read_tree;
pub use tree_writing::write_tree;
pub use versions::GREATEST_VERSION;

mod components;
mod configs;
mod entries;
mod faults;
mod json;
pub mod laws;
mod nodes;
mod part_cutting;
mod part_reading;
mod part_writing;
mod paths;
mod snapshots;
mod tree_reading;
mod tree_writing;
mod versions;
