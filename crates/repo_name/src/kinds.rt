//! What a store keeps, what a pack holds, and what a fault is told of.

/// The kinds of objects that a store keeps by name, in the order of their numbers in a frame.
#[derive(Clone, Copy, Debug, PartialEq, Eq)]
pub enum Kind {
    /// Blobs, and a header that lists them.
    Pack,
    /// Which blobs lie where in which packs.
    Index,
    /// A tree's name, with host and time.
    Snapshot,
}

/// The kinds of blobs that a pack holds, in the order of their numbers in a pack's header.
#[derive(Clone, Copy, Debug, PartialEq, Eq)]
pub enum BlobKind {
    /// A chunk of a file.
    Content,
    /// The nodes of a directory.
    Tree,
}

/// What a client's fault is told of: an object, or a blob.
#[derive(Clone, Copy, Debug, PartialEq, Eq)]
pub enum Thing {
    Pack,
    Index,
    Snapshot,
    Content,
    Tree,
}
