//! Where blobs lie.

use repo_name::{BlobKind, Name};

/// Where a blob lies: in a pack, so many bytes from an offset on.
#[derive(Clone, Copy, Debug, PartialEq, Eq)]
pub struct Place {
    pub pack: Name,
    pub offset: u32,
    pub length: u32,
}

/// A blob of this kind and name, and where it lies.
#[derive(Clone, Copy, Debug, PartialEq, Eq)]
pub struct PlacedBlob {
    pub kind: BlobKind,
    pub name: Name,
    pub place: Place,
}

/// What a pack tells of a blob, and where its bytes begin.
#[derive(Clone, Copy, Debug, PartialEq, Eq)]
pub struct Entry {
    pub kind: BlobKind,
    pub name: Name,
    pub offset: u64,
    pub length: u32,
}
