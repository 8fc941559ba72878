//! Files, whole and in part.

use repo_name::Bytes;

/// A file.
#[derive(Clone, Debug, Drop)]
pub struct File {
    pub bytes: Bytes,
    /// Whether its bytes were synced, so that a power cut leaves them.
    pub lasts: bool,
}

/// What a file has at an offset and a length.
#[derive(Debug, Drop)]
pub enum Part {
    /// Those bytes.
    Found(Bytes),
    /// There is no such file.
    Missing,
    /// The file ends before the last of these bytes.
    Outside,
}
