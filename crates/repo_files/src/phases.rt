//! What a restorer is in the midst of.

use crate::drafts::Draft;

/// What a restorer is in the midst of.
#[derive(Drop)]
pub enum Phase<F> {
    /// Nothing was written: the folder that is restored into is empty, or isn't there.
    Untouched,
    /// No file is open.
    Between,
    /// A file is open.
    InFile(Draft<F>),
    /// It takes no more.
    Stopped,
}

/// The same, as contracts tell it.
#[derive(Clone, Copy, Debug, PartialEq, Eq)]
pub enum Standing {
    /// Nothing was written: the folder that is restored into is empty, or isn't there.
    Untouched,
    /// No file is open.
    Between,
    /// A file is open.
    InFile,
    /// It takes no more.
    Stopped,
}
