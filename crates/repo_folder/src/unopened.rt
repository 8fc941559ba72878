//! A disk on which a store's folder couldn't be opened or made.

use repo_store::ShelfError;

/// The disk on which a store's folder couldn't be opened or made, given back, and why.
#[derive(Debug, Drop)]
pub struct Unopened<D> {
    pub disk: D,
    pub error: ShelfError,
}
