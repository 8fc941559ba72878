//! How a command comes to its store.

/// How a command comes to its store: what connects, and how many more connections are made after the first, at most.
#[derive(Drop)]
pub struct Route<D> {
    pub dial: D,
    pub retry: u64,
}
