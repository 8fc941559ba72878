//! The numbers that locks go by.

/// The number of a lock. A store issues each number once, and one that died never lives again.
#[derive(Clone, Copy, Debug, PartialEq, Eq, PartialOrd, Ord)]
pub struct Token(pub u64);
