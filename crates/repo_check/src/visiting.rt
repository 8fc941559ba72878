//! A tree that a walk visits.

use repo_name::Name;

/// A tree at a path of so many components, 0 to 100, that a walk visits.
#[derive(Clone, Copy, Debug, PartialEq, Eq)]
pub struct Visit {
    pub tree: Name,
    /// Whether it is a part of a directory, which goes on along `next`.
    pub follows: bool,
    pub depth: u8,
}

/// What is gathered of visits.
#[derive(Clone, Copy, Debug, PartialEq, Eq)]
pub enum Gift {
    /// Their trees.
    Tree,
    /// The content of their trees, where there may be any.
    Content,
    /// The trees that break their directories.
    Broken,
}
