//! Which versions of configs and of snapshots are known.

ghost use Rattle.std.specs.Prelude.{◌≡◌, ◌≤◌};
ghost use Rattle.repo_tree.specs.Versions.{greatest_version};
ghost use Rattle.repo_session.specs.Versions.{upto, shared};

/// The versions that a client knows, or that a job does.
#[derive(Clone, Copy, Debug, PartialEq, Eq)]
pub enum Versions {
    /// Version 1 alone.
    One,
    /// Versions 1 and 2.
    Both,
}

impl Versions {
    /// The greatest of them.
    pub fn greatest(self) -> u64
        ensures greatest { result ≡ upto self }
        ensures known { upto self ≤ greatest_version }
    {
        match self {
            Versions::One => 1,
            Versions::Both => 2,
        }
    }

    /// Those that are among both.
    pub fn shared(self, other: Versions) -> Versions
        ensures { result ≡ shared self other }
    {
        match self {
            Versions::One => Versions::One,
            Versions::Both => other,
        }
    }
}
