//! The versions of configs and of snapshots.

ghost use Rattle.std.specs.Prelude.{◌↔◌, IsTrue};
ghost use Rattle.repo_tree.specs.Versions.{IsKnownTo};

/// The greatest version that there is. In version 1 each directory is in one tree; in version 2 it is in parts, as many as its
/// nodes need.
pub const GREATEST_VERSION: u64 = 2;

/// Whether a version is one of those from 1 to `upto`.
pub(crate) fn is_known(version: u64, upto: u64) -> bool
    ensures { IsTrue result ↔ IsKnownTo upto version }
{
    1 <= version && version <= upto
}
