//! Where a walk begins.

ghost use Rattle.std.specs.Prelude.{◌≡◌};
ghost use Rattle.repo_reach.specs.Collected.{follows_in, root_of};

use repo_name::Name;

/// The tree of a snapshot.
#[derive(Clone, Copy, Debug, PartialEq, Eq)]
pub struct Root {
    pub tree: Name,
    /// Whether directories go on in further parts below it.
    pub follows: bool,
}

/// Whether directories go on in further parts, by the version of a snapshot.
fn follows_in(version: u64) -> bool
    ensures { result ≡ follows_in version }
{
    version == 2
}

impl Root {
    /// The root of a snapshot of this version, whose tree this is.
    pub fn of(tree: Name, version: u64) -> Root
        ensures { result ≡ root_of tree version }
    {
        Root {
            tree,
            follows: follows_in(version),
        }
    }
}
