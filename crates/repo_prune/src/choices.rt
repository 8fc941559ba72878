//! Which snapshots are to be forgotten.

ghost use Rattle.std.specs.Prelude.{◌↔◌, IsTrue};
ghost use Rattle.repo_prune.specs.Forgetting.{IsNoPolicy};

use crate::keeping::Policy;
use repo_name::{Names, Text};
use thiserror::Error;

/// Which snapshots are to be forgotten.
#[derive(Clone, Debug, Drop)]
pub enum Choice {
    /// Those of these names, in any order. One that isn't there is passed over, and one given twice counts once.
    Names(Names),
    /// Those that this policy doesn't keep.
    Keep(Policy),
    /// Those of this host that this policy doesn't keep. Those of other hosts stay.
    KeepOf { host: Text, policy: Policy },
}

impl Choice {
    /// Whether it is a policy that keeps neither last ones nor days.
    pub fn is_no_policy(&self) -> bool
        ensures { IsTrue result ↔ IsNoPolicy self.now }
    {
        match self {
            Choice::Names(_) => false,
            Choice::Keep(policy) | Choice::KeepOf { policy, .. } => policy.keeps_nothing(),
        }
    }
}

/// Why a forget isn't begun.
#[derive(Clone, Copy, Debug, PartialEq, Eq, Error)]
pub enum ForgetError {
    /// The policy keeps neither last ones nor days.
    #[error("the policy keeps nothing")]
    NoPolicy,
}
