//! The upgrade of a store to version 2.

ghost use Rattle.std.specs.Prelude.{◌≡◌, []};
ghost use Rattle.repo_session.specs.Sessions.{who_in};
ghost use Rattle.repo_prune.specs.UpgradeStates.{FitsUpgrade};

use repo_session::{Emission, Holder, Job, Outcome, Session, Step, Versions, Who};
use repo_tree::{Config, GREATEST_VERSION};
use repo_wire::{Ask, Say};
use std::alloc::{AllocError, Global};

/// A client `Session<Upgrade>` makes the store's config one of version 2: it reads the config, and asks for that where it is
/// of version 1. Its outcome is `Upgraded` where the config is of version 2.
///
/// It works under a lock of its own, so no other client has one meanwhile: each later client reads the new config, and one that
/// knows version 1 alone ends there. It puts nothing and deletes nothing. It has nothing to remember.
#[derive(Drop)]
pub struct Upgrade {}

impl Upgrade {
    /// An upgrade whose ticket is pending. It takes no memory.
    pub fn new(alloc: Global, who: Who) -> Session<Upgrade>
        ensures fits { FitsUpgrade result [] }
        ensures who { who_in result ≡ who }
    {
        Session::new(alloc, who, Upgrade {})
    }
}

impl Job for Upgrade {
    ghost use Rattle.std.specs.Prelude.{⊤, []};
    ghost use Rattle.repo_prune.specs.UpgradeStates.{IsFreshUpgrade, KnowsUpgrade, nothing_in, rule_of_upgrade};

    ghost Handed = { ⊤ };

    ghost handed = { nothing_in };

    ghost rule = { rule_of_upgrade };

    ghost fresh = { IsFreshUpgrade };

    ghost knows = { KnowsUpgrade };

    ghost wants = { λ j es. ⊥ };

    ghost given = { λ u. [] };

    fn is_exclusive(&self) -> bool {
        true
    }

    fn versions(&self) -> Versions {
        Versions::Both
    }

    fn opened(&mut self, holder: &Holder, config: &Config) -> Step {
        if config.version == GREATEST_VERSION {
            return Step::Finish(Outcome::Upgraded);
        }
        Step::Ask(Ask::Upgrade(holder.token()))
    }

    fn reply(&mut self, _holder: &Holder, _ask: &Ask, say: &Say) -> Result<Step, AllocError> {
        match say {
            Say::Done => Ok(Step::Finish(Outcome::Upgraded)),
            _ => Ok(Step::Away),
        }
    }

    fn emitted(&self) -> &[Emission] {
        &[]
    }
}
