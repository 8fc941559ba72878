//! The list of a store's snapshots.

ghost use Rattle.std.specs.Prelude.{◌≡◌, []};
ghost use Rattle.repo_session.specs.Sessions.{who_in};
ghost use Rattle.repo_restore.specs.ListStates.{FitsList, IsFreshList};

use repo_session::{
    Came, Emission, Holder, Job, Outcome, Session, SnapshotRoll, Step, Versions, Who,
};
use repo_tree::Config;
use repo_wire::{Ask, Say};
use std::alloc::{AllocError, Global};

/// The job of a client `Session<SnapshotList>` that lists the store's snapshots, and reads each: its outcome is `Listed`, ascending by name, where
/// nothing went wrong.
///
/// Bytes that don't have their name, or aren't a snapshot's text, end it as `BadObject`; a snapshot of a version
/// that isn't known ends it as `Version`.
#[derive(Drop)]
pub struct SnapshotList {
    snapshots: SnapshotRoll,
}

impl SnapshotList {
    /// A client that lists the snapshots. Its ticket is pending. It takes no memory.
    pub fn new(alloc: Global, who: Who) -> Session<SnapshotList>
        ensures fits { FitsList result [] }
        ensures who { who_in result ≡ who }
    {
        Session::new(alloc, who, SnapshotList::fresh(alloc))
    }

    /// A list of nothing so far. It takes no memory.
    fn fresh(alloc: Global) -> SnapshotList
        ensures { IsFreshList result }
    {
        SnapshotList {
            snapshots: SnapshotRoll::new(alloc),
        }
    }
}

impl Job for SnapshotList {
    ghost use Rattle.repo_restore.specs.Listing.{list_rule};
    ghost use Rattle.repo_restore.specs.ListStates.{IsFreshList, KnowsList};

    ghost Handed = { Unit {0} };

    ghost handed = { λ l. tt };

    ghost rule = { λ h. list_rule };

    ghost fresh = { IsFreshList };

    ghost knows = { KnowsList };

    ghost wants = { λ j es. ⊥ };

    ghost given = { λ l. [] };

    fn is_exclusive(&self) -> bool {
        false
    }

    fn versions(&self) -> Versions {
        Versions::Both
    }

    fn opened(&mut self, _holder: &Holder, _config: &Config) -> Step {
        Step::Ask(self.snapshots.page_ask())
    }

    fn reply(&mut self, holder: &Holder, ask: &Ask, say: &Say) -> Result<Step, AllocError> {
        match self.snapshots.read_on(ask, say, holder.versions())? {
            Came::All(()) => Ok(Step::Finish(Outcome::Listed(self.snapshots.take_rows()))),
            Came::Step(step) => Ok(step),
        }
    }

    fn emitted(&self) -> &[Emission] {
        &[]
    }
}
