//! The removal of what no snapshot of a store needs.

ghost use Rattle.std.specs.Prelude.{◌≡◌, [], IfOk, OnErr};
ghost use Rattle.repo_session.specs.Jobs.{IsShortStep};
ghost use Rattle.repo_session.specs.Sessions.{who_in};
ghost use Rattle.repo_prune.specs.PruneStates.{IsFreshPrune, StepsFor, HeedsFor, KnowsAsMuch, FitsPrune};

use crate::deleting::Deleting;
use crate::moving::Moving;
use crate::relisting::Relisting;
use repo_index::Fact;
use repo_name::{Kind, LEAST_TARGET, Token};
use repo_pack::Place;
use repo_reach::Trees;
use repo_session::{
    Catalog, Emission, Holder, Job, Roll, Session, SnapshotRoll, Step, Versions, Who,
};
use repo_tree::Config;
use repo_wire::{Ask, Say};
use repo_writing::Target;
use std::alloc::{AllocError, Global};

/// How far a prune is.
#[derive(Drop)]
pub enum Stage {
    /// Snapshots, indexes and packs are being listed.
    Listing,
    /// Trees are being read, and that of this fact was asked for.
    Walking(Trees, Fact),
    /// Blobs are being moved to new packs, and the copy at this place was asked for, if it isn't the used one.
    Moving(Moving, Option<Place>),
    /// The packs that stay are being listed in new indexes.
    Relisting(Relisting),
    /// Old indexes, and then packs, are being deleted.
    Deleting(Deleting),
}

/// A stage of a prune, and what is done in it first.
#[derive(Drop)]
pub struct Onward {
    pub stage: Stage,
    pub step: Step,
}

/// A client `Session<Prune>` removes what no snapshot needs: it lists and reads all snapshots and indexes, lists all packs,
/// reads the trees that the snapshots reach, moves the used blobs of packs that have others too to new packs, lists the
/// packs that stay in new indexes, and then deletes the other indexes and after them the other packs. Its outcome is
/// `Pruned`, with the number of packs deleted and of the bytes of the blobs moved, where nothing went wrong.
///
/// `Missing` of a pack is the least one that an index names and that isn't listed: nothing was put or deleted then. `Missing`
/// of a blob is one that a snapshot needs and no index gives, and `BadObject` or `Version` is of what doesn't read: nothing
/// was deleted then. A blob that moves is bad if each of its copies is.
///
/// It has what it listed and read of the store, how far it is, and how large new packs are to be.
#[derive(Drop)]
pub struct Prune {
    pub snapshots: SnapshotRoll,
    pub catalog: Catalog,
    pub packs: Roll,
    pub stage: Stage,
    pub target: Target,
    pub alloc: Global,
}

impl Prune {
    /// A prune whose ticket is pending. It takes no memory.
    pub fn new(alloc: Global, who: Who) -> Session<Prune>
        ensures fits { FitsPrune result [] }
        ensures who { who_in result ≡ who }
    {
        Session::new(alloc, who, Prune::fresh(alloc))
    }

    /// A prune that hasn't begun. It takes no memory.
    fn fresh(alloc: Global) -> Prune
        ensures { IsFreshPrune result }
    {
        Prune {
            snapshots: SnapshotRoll::new(alloc),
            catalog: Catalog::new(alloc),
            packs: Roll::new(alloc, Kind::Pack),
            stage: Stage::Listing,
            target: Target::of(LEAST_TARGET as u32),
            alloc,
        }
    }

    /// Takes a reply that is no refusal, for who knows these versions. It fails for memory alone, and then what was known is known.
    fn take(
        &mut self,
        versions: Versions,
        token: Token,
        ask: &Ask,
        say: &Say,
    ) -> Result<Step, AllocError>
        ensures steps { IfOk result (λ step. StepsFor versions self.old token ask.now say.now step self.new) }
        ensures heeds { IfOk result (λ step. HeedsFor versions self.old token ask.now say.now step) }
        ensures short { IfOk result IsShortStep }
        ensures knows { OnErr result (KnowsAsMuch self.old ask.now self.new) }
    {
        match ask {
            Ask::List { kind, .. } => self.take_listing(versions, token, *kind, ask, say),
            Ask::Get { kind, .. } => self.take_listing(versions, token, *kind, ask, say),
            Ask::Range { .. } => self.take_range(token, say),
            Ask::Put { kind, .. } => self.take_put(token, *kind, say),
            Ask::Delete { kind, .. } => Ok(self.take_delete(token, *kind, say)),
            _ => Ok(Step::Away),
        }
    }
}

impl Job for Prune {
    ghost use Rattle.std.specs.Prelude.{[]};
    ghost use Rattle.repo_prune.specs.Pruning.{prune_rule};
    ghost use Rattle.repo_prune.specs.PruneStates.{IsFreshPrune, KnowsPrune};

    ghost Handed = { Unit {0} };

    ghost handed = { λ j. tt };

    ghost rule = { λ h. prune_rule };

    ghost fresh = { IsFreshPrune };

    ghost knows = { KnowsPrune };

    ghost wants = { λ j es. ⊥ };

    ghost given = { λ j. [] };

    fn is_exclusive(&self) -> bool {
        true
    }

    fn versions(&self) -> Versions {
        Versions::Both
    }

    fn opened(&mut self, _holder: &Holder, config: &Config) -> Step {
        self.target = Target::of_config(config);
        Step::Ask(self.snapshots.page_ask())
    }

    fn reply(&mut self, holder: &Holder, ask: &Ask, say: &Say) -> Result<Step, AllocError> {
        match say {
            Say::Refused(_) => Ok(Step::Away),
            _ => self.take(holder.versions(), holder.token(), ask, say),
        }
    }

    fn emitted(&self) -> &[Emission] {
        &[]
    }
}
