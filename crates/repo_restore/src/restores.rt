//! The restore of a snapshot.

ghost use Rattle.std.specs.Prelude.{◌≡◌, [], ℕ, List, ◌↔◌, IfOk, OnErr, IsOk, IsTrue};
ghost use Rattle.repo_name.specs.Naming as naming;
ghost use Rattle.repo_name.specs.declared.names.Name.{Name};
ghost use Rattle.repo_wire.specs.declared.messages.Ask.{Ask};
ghost use Rattle.repo_wire.specs.declared.messages.Code.{Code};
ghost use Rattle.repo_wire.specs.declared.messages.Say.{Say};
ghost use Rattle.repo_session.specs.declared.emissions.Emission.{Emission};
ghost use Rattle.repo_session.specs.Blobs.{IsBadBlob};
ghost use Rattle.repo_session.specs.Jobs.{IsShortStep};
ghost use Rattle.repo_restore.specs.RestoreStates.{FitsRestore, wish_of, IsNewRestore, KnowsRestore, RestoreReplied, RestoreRepliedTo, RestoreHeeds, RestoreHeedsFor, RestoreStays, RestoreGoesOn, RestoreTakesBlob};

use crate::walks::{Turn, Walk};
use repo_index::Fact;
use repo_name::{Kind, Name, Thing, name_of};
use repo_session::{
    Came, Catalog, Emission, End, Fetched, Holder, Job, Outcome, Session, Step, Versions, Who,
    blob_of, blob_thing, get_ask, range_ask, snapshot_end,
};
use repo_tree::{Config, Snapshot};
use repo_wire::{Ask, Say};
use std::alloc::{AllocError, Global};

/// How far a restore has come.
#[derive(Clone, Copy)]
enum Stage {
    /// The snapshot is asked for.
    Snapshot,
    /// The snapshot's tree has this name, and it is of this version; and the indexes are being read.
    Indexes(Name, u64),
    /// The walk waits for the blob of this fact, of a snapshot of this version.
    Walk(Fact, u64),
}

/// The job of a client `Session<Restore>` that restores a snapshot: it gives out the directories and files that the snapshot's tree spells, in
/// order, a file by pieces. A file that it closes is whole. Its outcome is `Complete` where all was given out.
///
/// A blob in no index ends it as `Missing`: a file's blobs are all looked up before anything of the file is given
/// out, a directory's tree right after the directory. Bytes of another name, of another length than their place's,
/// or that can't be read end it as `BadObject`; and so do a tree with nodes at a path of 100 components, a tree with a
/// file whose blobs haven't its size, and a part of a directory that may not come behind the one before. A snapshot of a
/// version that isn't known ends it as `Version`.
#[derive(Drop)]
pub struct Restore {
    snapshot: Name,
    stage: Stage,
    catalog: Catalog,
    walk: Walk,
    given: Vec<Emission>,
    alloc: Global,
}

/// Whether some bytes have this name.
fn is_named(bytes: &[u8], name: Name) -> bool
    ensures { IsTrue result ↔ (naming.name bytes.now ≡ name) }
{
    name_of(bytes) == name
}

impl Restore {
    /// A client that restores the snapshot of this name. Its ticket is pending. It takes no memory.
    pub fn new(alloc: Global, who: Who, snapshot: Name) -> Session<Restore>
        ensures fits { FitsRestore result [] }
        ensures who { (wish_of result).who ≡ who }
        ensures snapshot { (wish_of result).snapshot ≡ snapshot }
    {
        Session::new(alloc, who, Restore::fresh(alloc, snapshot))
    }

    /// A restore that has asked for nothing. It takes no memory.
    fn fresh(alloc: Global, snapshot: Name) -> Restore
        ensures new { IsNewRestore result }
        ensures snapshot { result.snapshot ≡ snapshot }
    {
        Restore {
            snapshot,
            stage: Stage::Snapshot,
            catalog: Catalog::new(alloc),
            walk: Walk::new(alloc),
            given: Vec::new(alloc),
            alloc,
        }
    }

    /// Goes on as the walk does.
    fn go_on(&mut self, version: u64, turn: Turn) -> Step
        ensures steps { RestoreGoesOn self.old version turn result self.new }
        ensures short { IsShortStep result }
        ensures given { self.new.given ≡ self.old.given }
        ensures snapshot { self.new.snapshot ≡ self.old.snapshot }
    {
        match turn {
            Turn::Ask(fact) => {
                self.stage = Stage::Walk(fact, version);
                Step::Ask(range_ask(fact))
            }
            Turn::Complete(entries) => Step::Finish(Outcome::Complete { entries }),
            Turn::Ended(end) => Step::Finish(Outcome::Ended(end)),
        }
    }

    /// Takes the reply to the request for the snapshot. It fails for memory alone, and then nothing changed.
    fn take_snapshot(&mut self, holder: &Holder, say: &Say) -> Result<Step, AllocError>
        requires { self.old.stage ≡ Stage.Snapshot }
        ensures ok { IfOk result (λ step. (ask : Ask) → RestoreRepliedTo holder.now self.old ask say.now step self.new) }
        ensures heeds { IfOk result (λ step. (ask : Ask) → RestoreHeedsFor holder.now self.old ask say.now step self.new) }
        ensures err { OnErr result (self.new ≡ self.old) }
        ensures short { IfOk result IsShortStep }
        ensures calm { (code : Code) → say.now ≡ Say.Refused code → IsOk result }
        ensures snapshot { self.new.snapshot ≡ self.old.snapshot }
    {
        let name = self.snapshot;
        let Say::Bytes(bytes) = say else {
            return Ok(Step::Away);
        };
        let bytes = bytes.as_slice();
        if !is_named(bytes, name) {
            let end = End::BadObject(Thing::Snapshot, name);
            return Ok(Step::Finish(Outcome::Ended(end)));
        }
        match Snapshot::read_upto(self.alloc, bytes, holder.versions().greatest()) {
            Ok(snapshot) => {
                self.stage = Stage::Indexes(snapshot.tree, snapshot.version);
                Ok(Step::Ask(self.catalog.page_ask()))
            }
            Err(error) => {
                let end = snapshot_end(name, error)?;
                Ok(Step::Finish(Outcome::Ended(end)))
            }
        }
    }

    /// Takes the reply to the request for a page of indexes or for an index. It fails for memory alone, and then what
    /// was known is known.
    fn take_reading(
        &mut self,
        tree: Name,
        version: u64,
        ask: &Ask,
        say: &Say,
    ) -> Result<Step, AllocError>
        requires { self.old.stage ≡ Stage.Indexes tree version }
        ensures ok { IfOk result (λ step. RestoreReplied self.old ask.now say.now step self.new) }
        ensures heeds { IfOk result (λ step. RestoreHeeds self.old ask.now say.now step self.new) }
        ensures err { OnErr result (RestoreStays self.old self.new) }
        ensures short { IfOk result IsShortStep }
        ensures calm { (code : Code) → say.now ≡ Say.Refused code → IsOk result }
        ensures snapshot { self.new.snapshot ≡ self.old.snapshot }
    {
        match self.catalog.read_on(self.alloc, ask, say)? {
            Came::All(_) => {
                let turn = self.walk.start(&self.catalog.lookup, tree);
                Ok(self.go_on(version, turn))
            }
            Came::Step(step) => Ok(step),
        }
    }

    /// Ends, as the bytes of a blob are bad.
    fn refuse_blob(&mut self, fact: Fact, version: u64) -> Step
        requires { self.old.stage ≡ Stage.Walk fact version }
        ensures replied { (ask : Ask) (x : List ℕ) → IsBadBlob fact x → RestoreReplied self.old ask (Say.Bytes x) result self.new }
        ensures short { IsShortStep result }
        ensures snapshot { self.new.snapshot ≡ self.old.snapshot }
    {
        self.given.clear();
        let end = End::BadObject(blob_thing(fact.kind), fact.name);
        Step::Finish(Outcome::Ended(end))
    }

    /// Takes the bytes of a blob. It fails for memory alone, and then what was known is known.
    fn take_blob(&mut self, fact: Fact, version: u64, bytes: &[u8]) -> Result<Step, AllocError>
        requires { self.old.stage ≡ Stage.Walk fact version }
        ensures ok { IfOk result (λ step. RestoreTakesBlob self.old fact bytes.now step self.new) }
        ensures err { OnErr result (RestoreStays self.old self.new) }
        ensures short { IfOk result IsShortStep }
        ensures snapshot { self.new.snapshot ≡ self.old.snapshot }
    {
        let mut out = Vec::new(self.alloc);
        let lookup = &self.catalog.lookup;
        let turn = self.walk.take(lookup, version, fact, bytes, &mut out)?;
        self.given = out;
        Ok(self.go_on(version, turn))
    }

    /// Takes the reply to the request for a blob. It fails for memory alone, and then what was known is known.
    fn take_range(&mut self, fact: Fact, version: u64, say: &Say) -> Result<Step, AllocError>
        requires { self.old.stage ≡ Stage.Walk fact version }
        ensures ok { IfOk result (λ step. (ask : Ask) → RestoreReplied self.old ask say.now step self.new) }
        ensures heeds { IfOk result (λ step. (ask : Ask) → RestoreHeeds self.old ask say.now step self.new) }
        ensures err { OnErr result (RestoreStays self.old self.new) }
        ensures short { IfOk result IsShortStep }
        ensures calm { (code : Code) → say.now ≡ Say.Refused code → IsOk result }
        ensures snapshot { self.new.snapshot ≡ self.old.snapshot }
    {
        match blob_of(fact, say) {
            Fetched::Blob(bytes) => self.take_blob(fact, version, bytes),
            Fetched::Misnamed => Ok(self.refuse_blob(fact, version)),
            Fetched::Uneven => Ok(self.refuse_blob(fact, version)),
            Fetched::Unwelcome => Ok(Step::Away),
        }
    }
}

impl Job for Restore {
    ghost use Rattle.repo_name.specs.declared.names.Name.{Name};
    ghost use Rattle.repo_restore.specs.Restoring.{restore_rule};
    ghost use Rattle.repo_restore.specs.RestoreStates.{IsNewRestore, KnowsRestore};

    ghost Handed = { Name };

    ghost handed = { λ j. j.snapshot };

    ghost rule = { restore_rule };

    ghost fresh = { IsNewRestore };

    ghost knows = { KnowsRestore };

    ghost wants = { λ j es. ⊥ };

    ghost given = { λ j. j.given.items };

    fn is_exclusive(&self) -> bool {
        false
    }

    fn versions(&self) -> Versions {
        Versions::Both
    }

    fn opened(&mut self, _holder: &Holder, _config: &Config) -> Step {
        Step::Ask(get_ask(Kind::Snapshot, self.snapshot))
    }

    fn reply(&mut self, holder: &Holder, ask: &Ask, say: &Say) -> Result<Step, AllocError> {
        match self.stage {
            Stage::Snapshot => self.take_snapshot(holder, say),
            Stage::Indexes(tree, version) => self.take_reading(tree, version, ask, say),
            Stage::Walk(fact, version) => self.take_range(fact, version, say),
        }
    }

    fn emitted(&self) -> &[Emission] {
        self.given.as_slice()
    }
}
