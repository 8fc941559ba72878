//! What a backup that is fed items keeps between two of them: the work, the packs that no index lists yet, and the counts.

ghost use Rattle.std.specs.Prelude.{◌≡◌, ◌++◌, [], true, List, Some, None, IfOk, IfErr, OnOk, OnErr, IfSome};
ghost use Rattle.repo_pack.specs.PackLayout as layout;
ghost use Rattle.repo_writing.specs.Sealing.{IsSealedOf};
ghost use Rattle.repo_writing.specs.Writing.{AreCounts};
ghost use Rattle.repo_backup.specs.BackupStates.{GoesSo};
ghost use Rattle.repo_backup.specs.Items.{fed_of};
ghost use Rattle.repo_backup.specs.Plans.{left_fed};
ghost use Rattle.repo_backup.specs.declared.walks.Went.{Went};
ghost use Rattle.repo_backup.specs.Packings.{AimsOn};
ghost use Rattle.repo_backup.specs.Pieces.{IsReady, WorkTakes, LeavesPacked, LeavesRoom, ReopensAt, Refuses, Stays, sealing_at};
ghost use Rattle.repo_backup.specs.PieceStates.{IsSameWay, waits, IsNextPiece, LaysSo, large_end};

use crate::items::{FeedError, Item};
use crate::piece_works::{PieceWork, Took};
use crate::steps::{Position, WalkStep};
use crate::walks::{Went, lay_on, walk};
use repo_index::{IndexText, Lookup, PackFacts};
use repo_name::Name;
use repo_pack::Sealed;
use repo_session::End;
use repo_writing::{Counts, is_full};
use std::alloc::{AllocError, Global};
use std::mem;

/// The work; how an index lists the pack that is being put; the packs that were put and that no index lists yet, in their
/// order; and the counts of the packs.
#[derive(Drop)]
pub struct PieceBacking {
    pub work: PieceWork,
    pub listed: Option<PackFacts>,
    pub waiting: IndexText,
    pub counts: Counts,
}

/// What comes next where no pack is sealed or being put.
#[derive(Clone, Copy)]
pub enum PieceNext {
    /// An index of the packs that wait.
    Index,
    /// The snapshot, whose tree has this name.
    Snapshot(Name),
    /// More items.
    Input,
}

impl PieceBacking {
    /// Nothing is put yet. It takes no memory.
    pub fn new(alloc: Global, work: PieceWork) -> PieceBacking
        ensures work { result.work ≡ work }
        ensures listed { result.listed ≡ None }
        ensures waiting { result.waiting ≡ [] }
        ensures counts { AreCounts result.counts [] }
    {
        PieceBacking {
            work,
            listed: None,
            waiting: IndexText::of(Vec::new(alloc)),
            counts: Counts::none(),
        }
    }

    /// Takes an item: see [`PieceWork::feed`].
    pub fn feed(&mut self, lookup: &Lookup, item: Item) -> Result<Took, FeedError>
        requires { IsReady self.old.work }
        ensures ok { IfOk result (λ took. WorkTakes lookup.now item.entry self.old.work took self.new.work) }
        ensures packed { IfOk result (λ took. LeavesPacked (sealing_at item.entry) took self.new.work) }
        ensures roomy { IfOk result (λ took. LeavesRoom took self.new.work) }
        ensures back { IfOk result (λ took. ReopensAt lookup.now item.entry self.old.work took self.new.work) }
        ensures aims { AimsOn self.old.work.packing self.new.work.packing }
        ensures refused { IfErr result (λ e. Refuses lookup.now (fed_of item.entry) self.old.work e) }
        ensures stays { OnErr result (Stays lookup.now self.old.work self.new.work) }
        ensures ready { OnErr result (IsReady self.new.work) }
        ensures params { self.new.work.walk.params ≡ self.old.work.walk.params }
        ensures version { self.new.work.walk.version ≡ self.old.work.walk.version }
        ensures same { self.new ≡ record self.old { work = self.new.work } }
    {
        self.work.feed(lookup, item)
    }

    /// Feeds it steps from a position on: see [`walk`].
    pub fn walk(
        &mut self,
        steps: &[WalkStep],
        position: &mut Position,
        lookup: &Lookup,
    ) -> Result<Went, AllocError>
        ensures ok { IfOk result (λ went. GoesSo lookup.now self.old.work (left_fed position.old steps.now) went self.new.work (left_fed position.new steps.now)) }
        ensures all { IfOk result (λ went. went ≡ Went.On → position.new.over ≡ true) }
        ensures laid { IfOk result (λ went. went ≡ Went.On → self.new.work.parts ≡ None) }
        ensures err { OnErr result (GoesSo lookup.now self.old.work (left_fed position.old steps.now) Went.On self.new.work (left_fed position.new steps.now)) }
        ensures way { IsSameWay self.old.work self.new.work }
        ensures same { self.new ≡ record self.old { work = self.new.work } }
    {
        walk(steps, position, &mut self.work, lookup)
    }

    /// Makes the parts of a directory that are left: see [`lay_on`].
    pub fn lay_on(&mut self, lookup: &Lookup) -> Result<Went, AllocError>
        ensures ok { IfOk result (λ went. LaysSo lookup.now self.old.work went self.new.work) }
        ensures laid { IfOk result (λ went. went ≡ Went.On → self.new.work.parts ≡ None) }
        ensures err { OnErr result (LaysSo lookup.now self.old.work Went.On self.new.work) }
        ensures way { IsSameWay self.old.work self.new.work }
        ensures same { self.new ≡ record self.old { work = self.new.work } }
    {
        lay_on(&mut self.work, lookup)
    }

    /// Takes the sealed pack out, to be put, which is listed so: its blobs and their bytes are counted. `None` where none is
    /// sealed, and then nothing changed but how one is listed.
    pub fn take_pack(&mut self, listed: PackFacts) -> Option<Sealed>
        ensures taken { result ≡ self.old.work.packing.packer.sealed }
        ensures counted { IfSome result (λ sealed. (before items : List layout.Item) → IsSealedOf sealed items → AreCounts self.old.counts before → AreCounts self.new.counts (before ++ items)) }
        ensures listed { self.new.listed ≡ Some listed }
        ensures waiting { self.new.waiting ≡ self.old.waiting }
        ensures work { self.new.work ≡ record self.old.work { packing = record self.old.work.packing { packer = record self.old.work.packing.packer { sealed = None } } } }
    {
        self.listed = Some(listed);
        let Some(sealed) = self.work.packing.packer.sealed.take() else {
            return None;
        };
        self.counts.add(&sealed);
        Some(sealed)
    }

    /// Lists the pack that was being put behind those that wait. It fails for memory alone, and then nothing changed.
    pub fn note_put(&mut self) -> Result<(), AllocError>
        ensures ok { OnOk result (self.new.waiting ≡ waits self.old) }
        ensures listed { OnOk result (self.new.listed ≡ None) }
        ensures err { OnErr result (waits self.new ≡ waits self.old) }
        ensures work { self.new.work ≡ self.old.work }
        ensures counts { self.new.counts ≡ self.old.counts }
    {
        let Some(listed) = &self.listed else {
            return Ok(());
        };
        self.waiting.push(listed.clone()?)?;
        self.listed = None;
        Ok(())
    }

    /// Takes out the packs that wait, so that none does. It takes no memory.
    pub fn take_waiting(&mut self, alloc: Global) -> IndexText
        ensures taken { result ≡ self.old.waiting }
        ensures none { self.new ≡ record self.old { waiting = [] } }
    {
        mem::replace(&mut self.waiting, IndexText::of(Vec::new(alloc)))
    }

    /// These packs wait. It takes no memory.
    pub fn wait_for(&mut self, waiting: IndexText)
        ensures { self.new ≡ record self.old { waiting = waiting } }
    {
        self.waiting = waiting;
    }

    /// How a backup ends where the text of a tree is too large: by the version of the config.
    pub fn large_end(&self) -> End
        ensures { result ≡ large_end self.now.work.walk.version }
    {
        match self.work.walk.version {
            2 => End::FileTooLarge,
            _ => End::DirectoryTooLarge,
        }
    }

    /// What comes next where no pack is sealed or being put.
    pub fn next(&self) -> PieceNext
        ensures { IsNextPiece self.now result }
    {
        if is_full(&self.waiting) {
            return PieceNext::Index;
        }
        match (self.work.walk.root, self.waiting.packs()) {
            (None, _) => PieceNext::Input,
            (Some(root), []) => PieceNext::Snapshot(root),
            (Some(_), [..]) => PieceNext::Index,
        }
    }
}
