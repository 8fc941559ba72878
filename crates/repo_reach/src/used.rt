//! The blobs that a walk came upon, as a value.

ghost use Rattle.std.specs.Prelude.{◌≡◌, ◌<◌, ◌⊎◌, ◌↔◌, ℕ, Bool, true, slice_get, Some, IfOk, OnOk, IsTrue, IsFalse, Contains};
ghost use Rattle.std.specs.BTreeSet.{IsEmpty};
ghost use Rattle.repo_name.specs.declared.kinds.BlobKind.{BlobKind};
ghost use Rattle.repo_name.specs.declared.kinds.BlobKind.TheVariants as kind;
ghost use Rattle.repo_name.specs.declared.names.Name.{Name};
ghost use Rattle.repo_tree.specs.Spelling.{greatest_depth};
ghost use Rattle.repo_reach.specs.Laws.{IsUsed};
ghost use Rattle.repo_reach.specs.Used.{IsIn, UsedHasPair, GivesPair, GivenBy, IsListed, HaveJoined, PairsHaveJoined};
ghost use Rattle.repo_reach.specs.Walks.{WasAt};

use crate::breaking::is_malformed;
use crate::looks::{DEPTH, Seen, flags};
use crate::trees::Trees;
use repo_name::{BlobKind, Name};
use std::alloc::{AllocError, Global};
use std::collections::BTreeSet;

/// The blobs that a walk came upon: their kinds and names, each once.
#[derive(Drop)]
pub struct Used {
    trees: BTreeSet<Name>,
    content: BTreeSet<Name>,
}

/// Whether the flag that stands there is set.
fn is_set(flags: &[bool], at: usize) -> bool
    ensures { IsTrue result ↔ (slice_get flags.now at ≡ Some true) }
{
    match flags.get(at) {
        None => false,
        Some(flag) => *flag,
    }
}

/// Whether one of so many flags is set.
fn is_one_set(flags: &[bool], limit: usize) -> bool
    ensures { IsTrue result ↔ ((at : ℕ) × (at < limit) × (slice_get flags.now at ≡ Some true)) }
{
    for at in 0..limit {
        if is_set(flags, at) {
            return true;
        }
    }
    false
}

/// Whether a tree was looked at so.
fn is_looked_by(seen: &Seen, follows: bool) -> bool
    ensures { IsTrue result ↔ ((depth : ℕ) × WasAt seen.now follows depth) }
{
    let flags = flags(seen, follows);
    is_one_set(flags, flags.len())
}

/// Whether a tree was looked at.
fn is_looked(seen: &Seen) -> bool
    ensures { IsTrue result ↔ ((follows : Bool) × (depth : ℕ) × WasAt seen.now follows depth) }
{
    is_looked_by(seen, false) || is_looked_by(seen, true)
}

/// Whether a tree was looked at so at a path of fewer than 100 components.
#[tactic(auto, unfolding(repo_tree::specs::Spelling::greatest_depth))]
fn is_above(seen: &Seen, follows: bool) -> bool
    ensures { IsTrue result ↔ ((depth : ℕ) × (depth < greatest_depth) × WasAt seen.now follows depth) }
{
    is_one_set(flags(seen, follows), DEPTH)
}

/// Whether a tree was looked at at such a path so that its nodes are read.
fn is_listed(seen: &Seen) -> bool
    ensures yes { IsTrue result → IsListed seen.now }
    ensures no { IsFalse result → (n : Name) → ¬ GivesPair seen.now kind.Content n }
{
    is_above(seen, false) || is_above(seen, true) && !is_malformed(seen)
}

/// Some names come to a set. It fails for memory alone.
fn add_names(set: &mut BTreeSet<Name>, names: &[Name]) -> Result<(), AllocError>
    ensures { OnOk result ((n : Name) → IsIn set.new n ↔ (IsIn set.old n ⊎ Contains names.now n)) }
{
    for name in names {
        set.insert(*name)?;
    }
    Ok(())
}

impl Used {
    /// A tree that was looked at comes to them. It fails for memory alone.
    fn add_tree(&mut self, seen: &Seen) -> Result<(), AllocError>
        ensures tree { OnOk result (PairsHaveJoined kind.Tree self.old seen.now self.new) }
        ensures content { self.new.content ≡ self.old.content }
    {
        if is_looked(seen) {
            self.trees.insert(seen.name)?;
        }
        Ok(())
    }

    /// The content of a tree comes to them, if it was looked at where it may have any. It fails for memory alone.
    fn add_content(&mut self, seen: &Seen) -> Result<(), AllocError>
        ensures content { OnOk result (PairsHaveJoined kind.Content self.old seen.now self.new) }
        ensures trees { self.new.trees ≡ self.old.trees }
    {
        let Some(links) = &seen.links else {
            return Ok(());
        };
        if is_listed(seen) {
            add_names(&mut self.content, links.content.as_slice())?;
        }
        Ok(())
    }

    /// What a tree gives comes to them. It fails for memory alone.
    fn add(&mut self, seen: &Seen) -> Result<(), AllocError>
        ensures { OnOk result (HaveJoined self.old seen.now self.new) }
    {
        self.add_tree(seen)?;
        self.add_content(seen)
    }

    /// Whether the blob of this kind and name is one of them.
    pub fn has(&self, kind: BlobKind, name: &Name) -> bool
        ensures { IsTrue result ↔ UsedHasPair self.now kind name.now }
    {
        match kind {
            BlobKind::Tree => self.trees.contains(name),
            BlobKind::Content => self.content.contains(name),
        }
    }
}

impl Trees {
    /// The blobs that this walk came upon. It fails for memory alone.
    pub fn used(&self, alloc: Global) -> Result<Used, AllocError>
        ensures { IfOk result (λ used. (k : BlobKind) (n : Name) → UsedHasPair used k n ↔ IsUsed self.now.seen.items k n) }
    {
        let mut used = Used {
            trees: BTreeSet::new(alloc),
            content: BTreeSet::new(alloc),
        };
        let all = self.seen.as_slice();
        for seen in all {
            used.add(seen)?;
        }
        Ok(used)
    }
}
