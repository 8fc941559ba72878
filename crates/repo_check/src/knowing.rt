//! What is known of trees.

ghost use Rattle.std.specs.Prelude.{◌≡◌, ◌↔◌, Some, None, IfOk, IfSome, OnOk, OnErr, IsTrue, IsFalse};
ghost use Rattle.repo_name.specs.NameMaps.{found};
ghost use Rattle.repo_reach.specs.Walks.{trees_below};
ghost use Rattle.repo_session.specs.declared.outcomes.FaultKind.{FaultKind};
ghost use Rattle.repo_check.specs.declared.knowing.TreeNote.{TreeNote};
ghost use Rattle.repo_name.specs.declared.names.Name.{Name};
ghost use Rattle.repo_check.specs.Keeping.{content_within, links_of, next_of};
ghost use Rattle.repo_check.specs.Visiting.{BreaksHere, GoesOnWrong, IsMisread, IsTooDeep};
ghost use Rattle.repo_check.specs.declared.keeping.Kept.{Kept};
ghost use Rattle.repo_check.specs.Walks.{IsTreeDue, IsSettled, AddsNote, IsFreshKnown, NotesTree, IsSomething, ContentFault, known_of, tree_fault, TakesNoteBack};

use crate::keeping::Kept;
use crate::trees::{TreeLook, look_at_tree};
use crate::visiting::Visit;
use repo_index::{Fact, Lookup};
use repo_name::{BlobKind, Name, insert_named, remove_named};
use repo_reach::Links;
use repo_session::FaultKind;
use repo_wire::Say;
use std::alloc::{AllocError, Global};
use std::collections::BTreeMap;

/// How many components a path has at most.
pub const DEPTH: u8 = 100;

/// What is known of trees: where blobs lie, what is kept of the trees that read, and what is at fault of those that are at
/// fault by themselves.
#[derive(Drop)]
pub struct Known {
    pub lookup: Lookup,
    pub kept: BTreeMap<Name, Kept>,
    pub faults: BTreeMap<Name, FaultKind>,
}

/// What a reply told of a tree by itself.
#[derive(Drop)]
pub struct TreeNote {
    /// What is kept of it, if it reads.
    pub kept: Option<Kept>,
    /// What is at fault, if something is.
    pub fault: Option<FaultKind>,
}

/// Whether a tree has nodes where none may be.
#[tactic(auto, unfolding(repo_tree::specs::Spelling::greatest_depth))]
fn is_too_deep(kept: &Kept, visit: Visit) -> bool
    ensures { IsTrue result ↔ IsTooDeep kept.now visit }
{
    visit.depth >= DEPTH && !kept.links.is_bare
}

/// Whether a tree is read as a part, and is no part's text.
fn is_misread(kept: &Kept, visit: Visit) -> bool
    ensures { IsTrue result ↔ IsMisread kept.now visit }
{
    visit.follows && kept.is_malformed()
}

impl Known {
    /// Nothing is known of trees but where blobs lie. It takes no memory.
    pub fn new(alloc: Global, lookup: Lookup) -> Known
        ensures { IsFreshKnown lookup (known_of result) }
    {
        Known {
            lookup,
            kept: BTreeMap::new(alloc),
            faults: BTreeMap::new(alloc),
        }
    }

    /// Whether a tree came that reads.
    fn is_read(&self, tree: &Name) -> bool
        ensures yes { IsTrue result → (kept : Kept) × (found self.now.kept tree.now ≡ Some kept) }
        ensures no { IsFalse result → found self.now.kept tree.now ≡ None }
    {
        match self.kept.get(tree) {
            Some(_) => true,
            None => false,
        }
    }

    /// Whether a tree is at fault by itself.
    fn is_faulty(&self, tree: &Name) -> bool
        ensures yes { IsTrue result → (what : FaultKind) × (found self.now.faults tree.now ≡ Some what) }
        ensures no { IsFalse result → found self.now.faults tree.now ≡ None }
    {
        match self.faults.get(tree) {
            Some(_) => true,
            None => false,
        }
    }

    /// The fact by which a tree is to be asked for: `None` where it was, or no index gives it. It takes no memory.
    pub fn due(&self, tree: &Name) -> Option<Fact>
        ensures due { IfSome result (IsTreeDue (known_of self.now) tree.now) }
        ensures settled { result ≡ None → IsSettled (known_of self.now) tree.now }
    {
        if self.is_read(tree) || self.is_faulty(tree) {
            return None;
        }
        let place = self.lookup.find(BlobKind::Tree, tree)?;
        Some(Fact {
            kind: BlobKind::Tree,
            name: *tree,
            place,
        })
    }

    /// What the nodes of a tree lead to, as a part of a directory or as a directory by itself. It takes no memory.
    fn links(&self, tree: &Name, follows: bool) -> Option<&Links>
        ensures some { IfSome result (λ links. links_of (found self.now.kept tree.now) follows ≡ Some links.now) }
        ensures none { result ≡ None → links_of (found self.now.kept tree.now) follows ≡ None }
    {
        match self.kept.get(tree) {
            Some(kept) => kept.links_by(follows),
            None => None,
        }
    }

    /// The trees below one. It takes no memory.
    pub fn below(&self, tree: &Name, follows: bool) -> &[Name]
        ensures { result.now ≡ trees_below (links_of (found self.now.kept tree.now) follows) }
    {
        match self.links(tree, follows) {
            Some(links) => links.trees.as_slice(),
            None => &[],
        }
    }

    /// The content of a tree. It takes no memory.
    pub fn content(&self, tree: &Name, follows: bool) -> &[Name]
        ensures { result.now ≡ content_within (links_of (found self.now.kept tree.now) follows) }
    {
        match self.links(tree, follows) {
            Some(links) => links.content.as_slice(),
            None => &[],
        }
    }

    /// The tree in which one goes on. It takes no memory.
    pub fn next(&self, tree: &Name, follows: bool) -> Option<Name>
        ensures { result ≡ next_of (found self.now.kept tree.now) follows }
    {
        match self.kept.get(tree) {
            Some(kept) => kept.next_by(follows),
            None => None,
        }
    }

    /// Whether the tree of a visit breaks its directory by itself. It takes no memory.
    pub fn is_broken(&self, visit: Visit) -> bool
        ensures { IsTrue result ↔ BreaksHere (found self.now.kept) visit }
    {
        match self.kept.get(&visit.tree) {
            Some(kept) => is_too_deep(kept, visit) || is_misread(kept, visit),
            None => false,
        }
    }

    /// The tree in which that of a visit goes on wrong, if it does. It takes no memory.
    pub fn wrong_next(&self, visit: Visit) -> Option<Name>
        ensures some { IfSome result (GoesOnWrong (found self.now.kept) visit) }
        ensures none { result ≡ None → (n : Name) → ¬ GoesOnWrong (found self.now.kept) visit n }
    {
        let Some(kept) = self.kept.get(&visit.tree) else {
            return None;
        };
        let Some(next) = kept.next_by(visit.follows) else {
            return None;
        };
        let Some(behind) = self.kept.get(&next) else {
            return None;
        };
        if kept.goes_wrong_in(behind) {
            return Some(next);
        }
        None
    }

    /// Notes what was told of a tree. It fails for memory alone, and then nothing changed, if no fault was known of the tree.
    pub fn note(&mut self, tree: Name, note: TreeNote) -> Result<(), AllocError>
        ensures ok { OnOk result (AddsNote (known_of self.old) tree note (known_of self.new)) }
        ensures err { OnErr result (found self.old.faults tree ≡ None → known_of self.new ≡ known_of self.old) }
    {
        if let Some(what) = note.fault {
            insert_named(&mut self.faults, tree, what)?;
        }
        if let Some(kept) = note.kept {
            if insert_named(&mut self.kept, tree, kept).is_err() {
                remove_named(&mut self.faults, &tree);
                return Err(AllocError);
            }
        }
        Ok(())
    }

    /// What is at fault of a tree that is reached, if something is. It takes no memory.
    pub fn fault_of(&self, tree: &Name, is_broken: bool) -> Option<FaultKind>
        ensures { result ≡ tree_fault (found self.now.faults tree.now) (found self.now.kept tree.now) is_broken }
    {
        if let Some(what) = self.faults.get(tree) {
            return Some(*what);
        }
        match self.kept.get(tree) {
            Some(_) if is_broken => Some(FaultKind::Unreadable),
            Some(_) => None,
            None => Some(FaultKind::Unindexed),
        }
    }

    /// What is at fault of a content blob that is reached: nothing, or that no index gives it. It takes no memory.
    pub fn content_fault(&self, name: &Name) -> Option<FaultKind>
        ensures { ContentFault (known_of self.now).facts name.now result }
    {
        match self.lookup.find(BlobKind::Content, name) {
            Some(_) => None,
            None => Some(FaultKind::Unindexed),
        }
    }

    /// What was noted of a tree goes. It takes no memory.
    pub fn take_back(&mut self, tree: &Name)
        ensures back { TakesNoteBack tree.now (known_of self.old) (known_of self.new) }
    {
        remove_named(&mut self.kept, tree);
        remove_named(&mut self.faults, tree);
    }
}

/// What is noted of a tree that reads.
fn read_note(kept: Kept, right: bool) -> TreeNote
    ensures kept { result.kept ≡ Some kept }
    ensures right { IsTrue right → result.fault ≡ None }
    ensures wrong { IsFalse right → result.fault ≡ Some FaultKind.Unreadable }
{
    TreeNote {
        kept: Some(kept),
        fault: if right {
            None
        } else {
            Some(FaultKind::Unreadable)
        },
    }
}

/// What the reply to the request for the tree of a fact tells of it: `None` where it is a refusal that tells nothing, or of
/// another sort. It fails for memory alone.
pub fn note_of(
    alloc: Global,
    lookup: &Lookup,
    fact: Fact,
    say: &Say,
) -> Result<Option<TreeNote>, AllocError>
    ensures notes { IfOk result (NotesTree lookup.now fact say.now) }
    ensures some { IfOk result (λ note. IfSome note IsSomething) }
{
    match look_at_tree(alloc, lookup, fact, say)? {
        TreeLook::Read { kept, right } => Ok(Some(read_note(kept, right))),
        TreeLook::Fault(what) => Ok(Some(TreeNote {
            kept: None,
            fault: Some(what),
        })),
        TreeLook::Unwelcome => Ok(None),
    }
}
