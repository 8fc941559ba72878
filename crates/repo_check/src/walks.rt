//! The trees that snapshots reach, each visited once in each way and at each depth in which it is reached.

ghost use Rattle.std.specs.Prelude.{◌≡◌, List, slice_get, Option, Some, None, IfOk, OnOk, OnErr, Contains};
ghost use Rattle.repo_name.specs.NameMaps.{found};
ghost use Rattle.repo_name.specs.declared.names.Name.{Name};
ghost use Rattle.repo_index.specs.declared.facts.Fact.{Fact};
ghost use Rattle.repo_reach.specs.declared.roots.Root.{Root};
ghost use Rattle.repo_check.specs.Visiting.{AddsAmong, BeginsAt, HasLedOn, IsBehind, IsBelow, IsOneOf, LeadsOn, visit_at};
ghost use Rattle.repo_check.specs.Walks.{IsFreshKnown, Walks, Awaits, WalksOn, HasGoneOn, IsWalkMark, TakesNote, walk_of, WalkTakesBack};
ghost use Rattle.repo_check.specs.declared.visiting.Visit.{Visit};

use crate::knowing::{DEPTH, Known, TreeNote};
use crate::queues::{Visits, count, visit_there};
use crate::visiting::Visit;
use repo_index::{Fact, Lookup};
use repo_name::Name;
use std::alloc::{AllocError, Global};

/// A walk over trees: what is known of them, the visits that there are, and how many of them were made.
#[derive(Drop)]
pub struct Walk {
    pub known: Known,
    pub visits: Visits,
    pub place: usize,
}

/// How far a walk has come: there are so many visits, and so many were made.
#[derive(Clone, Copy, Debug)]
pub struct WalkMark {
    visits: usize,
    place: usize,
}

/// Adds visits of some trees at a depth. It fails for memory alone, and then some of them came.
fn add_all(visits: &mut Visits, trees: &[Name], follows: bool, depth: u8) -> Result<(), AllocError>
    ensures among { AddsAmong (IsOneOf follows depth trees.now) visits.old visits.new }
    ensures all { OnOk result ((n : Name) → Contains trees.now n → Contains visits.new (visit_at follows depth n)) }
{
    for tree in trees {
        visits.add(Visit {
            tree: *tree,
            follows,
            depth,
        })?;
    }
    Ok(())
}

/// Adds the visits of the trees below that of a visit, where there may be any. It fails for memory alone, and then some of
/// them came.
#[tactic(auto, unfolding(repo_tree::specs::Spelling::greatest_depth))]
fn add_below(visits: &mut Visits, known: &Known, visit: Visit) -> Result<(), AllocError>
    ensures among { AddsAmong (IsBelow (found known.now.kept) visit) visits.old visits.new }
    ensures all { OnOk result ((w : Visit) → IsBelow (found known.now.kept) visit w → Contains visits.new w) }
{
    if visit.depth >= DEPTH {
        return Ok(());
    }
    let trees = known.below(&visit.tree, visit.follows);
    add_all(visits, trees, visit.follows, visit.depth + 1)
}

/// Adds the visit of the tree in which that of a visit goes on. It fails for memory alone, and then nothing changed.
fn add_behind(visits: &mut Visits, known: &Known, visit: Visit) -> Result<(), AllocError>
    ensures among { AddsAmong (IsBehind (found known.now.kept) visit) visits.old visits.new }
    ensures all { OnOk result ((w : Visit) → IsBehind (found known.now.kept) visit w → Contains visits.new w) }
{
    match known.next(&visit.tree, visit.follows) {
        Some(tree) => visits.add(Visit {
            tree,
            follows: visit.follows,
            depth: visit.depth,
        }),
        None => Ok(()),
    }
}

/// Adds all visits to which one leads. It fails for memory alone, and then some of them came.
fn add_led(visits: &mut Visits, known: &Known, visit: Visit) -> Result<(), AllocError>
    ensures among { AddsAmong (LeadsOn (found known.now.kept) visit) visits.old visits.new }
    ensures all { OnOk result (HasLedOn (found known.now.kept) visits.new visit) }
{
    add_below(visits, known, visit)?;
    add_behind(visits, known, visit)
}

impl Walk {
    /// The visit at the walk's place, if one is left.
    fn visit(&self) -> Option<Visit>
        ensures { result ≡ slice_get self.now.visits self.now.place }
    {
        visit_there(self.visits.as_slice(), self.place)
    }

    /// Goes on to the next tree that is to be asked for, visit by visit. It fails for memory alone, and then only visits
    /// came behind those that were there.
    pub fn go_on(&mut self) -> Result<Option<Fact>, AllocError>
        ensures next { IfOk result (λ next. (roots : List Root) → Walks roots (walk_of self.old) → WalksOn roots (walk_of self.new) next) }
        ensures gone { HasGoneOn (walk_of self.old) (walk_of self.new) }
    {
        for place in self.place..usize::MAX {
            self.place = place;
            let Some(visit) = self.visit() else {
                return Ok(None);
            };
            if let Some(fact) = self.known.due(&visit.tree) {
                return Ok(Some(fact));
            }
            add_led(&mut self.visits, &self.known, visit)?;
        }
        self.place = count(self.visits.as_slice());
        Ok(None)
    }

    /// A walk that has nowhere to go. It takes no memory.
    pub fn none(alloc: Global) -> Walk {
        Walk::new(alloc, Lookup::new(alloc), Visits::none(alloc))
    }

    /// A walk that begins with some visits, by a look-up. It takes no memory.
    pub fn new(alloc: Global, lookup: Lookup, visits: Visits) -> Walk
        ensures begun { (roots : List Root) → BeginsAt roots visits → Walks roots (walk_of result) }
        ensures fresh { IsFreshKnown lookup (walk_of result).known }
    {
        Walk {
            known: Known::new(alloc, lookup),
            visits,
            place: 0,
        }
    }

    /// The tree at the walk's place, if one stands there. It takes no memory.
    pub fn tree(&self) -> Option<Name>
        ensures { (visit : Visit) → slice_get self.now.visits self.now.place ≡ Some visit → result ≡ Some visit.tree }
    {
        match self.visit() {
            Some(visit) => Some(visit.tree),
            None => None,
        }
    }

    /// The fact of the tree that is asked for. It takes no memory.
    pub fn asked(&self) -> Option<Fact>
        ensures { (roots : List Root) (fact : Fact) → Awaits roots (walk_of self.now) fact → result ≡ Some fact }
    {
        match self.tree() {
            Some(tree) => self.known.due(&tree),
            None => None,
        }
    }

    /// How far the walk has come.
    pub fn mark(&self) -> WalkMark
        ensures { IsWalkMark (walk_of self.now) result }
    {
        WalkMark {
            visits: count(self.visits.as_slice()),
            place: self.place,
        }
    }

    /// Undoes the taking of a note of this tree, before which this was marked. It takes no memory.
    pub fn take_back(&mut self, mark: WalkMark, tree: Name)
        ensures { WalkTakesBack mark tree (walk_of self.old) (walk_of self.new) }
    {
        self.known.take_back(&tree);
        self.visits.truncate(mark.visits);
        self.place = mark.place;
    }

    /// Notes what was told of the tree that was asked for, and goes on. It fails for memory alone, and then nothing
    /// changed.
    pub fn take(&mut self, tree: Name, note: TreeNote) -> Result<Option<Fact>, AllocError>
        ensures takes { IfOk result (λ next. TakesNote (walk_of self.old) tree note next (walk_of self.new)) }
        ensures same { OnErr result (found self.old.known.kept tree ≡ None → found self.old.known.faults tree ≡ None → walk_of self.new ≡ walk_of self.old) }
    {
        let mark = self.mark();
        self.known.note(tree, note)?;
        match self.go_on() {
            Ok(next) => Ok(next),
            Err(error) => {
                self.take_back(mark, tree);
                Err(error)
            }
        }
    }
}
