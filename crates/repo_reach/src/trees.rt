//! A walk over trees, depth first.

ghost use Rattle.std.specs.Prelude.{◌≡◌, ◌<◌, ◌+◌, ◌++◌, ◌∷◌, [], ℕ, false, List, map, length, true, Some, None, ◌≤◌, Option, IfOk, IfSome, OnOk, OnErr, IsFalse};
ghost use Rattle.repo_name.specs.NameMaps.{found};
ghost use Rattle.repo_name.specs.declared.names.Name.{Name};
ghost use Rattle.repo_reach.specs.declared.joints.Next.{Next};
ghost use Rattle.repo_reach.specs.declared.looks.Seen.{Seen};
ghost use Rattle.repo_reach.specs.declared.trees.Visit.{Visit};
ghost use Rattle.repo_reach.specs.declared.trees.Trees.{Trees};
ghost use Rattle.repo_tree.specs.Spelling.{greatest_depth};
ghost use Rattle.repo_reach.specs.Walks.{StandsAt, visit_at, IsWalk, IsVisitDue, IsLeftToVisit, IsNextVisit, IsSameSeen, IsSameWalk, BrokenOnes, Flags, NoneLooked, TurnIs, IsNewTree, HasRead, IsUnread, Adds, IsUnchanged, Rewinds, Drops, TellsBroken, KeepsWalk, JoinsWalk, ComesBack, HasTreesBack};
ghost use Rattle.repo_reach.specs.inner.Looking.{TurnsTo, SaysLooked, IsRootVisit, AreDeeperFrom, AreDueFrom, SpreadsFrom, IsUnseenNext, LooksOn, LeavesFewer, FindsWrong, FindsBroken};

use crate::breaking::{below, broken_at, next_at, stands_in_place};
use crate::joints::{Joint, Next};
use crate::links::Links;
use crate::looks::{DEPTH, Seen, flag, forget_depths, is_past, no_depths};
use crate::roots::Root;
use repo_index::{Fact, Lookup};
use repo_name::{BlobKind, Name, insert_named, remove_named};
use repo_tree::Node;
use std::alloc::{AllocError, Global};
use std::collections::BTreeMap;

/// A tree at a path of so many components, that is to be looked at.
#[derive(Clone, Copy)]
struct Visit {
    tree: Name,
    depth: usize,
    /// Whether it is a part of a directory, which goes on along `next`.
    follows: bool,
}

/// What comes next of a walk.
#[derive(Clone, Copy, Debug, PartialEq, Eq)]
pub enum Turn {
    /// The blob of this fact is to be asked for: it is a tree that wasn't seen.
    Ask(Fact),
    /// No fact gives a blob of this tree, which wasn't seen.
    Missing(Name),
    /// No directory has this tree: it has nodes at a path of 100 components; or it is a part and its `next` isn't a name,
    /// or it has no node, or its names don't ascend behind those of the part that goes on in it.
    Broken(Name),
    /// All that is reached was looked at.
    Done,
}

/// A walk over the trees that some roots reach.
#[derive(Drop)]
pub struct Trees {
    /// The trees that were seen, in the order in which they were.
    pub seen: Vec<Seen>,
    /// Where each of them stands.
    places: BTreeMap<Name, usize>,
    roots: Vec<Root>,
    /// How many of the roots were looked at.
    root: usize,
    /// What is to be looked at below them, the next one last.
    waiting: Vec<Visit>,
    alloc: Global,
}

/// The trees to be looked at so at a depth. It fails for memory alone.
fn visits(
    alloc: Global,
    trees: &[Name],
    follows: bool,
    depth: usize,
) -> Result<Vec<Visit>, AllocError>
    ensures { IfOk result (λ visits. visits.items ≡ map (visit_at follows depth) trees.now) }
{
    let mut visits = Vec::new(alloc);
    for tree in trees {
        visits.push(Visit {
            tree: *tree,
            depth,
            follows,
        })?;
    }
    Ok(visits)
}

/// The trees below the one that stands there, to be looked at at the next depth. It fails for memory alone.
#[tactic(auto, unfolding(repo_tree::specs::Spelling::greatest_depth))]
fn deeper(alloc: Global, all: &[Seen], at: usize, visit: Visit) -> Result<Vec<Visit>, AllocError>
    ensures { IfOk result (λ deeper. AreDeeperFrom all.now at visit deeper.items) }
{
    if visit.depth >= DEPTH {
        return Ok(Vec::new(alloc));
    }
    let trees = below(all, at, visit.follows);
    visits(alloc, trees, visit.follows, visit.depth + 1)
}

/// What is to be looked at once the tree that stands there was, the first one last. It fails for memory alone.
fn due(alloc: Global, all: &[Seen], at: usize, visit: Visit) -> Result<Vec<Visit>, AllocError>
    ensures { IfOk result (λ due. AreDueFrom all.now at visit due.items) }
{
    let mut due = deeper(alloc, all, at, visit)?;
    if let Some(tree) = next_at(all, at, visit.follows) {
        due.push(Visit {
            tree,
            depth: visit.depth,
            follows: visit.follows,
        })?;
    }
    due.reverse();
    Ok(due)
}

/// What comes next where a tree wasn't seen: its blob is asked for, at the least place of those that are known.
fn unseen(lookup: &Lookup, tree: Name) -> Turn
    ensures { TurnsTo lookup.now tree result }
{
    match lookup.find(BlobKind::Tree, &tree) {
        Some(place) => Turn::Ask(Fact {
            kind: BlobKind::Tree,
            name: tree,
            place,
        }),
        None => Turn::Missing(tree),
    }
}

impl Trees {
    /// A walk from some roots that hasn't begun. It takes no memory.
    pub fn new(alloc: Global, roots: Vec<Root>) -> Trees
        ensures walk { IsWalk [] result }
        ensures none { result.seen.items ≡ [] }
        ensures roots { result.roots ≡ roots }
    {
        Trees {
            seen: Vec::new(alloc),
            places: BTreeMap::new(alloc),
            roots,
            root: 0,
            waiting: Vec::new(alloc),
            alloc,
        }
    }

    /// Where the tree of this name stands.
    fn place_of(&self, tree: Name) -> Option<usize>
        ensures { result ≡ found self.now.places tree }
    {
        self.places.get(&tree).copied()
    }

    /// Whether a tree was looked at at its depth.
    fn is_looked(&self, visit: Visit) -> bool
        ensures looked { SaysLooked self.now visit result }
        ensures left { IsFalse result → IsLeftToVisit self.now visit }
    {
        match self.place_of(visit.tree) {
            None => false,
            Some(at) => is_past(self.seen.as_slice(), at, visit.follows, visit.depth),
        }
    }

    /// The next one of those that wait.
    fn top(&self) -> Option<Visit>
        ensures some { IfSome result (λ visit. (rest : List Visit) × (self.now.waiting.items ≡ rest ++ visit ∷ [])) }
        ensures none { result ≡ None → self.now.waiting.items ≡ [] }
    {
        self.waiting.last().copied()
    }

    /// The next one of those that wait, waits no longer.
    fn drop_top(&mut self)
        ensures waiting { (rest : List Visit) (visit : Visit) → self.old.waiting.items ≡ rest ++ visit ∷ [] → self.new.waiting.items ≡ rest }
        ensures kept { IsSameSeen self.old self.new }
        ensures root { self.new.root ≡ self.old.root }
    {
        self.waiting.pop();
    }

    /// The next root.
    fn root(&self) -> Option<Visit>
        ensures some { IfSome result (IsRootVisit self.now) }
        ensures none { result ≡ None → length self.now.roots.items ≤ self.now.root }
    {
        match self.roots.get(self.root) {
            None => None,
            Some(root) => Some(Visit {
                tree: root.tree,
                depth: 0,
                follows: root.follows,
            }),
        }
    }

    /// The next one of those that wait which wasn't looked at; those before it go.
    fn next_waiting(&mut self) -> Option<Visit>
        ensures walk { KeepsWalk self.old self.new }
        ensures due { (texts : List (List ℕ)) → IsWalk texts self.old → IfSome result (IsVisitDue texts self.new) }
        ensures left { IfSome result (IsLeftToVisit self.new) }
        ensures none { result ≡ None → self.new.waiting.items ≡ [] }
        ensures kept { IsSameSeen self.old self.new }
    {
        while let Some(visit) = self.top() {
            if !self.is_looked(visit) {
                return Some(visit);
            }
            self.drop_top();
        }
        None
    }

    /// The next root that wasn't looked at; those before it are counted.
    fn next_root(&mut self) -> Option<Visit>
        ensures walk { KeepsWalk self.old self.new }
        ensures due { (texts : List (List ℕ)) → IsWalk texts self.old → IfSome result (IsVisitDue texts self.new) }
        ensures left { IfSome result (IsLeftToVisit self.new) }
        ensures none { result ≡ None → length self.new.roots.items ≤ self.new.root }
        ensures kept { IsSameSeen self.old self.new }
        ensures waiting { self.new.waiting ≡ self.old.waiting }
    {
        while let Some(visit) = self.root() {
            if !self.is_looked(visit) {
                return Some(visit);
            }
            self.root += 1;
        }
        None
    }

    /// What is to be looked at next, if there is anything.
    fn next_visit(&mut self) -> Option<Visit>
        ensures walk { KeepsWalk self.old self.new }
        ensures next { (texts : List (List ℕ)) → IsWalk texts self.old → IsNextVisit texts self.new result }
        ensures left { IfSome result (IsLeftToVisit self.new) }
        ensures kept { IsSameSeen self.old self.new }
    {
        match self.next_waiting() {
            Some(visit) => Some(visit),
            None => self.next_root(),
        }
    }

    /// What comes after a tree that is looked at is to be looked at. It fails for memory alone, and then nothing more is.
    fn spread(&mut self, at: usize, visit: Visit) -> Result<(), AllocError>
        ensures more { OnOk result (SpreadsFrom self.old at visit self.new) }
        ensures err { OnErr result (self.new.waiting.items ≡ self.old.waiting.items) }
        ensures kept { IsSameSeen self.old self.new }
        ensures root { self.new.root ≡ self.old.root }
    {
        let more = due(self.alloc, self.seen.as_slice(), at, visit)?;
        self.waiting.extend_from_slice(more.as_slice())
    }

    /// Looks at a tree that was seen: what comes after it is to be looked at. It fails for memory alone, and then nothing
    /// more is.
    fn look(&mut self, at: usize, visit: Visit) -> Result<(), AllocError>
        ensures walk { OnOk result (LooksOn self.old at visit self.new) }
        ensures flags { OnOk result (Flags self.old.seen.items at visit.follows visit.depth self.new.seen.items) }
        ensures fewer { OnOk result (LeavesFewer self.old at visit self.new) }
        ensures err { OnErr result (KeepsWalk self.old self.new) }
        ensures seen { OnErr result (self.new.seen ≡ self.old.seen) }
        ensures kept { IsSameWalk self.old self.new }
    {
        self.spread(at, visit)?;
        flag(&mut self.seen, at, visit.follows, visit.depth);
        Ok(())
    }

    /// The tree in which the one that stands there goes on, if that wasn't seen.
    fn unseen_next(&self, at: usize, follows: bool) -> Option<Name>
        ensures { IsUnseenNext self.now at follows result }
    {
        let Some(next) = next_at(self.seen.as_slice(), at, follows) else {
            return None;
        };
        match self.place_of(next) {
            Some(_) => None,
            None => Some(next),
        }
    }

    /// The tree in which the one that stands there goes on, if it may not come after it.
    fn wrong_next(&self, at: usize) -> Option<Name>
        ensures { FindsWrong self.now at result }
    {
        let Some(next) = next_at(self.seen.as_slice(), at, true) else {
            return None;
        };
        let Some(behind) = self.place_of(next) else {
            return None;
        };
        if stands_in_place(self.seen.as_slice(), at, behind) {
            return None;
        }
        Some(next)
    }

    /// The tree that breaks where the one that stands there is looked at: that one itself, or the one in which it goes on.
    fn broken(&self, at: usize, visit: Visit) -> Option<Name>
        ensures { FindsBroken self.now at visit result }
    {
        if let Some(name) = broken_at(self.seen.as_slice(), at, visit.follows, visit.depth) {
            return Some(name);
        }
        if !visit.follows {
            return None;
        }
        self.wrong_next(at)
    }

    /// What comes next: the tree to be asked for, one that no fact gives, one that breaks its directory, just where one is
    /// looked at and it does, or the end. What was asked for is to be given by `add` or `pass_over` before the next call,
    /// and one that is missing by `pass_over`; else the same comes again. After one that is broken the walk can go on.
    /// It fails for memory alone, and then it can be called again.
    ///
    /// A part of a directory is looked at once the tree in which it goes on was seen.
    pub fn next(&mut self, lookup: &Lookup) -> Result<Turn, AllocError>
        ensures walk { KeepsWalk self.old self.new }
        ensures turn { IfOk result (λ turn. (texts : List (List ℕ)) → IsWalk texts self.old → TurnIs lookup.now texts self.new turn) }
        ensures broken { IfOk result (λ turn. (texts : List (List ℕ)) → IsWalk texts self.old → TellsBroken self.old.seen.items self.new.seen.items turn) }
        ensures err { OnErr result ((texts : List (List ℕ)) → IsWalk texts self.old → BrokenOnes (λ n. ⊥) self.old.seen.items self.new.seen.items) }
        ensures kept { IsSameWalk self.old self.new }
    {
        while let Some(visit) = self.next_visit() {
            let Some(at) = self.place_of(visit.tree) else {
                return Ok(unseen(lookup, visit.tree));
            };
            if let Some(tree) = self.unseen_next(at, visit.follows) {
                return Ok(unseen(lookup, tree));
            }
            self.look(at, visit)?;
            if let Some(tree) = self.broken(at, visit) {
                return Ok(Turn::Broken(tree));
            }
        }
        Ok(Turn::Done)
    }

    /// A tree was seen. It fails for memory alone, and then nothing changed.
    fn push(&mut self, name: Name, links: Option<Links>, joint: Joint) -> Result<(), AllocError>
        ensures added { OnOk result ((seen : Seen) × IsNewTree name seen × (seen.links ≡ links) × (seen.joint ≡ joint) × Adds self.old seen self.new) }
        ensures same { OnErr result (IsUnchanged self.old self.new) }
    {
        let depths = no_depths(self.alloc)?;
        let followed = no_depths(self.alloc)?;
        self.seen.reserve(1)?;
        insert_named(&mut self.places, name, self.seen.len())?;
        self.seen.push(Seen {
            name,
            links,
            joint,
            depths,
            followed,
        })?;
        Ok(())
    }

    /// The tree of this name was read, and these are its nodes, and what its member `next` is. It fails for memory alone,
    /// and then nothing changed.
    pub fn add(&mut self, name: Name, nodes: &[Node], next: Next) -> Result<(), AllocError>
        ensures walk { OnOk result (JoinsWalk name nodes.now next self.old self.new) }
        ensures added { OnOk result ((seen : Seen) × IsNewTree name seen × HasRead nodes.now next seen × Adds self.old seen self.new) }
        ensures err { OnErr result (KeepsWalk self.old self.new) }
        ensures same { OnErr result (IsUnchanged self.old self.new) }
    {
        let links = Links::of(self.alloc, nodes)?;
        let joint = Joint::of(nodes, next)?;
        self.push(name, Some(links), joint)
    }

    /// The tree of this name isn't there, or can't be read: the walk goes on without it. It fails for memory alone, and
    /// then nothing changed.
    pub fn pass_over(&mut self, name: Name) -> Result<(), AllocError>
        ensures walk { OnOk result ((texts : List (List ℕ)) → IsWalk texts self.old → StandsAt self.old.seen.items name None → IsWalk texts self.new) }
        ensures added { OnOk result ((seen : Seen) × IsNewTree name seen × IsUnread seen × Adds self.old seen self.new) }
        ensures err { OnErr result (KeepsWalk self.old self.new) }
        ensures same { OnErr result (IsUnchanged self.old self.new) }
    {
        self.push(name, None, Joint::none())
    }

    /// The walk begins anew over the trees that were seen. It takes no memory.
    pub fn rewind(&mut self)
        ensures walk { KeepsWalk self.old self.new }
        ensures rewound { Rewinds self.old self.new }
    {
        forget_depths(&mut self.seen);
        self.waiting.clear();
        self.root = 0;
    }

    /// Drops the tree that was seen last, if there is one.
    fn drop_last(&mut self)
        ensures { Drops self.old self.new }
    {
        if let Some(last) = self.seen.pop() {
            remove_named(&mut self.places, &last.name);
        }
    }

    /// Takes the tree back that was given last, by `add` or `pass_over`, and begins the walk anew over the others. It
    /// takes no memory.
    pub fn take_back(&mut self)
        ensures walk { ComesBack self.old self.new }
        ensures trees { HasTreesBack self.old self.new }
        ensures roots { self.new.roots ≡ self.old.roots }
        ensures never { NoneLooked self.new.seen.items }
    {
        self.drop_last();
        self.rewind();
    }
}
