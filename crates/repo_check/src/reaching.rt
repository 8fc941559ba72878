//! What the visits of a walk that is over give together.

ghost use Rattle.std.specs.Prelude.{◌≡◌, ◌∷◌, [], IfOk, OnOk};
ghost use Rattle.std.specs.List.Sorted.{IsStrictlySortedBy};
ghost use Rattle.repo_name.specs.Naming.{name_cmp};
ghost use Rattle.repo_name.specs.NameMaps.{found};
ghost use Rattle.repo_check.specs.Gathering.{AreGiven, HasGiven};
ghost use Rattle.repo_check.specs.inner.Gaining.{AddsGiven, AddsNames, AddsSuch};
ghost use Rattle.repo_check.specs.Visiting.{GoesOnWrong};
ghost use Rattle.repo_check.specs.inner.Gaining.{BreaksAs};
ghost use Rattle.repo_check.specs.Verdicts.{AreReached, reached_of};
ghost use Rattle.repo_check.specs.Walks.{walk_of};
ghost use Rattle.repo_check.specs.declared.visiting.Gift.{Gift};

use crate::knowing::{DEPTH, Known};
use crate::visiting::{Gift, Visit};
use crate::walks::Walk;
use repo_name::Name;
use std::alloc::{AllocError, Global};
use std::collections::BTreeSet;

/// The blobs that snapshots reach, each once and ascending.
#[derive(Drop)]
pub struct Reached {
    pub trees: Vec<Name>,
    pub content: Vec<Name>,
}

/// Adds some names to a set. It fails for memory alone.
fn add_names(set: &mut BTreeSet<Name>, names: &[Name]) -> Result<(), AllocError>
    ensures { OnOk result (AddsNames set.old names.now set.new) }
{
    for name in names {
        set.insert(*name)?;
    }
    Ok(())
}

/// Adds a name to a set. It fails for memory alone.
fn add_name(set: &mut BTreeSet<Name>, name: Name) -> Result<(), AllocError>
    ensures { OnOk result (AddsNames set.old (name ∷ []) set.new) }
{
    add_names(set, &[name])
}

/// Adds the content of a visit to a set. It fails for memory alone.
#[tactic(auto, unfolding(repo_tree::specs::Spelling::greatest_depth))]
fn add_content(set: &mut BTreeSet<Name>, known: &Known, visit: Visit) -> Result<(), AllocError>
    ensures { OnOk result (AddsGiven Gift.Content (found known.now.kept) set.old visit set.new) }
{
    if visit.depth >= DEPTH {
        return Ok(());
    }
    add_names(set, known.content(&visit.tree, visit.follows))
}

/// Adds the tree of a visit to a set, if it breaks its directory by itself. It fails for memory alone.
fn add_here(set: &mut BTreeSet<Name>, known: &Known, visit: Visit) -> Result<(), AllocError>
    ensures { OnOk result (AddsSuch (BreaksAs (found known.now.kept) visit) set.old set.new) }
{
    if !known.is_broken(visit) {
        return Ok(());
    }
    add_name(set, visit.tree)
}

/// Adds the tree in which that of a visit goes on wrong to a set, if it does. It fails for memory alone.
fn add_wrong(set: &mut BTreeSet<Name>, known: &Known, visit: Visit) -> Result<(), AllocError>
    ensures { OnOk result (AddsSuch (GoesOnWrong (found known.now.kept) visit) set.old set.new) }
{
    match known.wrong_next(visit) {
        Some(tree) => add_name(set, tree),
        None => Ok(()),
    }
}

/// Adds the trees that break their directories by a visit to a set. It fails for memory alone.
fn add_broken(set: &mut BTreeSet<Name>, known: &Known, visit: Visit) -> Result<(), AllocError>
    ensures { OnOk result (AddsGiven Gift.Broken (found known.now.kept) set.old visit set.new) }
{
    add_here(set, known, visit)?;
    add_wrong(set, known, visit)
}

/// Adds what a visit gives to a set. It fails for memory alone.
fn add_given(
    set: &mut BTreeSet<Name>,
    known: &Known,
    visit: Visit,
    gift: Gift,
) -> Result<(), AllocError>
    ensures { OnOk result (AddsGiven gift (found known.now.kept) set.old visit set.new) }
{
    match gift {
        Gift::Tree => add_name(set, visit.tree),
        Gift::Content => add_content(set, known, visit),
        Gift::Broken => add_broken(set, known, visit),
    }
}

/// The set of what visits give. It fails for memory alone.
fn set_given(
    alloc: Global,
    known: &Known,
    visits: &[Visit],
    gift: Gift,
) -> Result<BTreeSet<Name>, AllocError>
    ensures { IfOk result (HasGiven gift (found known.now.kept) visits.now) }
{
    let mut set = BTreeSet::new(alloc);
    for visit in visits {
        add_given(&mut set, known, *visit, gift)?;
    }
    Ok(set)
}

/// The names of a set, ascending. It fails for memory alone.
fn names_of(alloc: Global, set: &BTreeSet<Name>) -> Result<Vec<Name>, AllocError>
    ensures names { IfOk result (λ names. names.items ≡ set.now.keys) }
    ensures ascend { IfOk result (λ names. IsStrictlySortedBy name_cmp names.items) }
{
    set.iter().copied().collect(alloc)
}

/// What the visits of a walk give, each once and ascending. It fails for memory alone.
fn given_in(alloc: Global, walk: &Walk, gift: Gift) -> Result<Vec<Name>, AllocError>
    ensures { IfOk result (λ names. AreGiven gift (walk_of walk.now).known.kept walk.now.visits names.items) }
{
    let set = set_given(alloc, &walk.known, walk.visits.as_slice(), gift)?;
    names_of(alloc, &set)
}

/// The set of the trees that break their directories. It fails for memory alone.
pub fn broken_in(alloc: Global, walk: &Walk) -> Result<BTreeSet<Name>, AllocError>
    ensures { IfOk result (HasGiven Gift.Broken (walk_of walk.now).known.kept walk.now.visits) }
{
    set_given(alloc, &walk.known, walk.visits.as_slice(), Gift::Broken)
}

/// The trees of all visits of a walk, and their content. It fails for memory alone.
pub fn reached_in(alloc: Global, walk: &Walk) -> Result<Reached, AllocError>
    ensures { IfOk result (λ reached. AreReached (walk_of walk.now) (reached_of reached)) }
{
    let trees = given_in(alloc, walk, Gift::Tree)?;
    let content = given_in(alloc, walk, Gift::Content)?;
    Ok(Reached { trees, content })
}
