//! How a tree that was seen is read, as a part of a directory or as a directory by itself, and whether it breaks it.

ghost use Rattle.std.specs.Prelude.{◌≡◌, ◌⊎◌, ◌↔◌, true, slice_get, Some, None, IfSome, IsTrue};
ghost use Rattle.repo_reach.specs.Joints.{MayFollow};
ghost use Rattle.repo_reach.specs.Walks.{links_by, next_by, trees_below, IsTooDeep, BreaksHere};
ghost use Rattle.repo_reach.specs.inner.Looking.{BreaksAt, SaysInPlace};
ghost use Rattle.repo_reach.specs.declared.joints.Next.{Next};
ghost use Rattle.repo_reach.specs.declared.looks.Seen.{Seen};

use crate::joints::Next;
use crate::links::Links;
use crate::looks::{DEPTH, Seen};
use repo_name::Name;

/// Whether the text of a tree is that of no part.
pub(crate) fn is_malformed(seen: &Seen) -> bool
    ensures { IsTrue result ↔ (seen.now.joint.next ≡ Next.Malformed) }
{
    match seen.joint.next {
        Next::Malformed => true,
        _ => false,
    }
}

/// What a tree's nodes lead to, as a part of a directory or as a directory by itself.
fn links_by(seen: &Seen, follows: bool) -> Option<&Links>
    ensures some { IfSome result (λ links. links_by follows seen.now ≡ Some links.now) }
    ensures none { result ≡ None → links_by follows seen.now ≡ None }
{
    if follows && is_malformed(seen) {
        return None;
    }
    seen.links.as_ref()
}

/// The tree in which a tree goes on, as a part of a directory; a directory by itself goes on in none.
fn next_by(seen: &Seen, follows: bool) -> Option<Name>
    ensures { result ≡ next_by follows seen.now }
{
    if !follows {
        return None;
    }
    match seen.joint.next {
        Next::Tree(name) => Some(name),
        _ => None,
    }
}

/// The tree in which the one that stands there goes on.
pub(crate) fn next_at(all: &[Seen], at: usize, follows: bool) -> Option<Name>
    ensures { (seen : Seen) → slice_get all.now at ≡ Some seen → result ≡ next_by follows seen }
{
    match all.get(at) {
        Some(seen) => next_by(seen, follows),
        None => None,
    }
}

/// The trees below one.
fn below_by(seen: &Seen, follows: bool) -> &[Name]
    ensures { result.now ≡ trees_below (links_by follows seen.now) }
{
    match links_by(seen, follows) {
        Some(links) => links.trees.as_slice(),
        None => &[],
    }
}

/// The trees below the one that stands there.
pub(crate) fn below(all: &[Seen], at: usize, follows: bool) -> &[Name]
    ensures { (seen : Seen) → slice_get all.now at ≡ Some seen → result.now ≡ trees_below (links_by follows seen) }
{
    match all.get(at) {
        Some(seen) => below_by(seen, follows),
        None => &[],
    }
}

/// Whether a tree was read so and has nodes where none may be at this depth.
#[tactic(auto, unfolding(repo_tree::specs::Spelling::greatest_depth))]
fn is_too_deep(seen: &Seen, follows: bool, depth: usize) -> bool
    ensures { IsTrue result ↔ IsTooDeep seen.now follows depth }
{
    match links_by(seen, follows) {
        Some(links) => depth >= DEPTH && !links.is_bare,
        None => false,
    }
}

/// Whether a tree that is looked at at this depth breaks its directory by itself.
fn breaks_here(seen: &Seen, follows: bool, depth: usize) -> bool
    ensures { IsTrue result ↔ BreaksHere seen.now follows depth }
{
    is_too_deep(seen, follows, depth) || follows && is_malformed(seen)
}

/// The name of a tree, if it breaks its directory by itself where it is looked at at this depth.
fn broken_by(seen: &Seen, follows: bool, depth: usize) -> Option<Name>
    ensures some { IfSome result (λ n. BreaksHere seen.now follows depth × (seen.now.name ≡ n)) }
    ensures none { result ≡ None → ¬ BreaksHere seen.now follows depth }
{
    if breaks_here(seen, follows, depth) {
        return Some(seen.name);
    }
    None
}

/// The tree that stands there.
fn seen_at(all: &[Seen], at: usize) -> Option<&Seen>
    ensures some { IfSome result (λ seen. slice_get all.now at ≡ Some seen.now) }
    ensures none { result ≡ None → slice_get all.now at ≡ None }
{
    all.get(at)
}

/// The name of the one that stands there, if it does.
pub(crate) fn broken_at(all: &[Seen], at: usize, follows: bool, depth: usize) -> Option<Name>
    ensures { BreaksAt all.now at follows depth result }
{
    match seen_at(all, at) {
        Some(seen) => broken_by(seen, follows, depth),
        None => None,
    }
}

/// Whether a part may come after another one, as far as it is known.
fn is_in_place(seen: &Seen, behind: &Seen) -> bool
    ensures { IsTrue result ↔ ((links_by true behind.now ≡ None) ⊎ MayFollow seen.now.joint.ends behind.now.joint.ends) }
{
    match links_by(behind, true) {
        Some(_) => seen.joint.may_go_on(&behind.joint),
        None => true,
    }
}

/// Whether the part that stands behind may come after the one that stands there, as far as it is known.
pub(crate) fn stands_in_place(all: &[Seen], at: usize, behind: usize) -> bool
    ensures { SaysInPlace all.now at behind result }
{
    let Some(seen) = all.get(at) else {
        return true;
    };
    match all.get(behind) {
        Some(after) => is_in_place(seen, after),
        None => true,
    }
}
