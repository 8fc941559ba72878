//! Trees that were seen, and the depths at which they were looked at.

ghost use Rattle.std.specs.Prelude.{◌≡◌, ◌≢◌, ◌<◌, ◌+◌, ◌↔◌, ℕ, false, length, true, slice_get, slice_set, Some, IfOk, IsTrue, IsFalse};
ghost use Rattle.repo_tree.specs.Spelling.{greatest_depth};
ghost use Rattle.repo_reach.specs.Walks.{flags_of, WasAt, Flags, AreSameTrees, NoneLooked};
ghost use Rattle.repo_reach.specs.declared.looks.Seen.{Seen};

use crate::joints::Joint;
use crate::links::Links;
use repo_name::Name;
use std::alloc::{AllocError, Global};

/// How many components a path has at most.
pub const DEPTH: usize = 100;

/// A tree that was seen.
#[derive(Drop)]
pub struct Seen {
    pub name: Name,
    /// What its nodes lead to; nothing where it isn't there or can't be read.
    pub links: Option<Links>,
    /// What joins it to other parts of a directory.
    pub joint: Joint,
    /// At which lengths of a path, 0 to 100, it was looked at as a directory by itself.
    pub depths: Vec<bool>,
    /// At which it was looked at as a part of a directory, which goes on along `next`.
    pub followed: Vec<bool>,
}

/// Flags for each depth at which nothing was looked at. It fails for memory alone.
#[tactic(auto, unfolding(repo_tree::specs::Spelling::greatest_depth))]
pub(crate) fn no_depths(alloc: Global) -> Result<Vec<bool>, AllocError>
    ensures size { IfOk result (λ depths. length depths.items ≡ greatest_depth + 1) }
    ensures none { IfOk result (λ depths. (d : ℕ) → slice_get depths.items d ≢ Some true) }
{
    let mut depths = Vec::new(alloc);
    for _ in 0..=DEPTH {
        depths.push(false)?;
    }
    Ok(depths)
}

/// The flags of a tree, as a part of a directory or as a directory by itself.
pub(crate) fn flags(seen: &Seen, follows: bool) -> &[bool]
    ensures { result.now ≡ flags_of seen.now follows }
{
    if follows {
        seen.followed.as_slice()
    } else {
        seen.depths.as_slice()
    }
}

/// Whether nothing is left to look at there: the tree that stands there was looked at so at this depth, or there is no
/// such tree or no such depth.
pub(crate) fn is_past(all: &[Seen], at: usize, follows: bool, depth: usize) -> bool
    ensures looked { (seen : Seen) → slice_get all.now at ≡ Some seen → depth < length (flags_of seen follows) → IsTrue result ↔ WasAt seen follows depth }
    ensures left { IsFalse result → (seen : Seen) × (slice_get all.now at ≡ Some seen) × (slice_get (flags_of seen follows) depth ≡ Some false) }
{
    match all.get(at) {
        None => true,
        Some(seen) => match flags(seen, follows).get(depth) {
            None => true,
            Some(flag) => *flag,
        },
    }
}

/// Sets the flag that stands there, if one does.
fn set(flags: &mut Vec<bool>, at: usize)
    ensures { flags.new.items ≡ slice_set flags.old.items at true }
{
    if at < flags.len() {
        flags[at] = true;
    }
}

/// Notes that the tree that stands there was looked at so at this depth.
pub(crate) fn flag(all: &mut Vec<Seen>, at: usize, follows: bool, depth: usize)
    ensures { Flags all.old.items at follows depth all.new.items }
{
    if at < all.len() {
        let seen = &mut all[at];
        if follows {
            set(&mut seen.followed, depth);
        } else {
            set(&mut seen.depths, depth);
        }
    }
}

/// No flag of these is set any longer.
fn unset_all(depths: &mut Vec<bool>)
    ensures size { length depths.new.items ≡ length depths.old.items }
    ensures none { (depth : ℕ) → slice_get depths.new.items depth ≢ Some true }
{
    for flag in depths.iter_mut() {
        *flag = false;
    }
}

/// No tree of these was looked at at any depth any longer.
pub(crate) fn forget_depths(all: &mut Vec<Seen>)
    ensures same { AreSameTrees all.old.items all.new.items }
    ensures never { NoneLooked all.new.items }
{
    for seen in all.iter_mut() {
        unset_all(&mut seen.depths);
        unset_all(&mut seen.followed);
    }
}
