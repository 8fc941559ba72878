//! Which of the listed snapshots are chosen.

ghost use Rattle.std.specs.Prelude.{◌≡◌, ◌↔◌, IfOk, IsTrue, Contains, map};
ghost use Rattle.std.specs.List.{filter};
ghost use Rattle.std.proofs.Math.Bool.{beq};
ghost use Rattle.std.specs.BTreeSet.{contains};
ghost use Rattle.repo_name.specs.Naming.{name_cmp};
ghost use Rattle.repo_name.specs.declared.names.Name.{Name};
ghost use Rattle.repo_prune.specs.declared.choices.Choice.{Choice};
ghost use Rattle.repo_prune.specs.Forgetting.{AreChosenOf, WouldForget};
ghost use Rattle.repo_prune.specs.inner.Picking.{ArePicked, AreOfOthers};

use crate::choices::Choice;
use crate::keeping::{Policy, keep};
use repo_name::{Name, Text};
use repo_tree::Snapshot;
use std::alloc::{AllocError, Global};
use std::collections::BTreeSet;

/// The set of some names. It fails for memory alone.
fn set_of(alloc: Global, names: &[Name]) -> Result<BTreeSet<Name>, AllocError>
    ensures { IfOk result (λ set. (n : Name) → IsTrue (contains name_cmp set n) ↔ Contains names.now n) }
{
    let mut set = BTreeSet::new(alloc);
    for name in names {
        set.insert(*name)?;
    }
    Ok(set)
}

/// Those of a list that are in a set, or those that aren't, in the order of the list. It fails for memory alone.
fn those(
    alloc: Global,
    listed: &[Name],
    set: &BTreeSet<Name>,
    among: bool,
) -> Result<Vec<Name>, AllocError>
    ensures { IfOk result (λ picked. picked.items ≡ filter (λ n. beq (contains name_cmp set.now n) among) listed.now) }
{
    listed
        .iter()
        .copied()
        .filter(|name| set.contains(name) == among)
        .collect(alloc)
}

/// Those of a list that stand among some names, or those that don't, in the order of the list. It fails for memory
/// alone.
pub fn pick(
    alloc: Global,
    listed: &[Name],
    names: &[Name],
    among: bool,
) -> Result<Vec<Name>, AllocError>
    ensures picked { IfOk result (λ picked. ArePicked listed.now names.now among picked.items) }
{
    let set = set_of(alloc, names)?;
    those(alloc, listed, &set, among)
}

/// The names of some snapshots, in their order. It fails for memory alone.
fn names_of(alloc: Global, rows: &[(Name, Snapshot)]) -> Result<Vec<Name>, AllocError>
    ensures names { IfOk result (λ names. names.items ≡ map (λ row. row.0) rows.now) }
{
    rows.iter().map(|row| row.0).collect(alloc)
}

/// The names of the snapshots of other hosts than this one, in their order. It fails for memory alone.
fn names_of_others(
    alloc: Global,
    rows: &[(Name, Snapshot)],
    host: &Text,
) -> Result<Vec<Name>, AllocError>
    ensures others { IfOk result (λ names. AreOfOthers host.now rows.now names.items) }
{
    let mut names = Vec::new(alloc);
    for row in rows {
        if row.1.host.as_str() != host.as_str() {
            names.push(row.0)?;
        }
    }
    Ok(names)
}

/// Those of the listed snapshots that are of this host, and of which the policy keeps none, in the order of the list. It
/// fails for memory alone.
fn chosen_of(
    alloc: Global,
    host: &Text,
    policy: &Policy,
    listed: &[Name],
    rows: &[(Name, Snapshot)],
) -> Result<Vec<Name>, AllocError>
    ensures chosen { IfOk result (λ picked. AreChosenOf (Choice.KeepOf host.now policy.now) rows.now listed.now picked.items) }
{
    let kept = keep(alloc, rows, policy)?;
    let gone = pick(alloc, listed, kept.as_slice(), false)?;
    let others = names_of_others(alloc, rows, host)?;
    pick(alloc, gone.as_slice(), others.as_slice(), false)
}

/// Those of the listed snapshots that are chosen, in the order of the list; where a policy chooses, these are their
/// rows. It fails for memory alone.
pub fn chosen(
    alloc: Global,
    choice: &Choice,
    listed: &[Name],
    rows: &[(Name, Snapshot)],
) -> Result<Vec<Name>, AllocError>
    ensures chosen { IfOk result (λ picked. AreChosenOf choice.now rows.now listed.now picked.items) }
{
    match choice {
        Choice::Names(names) => pick(alloc, listed, names.as_slice(), true),
        Choice::Keep(policy) => {
            let kept = keep(alloc, rows, policy)?;
            pick(alloc, listed, kept.as_slice(), false)
        }
        Choice::KeepOf { host, policy } => chosen_of(alloc, host, policy, listed, rows),
    }
}

/// The names of those of a store's snapshots that a forget would delete, in the order of their rows, which are those of all
/// its snapshots. It fails for memory alone.
pub fn would_forget(
    alloc: Global,
    choice: &Choice,
    rows: &[(Name, Snapshot)],
) -> Result<Vec<Name>, AllocError>
    ensures would { IfOk result (λ names. WouldForget choice.now rows.now names.items) }
{
    let listed = names_of(alloc, rows)?;
    chosen(alloc, choice, listed.as_slice(), rows)
}
