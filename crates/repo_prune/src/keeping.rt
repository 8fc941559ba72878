//! Which snapshots a policy keeps.

ghost use Rattle.std.specs.Prelude.{◌≡◌, ◌↔◌, IfOk, IsTrue, List, map};
ghost use Rattle.std.specs.Borrow.{Bor};
ghost use Rattle.std.specs.List.Sorted.{IsSortedBy, IsPermutation};
ghost use Rattle.repo_prune.specs.Keeping.{Row, AreKept};
ghost use Rattle.repo_prune.specs.inner.Walks.{is_before};

use crate::standings::{Standing, newest_first};
use repo_name::Name;
use repo_tree::Snapshot;
use std::alloc::{AllocError, Global};

/// How many snapshots of each host are kept.
#[derive(Clone, Copy, Debug, PartialEq, Eq)]
pub struct Policy {
    /// So many of the last ones.
    pub last: u32,
    /// And the last of each of so many of the last days that have one.
    pub daily: u32,
}

impl Policy {
    /// Whether both counts are 0.
    pub fn keeps_nothing(&self) -> bool
        ensures { IsTrue result ↔ ((self.now.last ≡ 0) × (self.now.daily ≡ 0)) }
    {
        self.last == 0 && self.daily == 0
    }
}

/// The rows, sorted by host, and in a host from the newest on. It fails for memory alone.
fn newest_down(
    alloc: Global,
    rows: &[(Name, Snapshot)],
) -> Result<Vec<&(Name, Snapshot)>, AllocError>
    ensures sorted { IfOk result (λ sorted. IsSortedBy (λ a b. is_before b.now a.now) sorted.items) }
    ensures same { IfOk result (λ sorted. (before : List (Bor Row)) × (map (λ r. r.now) before ≡ rows.now) × IsPermutation before sorted.items) }
{
    let mut sorted = Vec::new(alloc);
    for row in rows {
        sorted.push(row)?;
    }
    sorted.sort_unstable_by(|a, b| newest_first(a, b));
    Ok(sorted)
}

/// The names of the snapshots that the policy keeps, each once and ascending, whatever the order of the rows. It fails
/// for memory alone.
pub fn keep(
    alloc: Global,
    rows: &[(Name, Snapshot)],
    policy: &Policy,
) -> Result<Vec<Name>, AllocError>
    ensures kept { IfOk result (λ names. AreKept policy.now rows.now names.items) }
{
    let mut names = Vec::new(alloc);
    let mut before = None;
    let sorted = newest_down(alloc, rows)?;
    for row in sorted.as_slice() {
        let standing = Standing::after(before, *row);
        if standing.is_kept(policy) {
            names.push(row.0)?;
        }
        before = Some(standing);
    }
    names.sort_unstable();
    names.dedup();
    Ok(names)
}
