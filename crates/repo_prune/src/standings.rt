//! Where a row stands among those of its host.

ghost use Rattle.std.specs.Prelude.{◌≡◌, ◌↔◌, ℕ, true, List, IsTrue, Some};
ghost use Rattle.repo_prune.specs.Keeping.{Row};
ghost use Rattle.repo_prune.specs.inner.Walks.{row_cmp, GoesDown, IsKeptAt, RowStandsAt, RowStandsAfter};

use crate::keeping::Policy;
use repo_name::Name;
use repo_tree::Snapshot;
use std::cmp::Ordering;

/// The seconds of a day.
const DAY: u64 = 86_400;

/// Where a row stands, as the rows are gone down from the newest on: how many rows of its host came so far with it, how
/// many of these are later, how many later days they have, and whether it is the last of its day.
#[derive(Clone, Copy, Debug)]
pub struct Standing<'a> {
    pub row: &'a (Name, Snapshot),
    pub seen: usize,
    pub later: usize,
    pub days: usize,
    pub is_last: bool,
}

/// The order of rows by host, and in a host from the newest on.
pub fn newest_first(a: &(Name, Snapshot), b: &(Name, Snapshot)) -> Ordering
    ensures { result ≡ row_cmp b.now a.now }
{
    let hosts = b
        .1
        .host
        .as_str()
        .as_bytes()
        .cmp(a.1.host.as_str().as_bytes());
    hosts.then(b.1.time.cmp(&a.1.time)).then(b.0.cmp(&a.0))
}

impl<'a> Standing<'a> {
    /// Where the newest row of a host stands.
    fn first(row: &'a (Name, Snapshot)) -> Standing<'a>
        ensures row { result.row.now ≡ row.now }
        ensures counts { (result.seen ≡ 1) × (result.later ≡ 0) × (result.days ≡ 0) × (result.is_last ≡ true) }
    {
        Standing {
            row,
            seen: 1,
            later: 0,
            days: 0,
            is_last: true,
        }
    }

    /// Where the next row of the host stands.
    fn next(self, row: &'a (Name, Snapshot)) -> Standing<'a>
        ensures row { result.row.now ≡ row.now }
        ensures goes { GoesDown self.entry row.now result }
    {
        let seen = self.seen.saturating_add(1);
        if newest_first(self.row, row) == Ordering::Equal {
            return Standing { row, seen, ..self };
        }
        let is_last = row.1.time / DAY != self.row.1.time / DAY;
        Standing {
            row,
            seen,
            later: self.seen,
            days: if is_last {
                self.days.saturating_add(1)
            } else {
                self.days
            },
            is_last,
        }
    }

    /// Where a row stands, after the one before it.
    pub fn after(before: Option<Standing<'a>>, row: &'a (Name, Snapshot)) -> Standing<'a>
        ensures { RowStandsAfter before.entry row.now result }
    {
        match before {
            Some(before) => {
                if before.row.1.host.as_str() == row.1.host.as_str() {
                    before.next(row)
                } else {
                    Standing::first(row)
                }
            }
            None => Standing::first(row),
        }
    }

    /// Whether the policy keeps it.
    pub fn is_kept(&self, policy: &Policy) -> bool
        ensures { (rows : List Row) (place : ℕ) → RowStandsAt rows place self.now.row.now self.now → IsTrue result ↔ IsKeptAt policy.now rows self.now.row.now }
    {
        self.later < policy.last as usize || self.is_last && self.days < policy.daily as usize
    }
}
