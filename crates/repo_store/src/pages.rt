//! Pages of names, and all of them in a set.

ghost use Rattle.std.specs.Prelude.{◌≡◌, ◌↔◌, ◌≤◌, ◌<◌, ◌+◌, ◌-◌, ◌^◌, None, false, length, IsTrue, OnOk};
ghost use Rattle.repo_store.specs.Faults.{MayReadAsArmed};
ghost use Rattle.repo_store.specs.Kept.{PageJoins, ReadsNames};
ghost use Rattle.repo_store.specs.Laws.{HasCause, CountsFaults};
ghost use Rattle.repo_store.specs.Pages.{Above, NamesAscend, PageRises};

use crate::known::NameSet;
use crate::shelves::{Shelf, ShelfError};
use repo_name::{Kind, Name, insert_named};
use std::alloc::{AllocError, Global};
use std::cmp::Ordering;
use std::collections::BTreeMap;

/// Whether a name is above the given one, if one is given.
fn is_above(after: Option<Name>, name: Name) -> bool
    ensures { IsTrue result ↔ Above after name }
{
    match after {
        None => true,
        Some(after) => after.cmp(&name) == Ordering::Less,
    }
}

/// Whether names ascend, all above the given one.
fn ascend(after: Option<Name>, names: &[Name]) -> bool
    ensures { IsTrue result ↔ NamesAscend after names.now }
{
    let mut last = after;
    for name in names {
        if !is_above(last, *name) {
            return false;
        }
        last = Some(*name);
    }
    true
}

/// Whether a page rises: its names ascend, all above the given one, and there is one where more follow.
pub fn rises(after: Option<Name>, more: bool, names: &[Name]) -> bool
    ensures { IsTrue result ↔ PageRises after more names.now }
{
    ascend(after, names) && !(more && names.is_empty())
}

/// The names of a page join a set. It fails for memory alone.
fn join(names: &mut NameSet, page: &[Name]) -> Result<(), AllocError>
    ensures { OnOk result (PageJoins page.now names.old names.new) }
{
    for name in page {
        insert_named(names, *name, ())?;
    }
    Ok(())
}

/// More names than any page has.
const ALL: usize = usize::MAX;

/// Whether a page from the first name on has all names: they ascend, and none follow. No page has `ALL` of them.
fn is_whole(more: bool, names: &[Name]) -> bool
    ensures whole { IsTrue result ↔ (more ≡ false) × NamesAscend None names.now }
    ensures fewer { length names.now < 2 ^ 64 - 1 }
{
    !more && names.len() < ALL && ascend(None, names)
}

/// All names of a kind, asked for as one page, so that a folder is read once. `Fault` is told, too, where its
/// names don't ascend or more follow them, which an honest shelf never causes.
pub fn all_names<S: Shelf>(alloc: Global, shelf: &mut S, kind: Kind) -> Result<NameSet, ShelfError>
    ensures law { S.honest shelf.old → ReadsNames kind (S.store shelf.old) result (S.store shelf.new) }
    ensures cause { S.honest shelf.old → HasCause (S.failed shelf.old) result (S.failed shelf.new) }
    ensures armed { S.honest shelf.old → MayReadAsArmed (S.armed shelf.old) (S.own shelf.old) result (S.armed shelf.new) (S.own shelf.new) }
    ensures honest { S.honest shelf.old → S.honest shelf.new }
    ensures told { CountsFaults (S.faults shelf.old) result (S.faults shelf.new) }
    ensures read { S.reads shelf.new ≤ S.reads shelf.old + 1 }
    ensures quiet { S.writes shelf.new ≡ S.writes shelf.old }
{
    let page = shelf.names_after(kind, None, ALL)?;
    let listed = page.names.as_slice();
    if !is_whole(page.more, listed) {
        return Err(ShelfError::Fault);
    }
    let mut names = BTreeMap::new(alloc);
    join(&mut names, listed)?;
    Ok(names)
}
