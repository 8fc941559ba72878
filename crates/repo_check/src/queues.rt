//! The visits of a walk, in the order in which they are made.

ghost use Rattle.std.specs.Prelude.{◌≡◌, ◌<◌, ◌↔◌, ◌^◌, ◌++◌, ◌∷◌, [], length, slice_get, take, OnOk, OnErr, IsTrue, Contains};
ghost use Rattle.repo_check.specs.Visiting.{AddsVisit};
ghost use Rattle.repo_check.specs.inner.Placing.{GivesPlace, HasMaps, KeepsPlaces, SaysPlace, slot_of};

use crate::visiting::Visit;
use repo_name::{Name, insert_named};
use std::alloc::{AllocError, Global};
use std::collections::BTreeMap;
use std::marker::Model;

/// Visits, each of them once, and where each of them stands.
#[derive(Drop)]
pub struct Visits {
    list: Vec<Visit>,
    /// By the slot of a visit: the places of those in it, by their trees. What it says beyond the list is of no account.
    index: Vec<BTreeMap<Name, usize>>,
    alloc: Global,
}

impl Model for Visits {
    ghost use Rattle.std.specs.Prelude.{List};
    ghost use Rattle.repo_check.specs.inner.Placing.{IsIndexed};
    ghost use Rattle.repo_check.specs.declared.visiting.Visit.{Visit};

    ghost Value = { List Visit };

    ghost view = { λ v. v.list.items };

    ghost invariant = { λ v. IsIndexed v.index.items v.list.items };
}

/// Where the map of a visit stands in an index: one slot for each depth and way.
fn slot_of(visit: Visit) -> usize
    ensures { result ≡ slot_of visit }
{
    let depth = visit.depth as usize;
    if visit.follows {
        2 * depth + 1
    } else {
        2 * depth
    }
}

/// Makes an index as long as this slot wants. It fails for memory alone, and then it may be longer than it was.
fn make_room(
    alloc: Global,
    index: &mut Vec<BTreeMap<Name, usize>>,
    slot: usize,
) -> Result<(), AllocError>
    ensures room { OnOk result (slot < length index.new.items) }
    ensures kept { HasMaps index.old.items index.new.items }
{
    for _ in index.len()..=slot {
        index.push(BTreeMap::new(alloc))?;
    }
    Ok(())
}

/// Puts the place of a visit into its slot. It fails for memory alone, and then the index gives what it gave.
fn put_place(
    index: &mut Vec<BTreeMap<Name, usize>>,
    visit: Visit,
    place: usize,
) -> Result<(), AllocError>
    ensures kept { KeepsPlaces index.old.items (slot_of visit) visit.tree index.new.items }
    ensures put { OnOk result (slot_of visit < length index.old.items → GivesPlace index.new.items (slot_of visit) visit.tree place) }
{
    match index.get_mut(slot_of(visit)) {
        Some(map) => insert_named(map, visit.tree, place),
        None => Ok(()),
    }
}

/// The place that an index gives a visit.
fn place_in(index: &[BTreeMap<Name, usize>], visit: Visit) -> Option<usize>
    ensures { SaysPlace index.now visit result }
{
    match index.get(slot_of(visit)) {
        Some(map) => map.get(&visit.tree).copied(),
        None => None,
    }
}

/// Puts a visit behind others. It fails for memory alone, and then nothing changed.
fn push(list: &mut Vec<Visit>, visit: Visit) -> Result<(), AllocError>
    ensures ok { OnOk result (list.new.items ≡ list.old.items ++ visit ∷ []) }
    ensures err { OnErr result (list.new.items ≡ list.old.items) }
{
    list.push(visit).map_err(|_| AllocError)
}

/// Whether two visits are one.
fn are_one(one: Visit, other: Visit) -> bool
    ensures { IsTrue result ↔ (one ≡ other) }
{
    one == other
}

/// The visit that stands there, if one does.
pub fn visit_there(visits: &[Visit], place: usize) -> Option<Visit>
    ensures { result ≡ slice_get visits.now place }
{
    visits.get(place).copied()
}

/// How many visits these are.
pub fn count(visits: &[Visit]) -> usize
    ensures count { result ≡ length visits.now }
    ensures small { length visits.now < 2 ^ 64 }
{
    visits.len()
}

impl Visits {
    /// No visits. It takes no memory.
    pub fn none(alloc: Global) -> Visits
        ensures { result ≡ [] }
    {
        Visits {
            list: Vec::new(alloc),
            index: Vec::new(alloc),
            alloc,
        }
    }

    /// The visits, lent.
    pub fn as_slice(&self) -> &[Visit]
        ensures { result.now ≡ self.now }
    {
        self.list.as_slice()
    }

    /// Whether a visit is among them.
    fn has(&self, visit: Visit) -> bool
        ensures { IsTrue result ↔ Contains self.now visit }
    {
        let Some(place) = place_in(self.index.as_slice(), visit) else {
            return false;
        };
        match visit_there(self.list.as_slice(), place) {
            Some(found) => are_one(found, visit),
            None => false,
        }
    }

    /// Adds a visit behind the others, if it isn't among them. It fails for memory alone, and then nothing changed.
    pub fn add(&mut self, visit: Visit) -> Result<(), AllocError>
        ensures ok { OnOk result (AddsVisit self.old visit self.new) }
        ensures err { OnErr result (self.new ≡ self.old) }
    {
        if self.has(visit) {
            return Ok(());
        }
        make_room(self.alloc, &mut self.index, slot_of(visit))?;
        put_place(&mut self.index, visit, self.list.len())?;
        push(&mut self.list, visit)
    }

    /// Drops all but so many of them. It takes no memory.
    pub fn truncate(&mut self, count: usize)
        ensures { self.new ≡ take count self.old }
    {
        self.list.truncate(count);
    }
}
