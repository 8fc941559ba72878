//! What a prune keeps, and what it moves.

ghost use Rattle.std.specs.Prelude.{◌≡◌, ◌≤◌, ◌↔◌, length, IfOk, OnOk, IsTrue, Contains};
ghost use Rattle.repo_name.specs.Limits.{blobs_limit};
ghost use Rattle.repo_pack.specs.declared.places.Place.{Place};
ghost use Rattle.repo_index.specs.Lookups.{HasSame, IsLeast};
ghost use Rattle.repo_prune.specs.Plans.{IsUsedCopy, IsPlanOf, Covers, Plans, AreOwnCopies};

use repo_index::{Fact, Lookup, PackFacts, Placed};
use repo_name::{BLOBS_LIMIT, Name};
use repo_pack::Place;
use repo_reach::Used;
use std::alloc::{AllocError, Global};

/// What a prune keeps, and what it moves: of each used blob the copy at its least place, once.
#[derive(Drop)]
pub struct Plan {
    /// The packs that stay as they are, ascending: each has 1 to 4,096 blobs, all of them used copies.
    pub kept: Vec<PackFacts>,
    /// The used copies in all other packs, by pack, offset and length.
    pub moves: Vec<Fact>,
}

/// Whether two places are one.
fn is_same(one: Place, other: Place) -> bool
    ensures { IsTrue result ↔ (one ≡ other) }
{
    one == other
}

/// Whether a blob lies at the least place of its kind and name.
fn is_least(lookup: &Lookup, fact: &Fact) -> bool
    ensures { Contains lookup.now fact.now → IsTrue result ↔ IsLeast lookup.now fact.now.kind fact.now.name fact.now.place }
{
    match lookup.find(fact.kind, &fact.name) {
        None => false,
        Some(place) => is_same(place, fact.place),
    }
}

/// Whether a blob is the copy of its kind and name that is used.
fn is_used_copy(lookup: &Lookup, used: &Used, fact: &Fact) -> bool
    ensures { Contains lookup.now fact.now → IsTrue result ↔ IsUsedCopy used.now lookup.now fact.now }
{
    used.has(fact.kind, &fact.name) && is_least(lookup, fact)
}

/// Those of some blobs that are used copies, in their order. It fails for memory alone.
fn used_copies(
    alloc: Global,
    lookup: &Lookup,
    used: &Used,
    own: &[Fact],
) -> Result<Vec<Fact>, AllocError>
    ensures { IfOk result (λ copies. AreOwnCopies used.now lookup.now own.now copies.items) }
{
    let mut copies = Vec::new(alloc);
    for fact in own {
        if is_used_copy(lookup, used, fact) {
            copies.push(*fact)?;
        }
    }
    Ok(copies)
}

/// Whether a pack with these blobs, of which these are used copies, stays.
fn is_kept(own: &[Fact], copies: &[Fact]) -> bool
    ensures { IsTrue result ↔ ((1 ≤ length own.now) × (length own.now ≤ blobs_limit) × (length copies.now ≡ length own.now)) }
{
    !own.is_empty() && own.len() <= BLOBS_LIMIT && copies.len() == own.len()
}

impl Plan {
    /// What becomes of a pack comes to the plan, by the same facts in both orders. It fails for memory alone.
    fn add(
        &mut self,
        alloc: Global,
        lookup: &Lookup,
        placed: &Placed,
        used: &Used,
        pack: Name,
    ) -> Result<(), AllocError>
        ensures { HasSame lookup.now placed.now → OnOk result (Plans used.now lookup.now pack self.old self.new) }
    {
        let own = placed.facts_of(&pack)?;
        let copies = used_copies(alloc, lookup, used, own.as_slice())?;
        if is_kept(own.as_slice(), copies.as_slice()) {
            self.kept.push(PackFacts { pack, facts: own })?;
            Ok(())
        } else {
            self.moves.extend_from_slice(copies.as_slice())?;
            Ok(())
        }
    }

    /// What is kept and what moves, where these blobs are used and the indexes say where they lie. It fails for memory
    /// alone.
    pub fn of(alloc: Global, lookup: &Lookup, used: &Used) -> Result<Plan, AllocError>
        ensures plan { IfOk result (IsPlanOf used.now lookup.now) }
        ensures covers { IfOk result (Covers used.now lookup.now) }
    {
        let mut plan = Plan {
            kept: Vec::new(alloc),
            moves: Vec::new(alloc),
        };
        let placed = lookup.placed()?;
        let packs = placed.packs()?;
        let names = packs.as_slice();
        for pack in names {
            plan.add(alloc, lookup, &placed, used, *pack)?;
        }
        Ok(plan)
    }
}
