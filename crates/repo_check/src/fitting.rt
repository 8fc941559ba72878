//! Whether an index fits the packs that it names.

ghost use Rattle.std.specs.Prelude.{◌≡◌, ◌↔◌, None, option_map, IfOk, IsTrue, IsFalse};
ghost use Rattle.repo_name.specs.declared.names.Name.{Name};
ghost use Rattle.repo_store.specs.Pages.{NamesAscend};
ghost use Rattle.repo_check.specs.Fitting.{ListsAsKnown, ListsOtherwise, Fits, Misfits, facts_by, AllListedAsKnown, OneIsListedOtherwise};
ghost use Rattle.repo_check.specs.Gathering.{well_noted};
ghost use Rattle.repo_check.specs.Rounds.{round_of};

use crate::rounds::{Note, Round};
use repo_index::{Fact, Facts, IndexText, Lookup, Placed};
use repo_name::Name;
use std::alloc::{AllocError, Global};

/// Whether two facts are one.
fn is_same(a: &Fact, b: &Fact) -> bool
    ensures { IsTrue result ↔ (a.now ≡ b.now) }
{
    a == b
}

/// Whether two lists of facts are one.
fn are_same(a: &[Fact], b: &[Fact]) -> bool
    ensures { IsTrue result ↔ (a.now ≡ b.now) }
{
    if a.len() != b.len() {
        return false;
    }
    for place in 0..a.len() {
        if !is_same(&a[place], &b[place]) {
            return false;
        }
    }
    true
}

/// What an object gives, if it reads. It takes no memory.
fn well_of(note: &Note<Facts>) -> Option<&Facts>
    ensures { option_map (λ facts. facts.now) result ≡ well_noted note.now }
{
    match note {
        Note::Well(facts) => Some(facts),
        Note::Fault(_) => None,
    }
}

/// The facts of a pack, if it was noted and reads. The names that were listed ascend, so they are searched by halves. It
/// takes no memory.
fn facts_of<'a>(packs: &'a Round<Facts>, pack: &Name) -> Option<&'a Facts>
    ensures { NamesAscend None packs.now.roll.names.items → option_map (λ facts. facts.now) result ≡ facts_by (round_of packs.now) pack.now }
{
    let Ok(place) = packs.roll.names.as_slice().binary_search(pack) else {
        return None;
    };
    let note = packs.notes.get(place)?;
    well_of(note)
}

/// Whether an index lists a pack just as it is known. It fails for memory alone.
fn lists_as_known(own: &Placed, packs: &Round<Facts>, pack: &Name) -> Result<bool, AllocError>
    ensures yes { NamesAscend None packs.now.roll.names.items → IfOk result (λ is. IsTrue is → ListsAsKnown own.now (facts_by (round_of packs.now)) pack.now) }
    ensures no { NamesAscend None packs.now.roll.names.items → IfOk result (λ is. IsFalse is → ListsOtherwise own.now (facts_by (round_of packs.now)) pack.now) }
{
    let Some(known) = facts_of(packs, pack) else {
        return Ok(false);
    };
    let facts = own.facts_of(pack)?;
    Ok(are_same(facts.as_slice(), known.as_slice()))
}

/// Whether it lists all of these packs so. It fails for memory alone.
fn all_as_known(own: &Placed, packs: &Round<Facts>, names: &[Name]) -> Result<bool, AllocError>
    ensures yes { NamesAscend None packs.now.roll.names.items → IfOk result (λ are. IsTrue are
        → AllListedAsKnown own.now (facts_by (round_of packs.now)) names.now) }
    ensures no { NamesAscend None packs.now.roll.names.items → IfOk result (λ are. IsFalse are
        → OneIsListedOtherwise own.now (facts_by (round_of packs.now)) names.now) }
{
    for pack in names {
        if !lists_as_known(own, packs, pack)? {
            return Ok(false);
        }
    }
    Ok(true)
}

/// Whether an index lists each pack that it names just as it is known, by what was noted of the packs, whose names
/// ascend. No walk over a pack's blobs is made for each fact: both lists are in one order. It fails for memory alone.
pub fn fits(alloc: Global, text: &IndexText, packs: &Round<Facts>) -> Result<bool, AllocError>
    ensures yes { NamesAscend None packs.now.roll.names.items → IfOk result (λ is. IsTrue is → Fits text.now (facts_by (round_of packs.now))) }
    ensures no { NamesAscend None packs.now.roll.names.items → IfOk result (λ is. IsFalse is → Misfits text.now (facts_by (round_of packs.now))) }
{
    let mut facts = Lookup::new(alloc);
    facts.add(text)?;
    let own = facts.placed()?;
    let names = own.packs()?;
    all_as_known(&own, packs, names.as_slice())
}
