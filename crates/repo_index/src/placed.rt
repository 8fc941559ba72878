//! The facts of a look-up by their places.

ghost use Rattle.std.specs.Prelude.{◌↔◌, IsTrue, IfOk};
ghost use Rattle.repo_index.specs.Lookups.{AreFacts, EndsWith, ArePacksOf, AreFactsOf, HasSame};

use crate::facts::{Fact, Facts};
use crate::keys::compare_by_place;
use repo_name::{Name, Names};
use std::alloc::{AllocError, Global};
use std::marker::Model;

/// Facts by their places: which packs they are of, and those of each pack, in logarithmic time. A clause sees these facts in
/// a list, and tells which ones it contains. [`Lookup::placed`](crate::Lookup::placed) makes it.
///
/// A fact takes 76 bytes, in one sorted list.
#[derive(Drop)]
pub struct Placed {
    by_place: Vec<Fact>,
    alloc: Global,
}

impl Model for Placed {
    ghost use Rattle.std.specs.Prelude.{List};
    ghost use Rattle.std.specs.List.Sorted.{IsStrictlySortedBy};
    ghost use Rattle.repo_index.specs.Order.{place_first};
    ghost use Rattle.repo_index.specs.Lookups.{AreFacts};
    ghost use Rattle.repo_index.specs.declared.facts.Fact.{Fact};

    ghost Value = { List Fact };

    ghost view = { λ p. p.by_place.items };

    ghost invariant = { λ p. AreFacts p.by_place.items × IsStrictlySortedBy place_first p.by_place.items };
}

/// Whether a name is the last of some.
fn ends_with(names: &[Name], name: &Name) -> bool
    ensures { IsTrue result ↔ EndsWith names.now name.now }
{
    match names.last() {
        Some(last) => last == name,
        None => false,
    }
}

impl Placed {
    /// These facts, each once. It takes no memory.
    pub(crate) fn of(alloc: Global, facts: Vec<Fact>) -> Placed
        requires { AreFacts facts.items }
        ensures { HasSame facts.items result }
    {
        let mut by_place = facts;
        by_place.sort_unstable_by(|a, b| compare_by_place(a, b));
        by_place.dedup();
        Placed { by_place, alloc }
    }

    /// The packs that the facts are of, ascending. It fails for memory alone.
    pub fn packs(&self) -> Result<Names, AllocError>
        ensures { IfOk result (ArePacksOf self.now) }
    {
        let mut packs: Vec<Name> = Vec::new(self.alloc);
        for fact in self.by_place.as_slice() {
            if !ends_with(packs.as_slice(), &fact.place.pack) {
                packs.push(fact.place.pack)?;
            }
        }
        Ok(Names::of(packs))
    }

    /// The run of a pack's facts.
    fn run_of(&self, pack: &Name) -> &[Fact]
        ensures { AreFactsOf self.now pack.now result.now }
    {
        let facts = self.by_place.as_slice();
        let start = facts.partition_point(|fact| fact.place.pack.cmp(pack).is_lt());
        let rest = &facts[start..];
        let count = rest.partition_point(|fact| fact.place.pack.cmp(pack).is_le());
        &rest[..count]
    }

    /// The facts of a pack, by offset, then by length, kind and name. It fails for memory alone.
    pub fn facts_of(&self, pack: &Name) -> Result<Facts, AllocError>
        ensures { IfOk result (AreFactsOf self.now pack.now) }
    {
        Ok(Facts::of(Vec::from_slice(self.alloc, self.run_of(pack))?))
    }
}
