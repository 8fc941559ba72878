//! Look-up of blobs over the facts of many indexes.

ghost use Rattle.std.specs.Prelude.{◌≡◌, ◌≢◌, ◌↔◌, ◌∷◌, [], List, IsTrue, IsFalse, OnOk, OnErr, IfOk, IfSome, IfNone, Contains};
ghost use Rattle.repo_pack.specs.declared.places.Place.{Place};
ghost use Rattle.repo_index.specs.IndexText.{fact_of, facts_in};
ghost use Rattle.repo_index.specs.Lookups.{IsLeast, IsNextPlace, IsLastPlace, Joins, Grew, HasSame};
ghost use Rattle.repo_index.specs.declared.facts.Fact.{Fact};

use crate::bounds::{greatest_of_pair, least_of_pair};
use crate::facts::{Fact, Facts, PackFacts};
use crate::index_text::IndexText;
use crate::keys::ByName;
use crate::placed::Placed;
use repo_name::{BlobKind, Name};
use repo_pack::Place;
use std::alloc::{AllocError, Global};
use std::collections::BTreeSet;
use std::marker::Model;
use std::ops::Bound;

/// Where blobs lie, by the facts of the indexes that were added. A clause sees these facts in a list, and tells which ones
/// it contains.
///
/// It finds a blob's least place, and the next one behind a place, in logarithmic time. A fact takes 76 bytes in an ordered set, whose blocks have room for 15
/// facts and hold 7 at least: 78 to 175 bytes a fact, and no allocation of its own. Who wants a pack's facts has them
/// [`Placed`].
#[derive(Drop)]
pub struct Lookup {
    by_name: BTreeSet<ByName>,
    alloc: Global,
}

impl Model for Lookup {
    ghost use Rattle.std.specs.Prelude.{List};
    ghost use Rattle.repo_index.specs.declared.facts.Fact.{Fact};

    ghost Value = { List Fact };

    ghost use Rattle.repo_index.specs.Lookups.{AreFacts};

    ghost view = { λ l. l.by_name.keys };

    ghost invariant = { λ l. AreFacts l.by_name.keys };
}

impl Lookup {
    /// A look-up without facts.
    pub fn new(alloc: Global) -> Lookup
        ensures { result ≡ [] }
    {
        Lookup {
            by_name: BTreeSet::new(alloc),
            alloc,
        }
    }

    /// Adds a fact, and says whether it is new. It fails for memory alone, and then nothing changed.
    fn add_fact(&mut self, fact: Fact) -> Result<bool, AllocError>
        ensures ok { OnOk result (Joins self.old (fact ∷ []) self.new) }
        ensures new { IfOk result (λ is_new. IsTrue is_new → ¬ Contains self.old fact) }
        ensures known { IfOk result (λ is_new. IsFalse is_new → self.new ≡ self.old) }
        ensures err { OnErr result (self.new ≡ self.old) }
    {
        let Ok(is_new) = self.by_name.insert(ByName::of(fact)) else {
            return Err(AllocError);
        };
        Ok(is_new)
    }

    /// Adds a fact, and notes it where it is new. It fails for memory alone, and then nothing changed.
    fn note_fact(&mut self, fact: Fact, noted: &mut Vec<Fact>) -> Result<(), AllocError>
        ensures ok { OnOk result (Joins self.old (fact ∷ []) self.new) }
        ensures noted { (base : List Fact) → Grew base noted.old.items self.old → Grew base noted.new.items self.new }
    {
        noted.reserve(1)?;
        if self.add_fact(fact)? {
            noted.push(fact).unwrap();
        }
        Ok(())
    }

    /// Adds some facts, and notes the new ones. It fails for memory alone, and then some first facts were added and
    /// noted.
    fn add_facts(&mut self, facts: &[Fact], noted: &mut Vec<Fact>) -> Result<(), AllocError>
        ensures ok { OnOk result (Joins self.old facts.now self.new) }
        ensures noted { (base : List Fact) → Grew base noted.old.items self.old → Grew base noted.new.items self.new }
    {
        for fact in facts {
            self.note_fact(*fact, noted)?;
        }
        Ok(())
    }

    /// Adds the facts of some packs, and notes the new ones. It fails for memory alone, and then some first facts were
    /// added and noted.
    fn add_packs(&mut self, packs: &[PackFacts], noted: &mut Vec<Fact>) -> Result<(), AllocError>
        ensures ok { OnOk result (Joins self.old (facts_in packs.now) self.new) }
        ensures noted { (base : List Fact) → Grew base noted.old.items self.old → Grew base noted.new.items self.new }
    {
        for listed in packs {
            self.add_facts(listed.facts.as_slice(), noted)?;
        }
        Ok(())
    }

    /// Removes a fact.
    fn remove_fact(&mut self, fact: Fact)
        ensures { (other : Fact) → Contains self.new other ↔ (Contains self.old other × (other ≢ fact)) }
    {
        self.by_name.remove(&ByName::of(fact));
    }

    /// Removes the facts that were noted as they were added: the look-up has the facts that it had before. It takes no
    /// memory.
    pub fn take_back(&mut self, noted: &[Fact])
        ensures { (base : List Fact) → Grew base noted.now self.old → HasSame base self.new }
    {
        for fact in noted {
            self.remove_fact(*fact);
        }
    }

    /// Adds the facts of an index, and gives those that are new. It fails for memory alone, and then the look-up has the
    /// facts that it had.
    pub fn add_noted(&mut self, text: &IndexText) -> Result<Facts, AllocError>
        ensures ok { OnOk result (Joins self.old (facts_in text.now) self.new) }
        ensures noted { IfOk result (λ noted. Grew self.old noted self.new) }
        ensures err { OnErr result (HasSame self.old self.new) }
    {
        let mut noted = Vec::new(self.alloc);
        match self.add_packs(text.packs(), &mut noted) {
            Ok(()) => Ok(Facts::of(noted)),
            Err(error) => {
                self.take_back(noted.as_slice());
                Err(error)
            }
        }
    }

    /// Adds the facts of an index. It fails for memory alone, and then the look-up has the facts that it had.
    pub fn add(&mut self, text: &IndexText) -> Result<(), AllocError>
        ensures ok { OnOk result (Joins self.old (facts_in text.now) self.new) }
        ensures err { OnErr result (HasSame self.old self.new) }
    {
        self.add_noted(text)?;
        Ok(())
    }

    /// The least place of a blob of this kind and name: that of the least pack, there that of the least offset, and
    /// then of the least length. `None` where no fact gives one. It takes no memory.
    pub fn find(&self, kind: BlobKind, name: &Name) -> Option<Place>
        ensures found { IfSome result (IsLeast self.now kind name.now) }
        ensures none { IfNone result ((place : Place) → ¬ Contains self.now (fact_of kind name.now place)) }
    {
        let least = least_of_pair(kind, *name);
        let greatest = greatest_of_pair(kind, *name);
        let of_pair = (Bound::Included(least), Bound::Included(greatest));
        let key = self.by_name.range(of_pair).next()?;
        Some(key.fact().place)
    }

    /// The next place behind a fact's at which its blob lies, by the facts added. `None` if there is none. It takes no memory.
    pub fn find_next(&self, fact: Fact) -> Option<Place>
        ensures found { IfSome result (IsNextPlace self.now fact.kind fact.name fact.place) }
        ensures none { IfNone result (IsLastPlace self.now fact.kind fact.name fact.place) }
    {
        // Its contract tells the proof what the type of names says.
        fact.place.pack.to_bytes();
        let greatest = greatest_of_pair(fact.kind, fact.name);
        let behind = (Bound::Excluded(ByName::of(fact)), Bound::Included(greatest));
        let key = self.by_name.range(behind).next()?;
        Some(key.fact().place)
    }

    /// The same facts by their places. It fails for memory alone.
    pub fn placed(&self) -> Result<Placed, AllocError>
        ensures { IfOk result (HasSame self.now) }
    {
        let facts = self
            .by_name
            .iter()
            .map(|key| key.fact())
            .collect(self.alloc)?;
        Ok(Placed::of(self.alloc, facts))
    }
}
