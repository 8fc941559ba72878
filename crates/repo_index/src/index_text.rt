//! The list that an index's text spells.

use crate::facts::PackFacts;
use std::alloc::AllocError;
use std::marker::Model;

/// An index: packs with facts of each, in the text's order. A clause sees the list.
///
/// An item without facts, and two items of one pack, stay as they stand.
#[derive(Clone, Debug, Drop)]
pub struct IndexText {
    packs: Vec<PackFacts>,
}

impl Model for IndexText {
    ghost use Rattle.std.specs.Prelude.{List};
    ghost use Rattle.repo_index.specs.declared.facts.PackFacts.{PackFacts};

    ghost Value = { List PackFacts };

    ghost view = { λ t. t.packs.items };
}

impl IndexText {
    ghost use Rattle.std.specs.Prelude.{◌≡◌, ◌++◌, ◌∷◌, [], OnOk, OnErr};

    /// The index that lists these packs.
    pub fn of(packs: Vec<PackFacts>) -> IndexText
        ensures { result ≡ packs.items }
    {
        IndexText { packs }
    }

    /// Lists one more pack, at the end. It fails for memory alone, and then nothing changed.
    pub fn push(&mut self, listed: PackFacts) -> Result<(), AllocError>
        ensures ok { OnOk result (self.new ≡ self.old ++ listed ∷ []) }
        ensures err { OnErr result (self.new ≡ self.old) }
    {
        self.packs.push(listed).map_err(|_| AllocError)
    }

    /// The packs, lent.
    pub fn packs(&self) -> &[PackFacts]
        ensures { result.now ≡ self.now }
    {
        self.packs.as_slice()
    }
}
