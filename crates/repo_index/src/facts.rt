//! What an index says of blobs.

use repo_name::{BlobKind, Name};
use repo_pack::Place;
use std::marker::Model;

/// A blob of this kind and name lies at this place.
#[derive(Clone, Copy, Debug, PartialEq, Eq)]
pub struct Fact {
    pub kind: BlobKind,
    pub name: Name,
    pub place: Place,
}

/// Some facts, in an order that their owner states. A clause sees their list.
#[derive(Clone, Debug, Drop)]
pub struct Facts {
    inner: Vec<Fact>,
}

impl Model for Facts {
    ghost use Rattle.std.specs.Prelude.{List};
    ghost use Rattle.repo_index.specs.declared.facts.Fact.{Fact};

    ghost Value = { List Fact };

    ghost view = { λ f. f.inner.items };
}

impl Facts {
    ghost use Rattle.std.specs.Prelude.{◌≡◌};

    /// The facts of a `Vec`.
    pub fn of(inner: Vec<Fact>) -> Facts
        ensures { result ≡ inner.items }
    {
        Facts { inner }
    }

    /// The facts, lent.
    pub fn as_slice(&self) -> &[Fact]
        ensures { result.now ≡ self.now }
    {
        self.inner.as_slice()
    }
}

/// What an index lists of a pack: its name, and facts of its blobs.
#[derive(Clone, Debug, Drop)]
pub struct PackFacts {
    pub pack: Name,
    pub facts: Facts,
}
