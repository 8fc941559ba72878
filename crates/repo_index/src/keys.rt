//! The two orders of facts.

ghost use Rattle.std.specs.Prelude.{◌≡◌};
ghost use Rattle.repo_pack.specs.PackLayout.{kind_number};
ghost use Rattle.repo_index.specs.Order.{kind_cmp, place_cmp, place_first};

use crate::facts::Fact;
use repo_name::BlobKind;
use repo_pack::Place;
use std::cmp::Ordering;
use std::marker::Model;

/// A kind's number in a pack.
fn number_of(kind: BlobKind) -> u8
    ensures { result ≡ kind_number kind }
{
    match kind {
        BlobKind::Content => 0,
        BlobKind::Tree => 1,
    }
}

/// How two kinds go by their numbers in a pack.
fn compare_kinds(a: BlobKind, b: BlobKind) -> Ordering
    ensures { result ≡ kind_cmp a b }
{
    number_of(a).cmp(&number_of(b))
}

/// How two places go by pack, offset and length.
fn compare_places(a: &Place, b: &Place) -> Ordering
    ensures { result ≡ place_cmp a.now b.now }
{
    a.pack
        .cmp(&b.pack)
        .then(a.offset.cmp(&b.offset))
        .then(a.length.cmp(&b.length))
}

/// How two facts go by their places, then by their kinds and names.
pub(crate) fn compare_by_place(a: &Fact, b: &Fact) -> Ordering
    ensures { result ≡ place_first a.now b.now }
{
    compare_places(&a.place, &b.place)
        .then(compare_kinds(a.kind, b.kind))
        .then(a.name.cmp(&b.name))
}

/// A fact that goes by its kind and name, then by its place. A clause sees the fact.
#[derive(Clone, Copy, Debug)]
pub(crate) struct ByName {
    fact: Fact,
}

impl Model for ByName {
    ghost use Rattle.repo_index.specs.declared.facts.Fact.{Fact};

    ghost Value = { Fact };

    ghost view = { λ k. k.fact };

    ghost inverse = { λ f. record { fact = f } };
}

impl ByName {
    ghost use Rattle.std.specs.Prelude.{◌≡◌};

    /// The key of a fact.
    pub(crate) fn of(fact: Fact) -> ByName
        ensures { result ≡ fact }
    {
        ByName { fact }
    }

    /// The fact.
    pub(crate) fn fact(&self) -> Fact
        ensures { result ≡ self.now }
    {
        self.fact
    }
}

impl PartialEq for ByName {
    ghost use Rattle.std.specs.Ordering.{eq_by_cmp};
    ghost use Rattle.std.specs.Cmp.{partial_equiv_from_equiv, eq_by_cmp_equiv};
    ghost use Rattle.repo_index.specs.Order.{name_first, name_first_total};

    ghost eq = { eq_by_cmp name_first };

    ghost laws = { partial_equiv_from_equiv (eq_by_cmp_equiv name_first_total) };

    fn eq(&self, other: &ByName) -> bool {
        self.cmp(other) == Ordering::Equal
    }
}

impl Eq for ByName {
    ghost use Rattle.std.specs.Cmp.{eq_by_cmp_equiv};
    ghost use Rattle.repo_index.specs.Order.{name_first_total};

    ghost laws = { eq_by_cmp_equiv name_first_total };
}

impl PartialOrd for ByName {
    ghost use Rattle.std.specs.Ordering.{as_partial_cmp};
    ghost use Rattle.std.specs.Cmp.{partial_order_from_total};
    ghost use Rattle.repo_index.specs.Order.{name_first, name_first_total};

    ghost partial_cmp = { as_partial_cmp name_first };

    ghost laws = { partial_order_from_total name_first_total };

    fn partial_cmp(&self, other: &ByName) -> Option<Ordering> {
        Some(self.cmp(other))
    }
}

impl Ord for ByName {
    ghost use Rattle.std.specs.Prelude.{refl};
    ghost use Rattle.repo_index.specs.Order.{name_first, name_first_total};

    ghost cmp = { name_first };

    ghost total = { name_first_total };

    ghost matches_partial_cmp = { λ a b. refl };

    ghost matches_eq = { λ a b. refl };

    fn cmp(&self, other: &ByName) -> Ordering {
        let (a, b) = (&self.fact, &other.fact);
        compare_kinds(a.kind, b.kind)
            .then(a.name.cmp(&b.name))
            .then(compare_places(&a.place, &b.place))
    }
}
