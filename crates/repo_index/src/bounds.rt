//! The least and the greatest facts of a kind and name.

ghost use Rattle.std.specs.Prelude.{◌≡◌};
ghost use Rattle.std.specs.BTreeMap.Range.{IsLeBy};
ghost use Rattle.repo_name.specs.Naming.{name_cmp, IsName};
ghost use Rattle.repo_name.specs.declared.names.Name.{Name};
ghost use Rattle.repo_pack.specs.declared.places.Place.{Place};
ghost use Rattle.repo_index.specs.IndexText.{IsPlace};
ghost use Rattle.repo_index.specs.Order.{IsAtMost};
ghost use Rattle.repo_index.specs.inner.Bounds.{IsBeforePair, IsAfterPair};

use crate::facts::Fact;
use crate::keys::ByName;
use repo_name::{BlobKind, Name};
use repo_pack::Place;

/// The name before all others.
fn least_name() -> Name
    ensures { (other : Name) → IsName other → IsLeBy name_cmp result other }
{
    Name([0; 32])
}

/// The name after all others.
fn greatest_name() -> Name
    ensures greatest { (other : Name) → IsName other → IsLeBy name_cmp other result }
    ensures name { IsName result }
{
    Name([255; 32])
}

/// The place before all others.
fn least_place() -> Place
    ensures { (other : Place) → IsPlace other → IsAtMost result other }
{
    Place {
        pack: least_name(),
        offset: 0,
        length: 0,
    }
}

/// The place after all others.
fn greatest_place() -> Place
    ensures greatest { (other : Place) → IsPlace other → IsAtMost other result }
    ensures place { IsPlace result }
{
    Place {
        pack: greatest_name(),
        offset: u32::MAX,
        length: u32::MAX,
    }
}

/// The least key of a kind and name.
pub(crate) fn least_of_pair(kind: BlobKind, name: Name) -> ByName
    ensures { IsBeforePair kind name result }
{
    let place = least_place();
    ByName::of(Fact { kind, name, place })
}

/// The greatest key of a kind and name.
pub(crate) fn greatest_of_pair(kind: BlobKind, name: Name) -> ByName
    ensures { IsAfterPair kind name result }
{
    let place = greatest_place();
    ByName::of(Fact { kind, name, place })
}
