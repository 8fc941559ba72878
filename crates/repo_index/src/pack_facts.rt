//! What an index lists of a pack that was read, or sealed.

ghost use Rattle.std.specs.Prelude.{◌≡◌, ◌<◌, ◌^◌, length, map, IfOk};
ghost use Rattle.repo_pack.specs.PackLayout.{blobs_of};
ghost use Rattle.repo_index.specs.Exactness.{fact_in, AreFactsAt};

use crate::facts::{Fact, Facts, PackFacts};
use repo_name::Name;
use repo_pack::{PackView, Place, Sealed};
use std::alloc::{AllocError, Global};

impl PackFacts {
    /// The facts of a pack's blobs, in the pack's order, as an index lists them that is exact for it. It fails for memory
    /// alone.
    pub fn of_pack(alloc: Global, pack: &Name, view: &PackView) -> Result<PackFacts, AllocError>
        requires { length (blobs_of view.now) < 2 ^ 32 }
        ensures pack { IfOk result (λ listed. listed.pack ≡ pack.now) }
        ensures facts { IfOk result (λ listed. AreFactsAt pack.now view.now listed.facts) }
    {
        let pack = *pack;
        let mut facts = Vec::with_capacity(alloc, view.len())?;
        for place in 0..view.len() {
            let entry = view.entry(place);
            let (kind, name, length) = (entry.kind, entry.name, entry.length);
            let offset = entry.offset as u32;
            let place = Place {
                pack,
                offset,
                length,
            };
            facts.push(Fact { kind, name, place })?;
        }
        let facts = Facts::of(facts);
        Ok(PackFacts { pack, facts })
    }

    /// The facts of a sealed pack's blobs, in the pack's order. It fails for memory alone.
    pub fn of_sealed(alloc: Global, sealed: &Sealed) -> Result<PackFacts, AllocError>
        ensures pack { IfOk result (λ listed. listed.pack ≡ sealed.now.name) }
        ensures facts { IfOk result (λ listed. listed.facts ≡ map fact_in sealed.now.blobs.items) }
    {
        let pack = sealed.name;
        let blobs = sealed.blobs.as_slice();
        let mut facts = Vec::with_capacity(alloc, blobs.len())?;
        for blob in blobs {
            let (kind, name, place) = (blob.kind, blob.name, blob.place);
            facts.push(Fact { kind, name, place })?;
        }
        let facts = Facts::of(facts);
        Ok(PackFacts { pack, facts })
    }
}
