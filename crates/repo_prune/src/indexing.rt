//! How packs are listed in new indexes, as a prune does it.

ghost use Rattle.std.specs.Prelude.{◌≡◌, take, IfOk};
ghost use Rattle.std.specs.List.Sorted.{IsSortedBy, IsPermutation};
ghost use Rattle.repo_name.specs.Naming.{name_cmp};
ghost use Rattle.repo_writing.specs.Writing.{FewWait};
ghost use Rattle.repo_prune.specs.inner.Indexing.{IsIndexCut, AreSmall, is_before};

use repo_index::{Facts, IndexText, PackFacts};
use repo_name::FACTS_LIMIT;
use std::alloc::{AllocError, Global};
use std::cmp::Ordering;

/// The order of packs: that of their names.
fn by_name(a: &PackFacts, b: &PackFacts) -> Ordering
    ensures { result ≡ name_cmp a.now.pack b.now.pack }
{
    a.pack.cmp(&b.pack)
}

/// Sorts packs by their names. It takes no memory.
pub fn sort_packs(packs: &mut Vec<PackFacts>)
    ensures same { IsPermutation packs.old.items packs.new.items }
    ensures sorted { IsSortedBy is_before packs.new.items }
{
    packs.sort_unstable_by(|a, b| by_name(a, b));
}

/// How many of the first of some packs go into one index: as many as it takes to have 20,000 blobs, or all. So it has at
/// most 24,095 blobs, where each pack has at most 4,096.
pub fn cut(packs: &[PackFacts]) -> usize
    ensures cut { IsIndexCut packs.now result }
    ensures few { AreSmall packs.now → FewWait (take result packs.now) }
{
    let mut count: usize = 0;
    let mut taken: usize = 0;
    for pack in packs {
        if count >= FACTS_LIMIT {
            return taken;
        }
        count = count.saturating_add(pack.facts.as_slice().len());
        taken = taken.saturating_add(1);
    }
    taken
}

/// What an index lists of a pack, copied. It fails for memory alone.
fn copy_of(alloc: Global, listed: &PackFacts) -> Result<PackFacts, AllocError>
    ensures { IfOk result (λ copy. copy ≡ listed.now) }
{
    let mut facts = Vec::new(alloc);
    facts.extend_from_slice(listed.facts.as_slice())?;
    Ok(PackFacts {
        pack: listed.pack,
        facts: Facts::of(facts),
    })
}

/// Some packs, copied. It fails for memory alone.
pub fn copies_of(alloc: Global, packs: &[PackFacts]) -> Result<Vec<PackFacts>, AllocError>
    ensures { IfOk result (λ copies. copies.items ≡ packs.now) }
{
    let mut copies = Vec::new(alloc);
    for pack in packs {
        copies.push(copy_of(alloc, pack)?)?;
    }
    Ok(copies)
}

/// An index of some packs. It fails for memory alone.
pub fn index_of(alloc: Global, packs: &[PackFacts]) -> Result<IndexText, AllocError>
    ensures { IfOk result (λ text. text ≡ packs.now) }
{
    Ok(IndexText::of(copies_of(alloc, packs)?))
}
