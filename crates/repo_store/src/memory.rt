//! A shelf in memory.

ghost use Rattle.std.specs.Prelude.{◌≡◌, Some, option_map, All, IfOk, OnOk, OnErr};
ghost use Rattle.std.specs.BTreeMap.{IsOrdered};
ghost use Rattle.repo_name.specs.NameMaps.{found};
ghost use Rattle.repo_name.specs.Naming.{name_cmp, IsName};
ghost use Rattle.repo_store.specs.Memory.{objects_of, store_of, above, AddedIn, RemovedIn, IsFirstPart};
ghost use Rattle.repo_store.specs.Slices.{IsSlice, HasLength};
ghost use Rattle.repo_store.specs.Stores.{empty};

use crate::shelves::{Page, Shelf, ShelfError, Slice};
use repo_locks::Ledger;
use repo_name::{Bytes, Kind, Name, Names, Token, insert_named, remove_named};
use std::alloc::{AllocError, Global};
use std::collections::BTreeMap;
use std::ops::Bound;

/// A shelf that keeps everything in memory. It is always honest, and never at fault.
#[derive(Debug, Drop)]
pub struct MemShelf {
    packs: BTreeMap<Name, Bytes>,
    indexes: BTreeMap<Name, Bytes>,
    snapshots: BTreeMap<Name, Bytes>,
    config: Option<Bytes>,
    ledger: Ledger,
    alloc: Global,
}

impl MemShelf {
    /// An empty shelf with a new ledger and no config. It takes no memory.
    pub fn new(alloc: Global) -> MemShelf
        ensures { store_of result ≡ empty }
    {
        MemShelf {
            packs: BTreeMap::new(alloc),
            indexes: BTreeMap::new(alloc),
            snapshots: BTreeMap::new(alloc),
            config: None,
            ledger: Ledger::new(alloc),
            alloc,
        }
    }

    /// The objects of a kind.
    fn map(&self, kind: Kind) -> &BTreeMap<Name, Bytes>
        ensures { found result.now ≡ objects_of self.now kind }
    {
        match kind {
            Kind::Pack => &self.packs,
            Kind::Index => &self.indexes,
            Kind::Snapshot => &self.snapshots,
        }
    }
}

/// Some bytes, copied.
fn copy_of(alloc: Global, bytes: &[u8]) -> Result<Bytes, AllocError>
    ensures { IfOk result (λ copied. copied ≡ bytes.now) }
{
    Ok(Bytes::of(bytes.to_vec(alloc)?))
}

/// A copy of what a map has under a name.
fn look_up(map: &BTreeMap<Name, Bytes>, name: &Name) -> Result<Option<Bytes>, AllocError>
    ensures { IfOk result (λ object. object ≡ found map.now name.now) }
{
    match map.get(name) {
        None => Ok(None),
        Some(bytes) => Ok(Some(bytes.clone()?)),
    }
}

/// A copy of some bytes' part at an offset.
fn slice_of(alloc: Global, bytes: &[u8], offset: u32, length: u32) -> Result<Slice, AllocError>
    ensures { IfOk result (λ slice. IsSlice (Some bytes.now) offset length slice × HasLength length slice) }
{
    let (start, end) = (offset as usize, offset as usize + length as usize);
    if end > bytes.len() {
        return Ok(Slice::Outside);
    }
    Ok(Slice::Found(copy_of(alloc, &bytes[start..end])?))
}

/// Puts a copy of some bytes under a name, where nothing is there.
fn put_into(
    alloc: Global,
    map: &mut BTreeMap<Name, Bytes>,
    name: &Name,
    bytes: &[u8],
) -> Result<(), AllocError>
    ensures ok { OnOk result (AddedIn (found map.old) name.now bytes.now (found map.new)) }
    ensures err { OnErr result (found map.new ≡ found map.old) }
{
    if map.contains_key(name) {
        return Ok(());
    }
    let copied = copy_of(alloc, bytes)?;
    insert_named(map, *name, copied)
}

/// Takes away what stands under a name.
fn remove_from(map: &mut BTreeMap<Name, Bytes>, name: &Name)
    ensures { RemovedIn (found map.old) name.now (found map.new) }
{
    remove_named(map, name);
}

/// The least names above the given one, and whether more follow.
pub fn page_after<X>(
    alloc: Global,
    map: &BTreeMap<Name, X>,
    after: Option<&Name>,
    limit: usize,
) -> Result<Page, AllocError>
    ensures cut { IfOk result (λ page. IsFirstPart (above (option_map (λ name. name.now) after.entry) map.now) limit page.names page.more) }
    ensures ordered { IsOrdered name_cmp map.now }
    ensures names { IfOk result (λ page. All IsName page.names) }
{
    let start = match after {
        None => Bound::Unbounded,
        Some(name) => Bound::Excluded(*name),
    };
    let mut names = Vec::with_capacity(alloc, map.len().min(limit))?;
    for (name, _) in map.range((start, Bound::Unbounded)) {
        if names.len() == limit {
            return Ok(Page {
                names: Names::of(names),
                more: true,
            });
        }
        names.push(*name)?;
    }
    Ok(Page {
        names: Names::of(names),
        more: false,
    })
}

impl Shelf for MemShelf {
    ghost use Rattle.std.specs.Prelude.{⊤};
    ghost use Rattle.repo_store.specs.Memory.{store_of};
    ghost use Rattle.repo_store.specs.declared.faults.Armed.{Armed};

    ghost store = { store_of };

    ghost failed = { λ _. 0 };

    ghost armed = { λ _. Armed.Nothing };

    ghost own = { λ _. 0 };

    ghost reads = { λ _. 0 };

    ghost writes = { λ _. 0 };

    ghost faults = { λ _. 0 };

    ghost honest = { λ _. ⊤ };

    fn get(&mut self, kind: Kind, name: &Name) -> Result<Option<Bytes>, ShelfError> {
        Ok(look_up(self.map(kind), name)?)
    }

    fn range(&mut self, pack: &Name, offset: u32, length: u32) -> Result<Slice, ShelfError> {
        match self.packs.get(pack) {
            None => Ok(Slice::Missing),
            Some(bytes) => Ok(slice_of(self.alloc, bytes.as_slice(), offset, length)?),
        }
    }

    fn put(&mut self, kind: Kind, name: &Name, bytes: &[u8]) -> Result<(), ShelfError> {
        match kind {
            Kind::Pack => match put_into(self.alloc, &mut self.packs, name, bytes) {
                Ok(()) => Ok(()),
                Err(_) => Err(ShelfError::Memory),
            },
            Kind::Index => match put_into(self.alloc, &mut self.indexes, name, bytes) {
                Ok(()) => Ok(()),
                Err(_) => Err(ShelfError::Memory),
            },
            Kind::Snapshot => match put_into(self.alloc, &mut self.snapshots, name, bytes) {
                Ok(()) => Ok(()),
                Err(_) => Err(ShelfError::Memory),
            },
        }
    }

    fn remove(&mut self, kind: Kind, name: &Name) -> Result<(), ShelfError> {
        match kind {
            Kind::Pack => remove_from(&mut self.packs, name),
            Kind::Index => remove_from(&mut self.indexes, name),
            Kind::Snapshot => remove_from(&mut self.snapshots, name),
        }
        Ok(())
    }

    fn names_after(
        &mut self,
        kind: Kind,
        after: Option<&Name>,
        limit: usize,
    ) -> Result<Page, ShelfError> {
        Ok(page_after(self.alloc, self.map(kind), after, limit)?)
    }

    fn ledger(&mut self) -> Result<Ledger, ShelfError> {
        Ok(self.ledger.copy()?)
    }

    fn live_as(&mut self, token: Token) -> Result<Option<bool>, ShelfError> {
        Ok(self.ledger.live_as(token))
    }

    fn save_ledger(&mut self, ledger: &Ledger) -> Result<(), ShelfError> {
        self.ledger = ledger.copy()?;
        Ok(())
    }

    fn config(&mut self) -> Result<Option<Bytes>, ShelfError> {
        match &self.config {
            None => Ok(None),
            Some(bytes) => Ok(Some(bytes.clone()?)),
        }
    }

    fn save_config(&mut self, bytes: &[u8]) -> Result<(), ShelfError> {
        self.config = Some(copy_of(self.alloc, bytes)?);
        Ok(())
    }

    fn failures(&self) -> u64 {
        0
    }

    fn append_only(&self) -> bool {
        false
    }
}
