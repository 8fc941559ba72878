//! Packs as they are read, in place.

ghost use Rattle.std.specs.Prelude.{◌≡◌, ◌≤◌, ◌<◌, ◌↔◌, List, length, slice_get, IsTrue, IfOk, IfErr, OnErr, IsSomeAnd};
ghost use Rattle.std.specs.List.{All};
ghost use Rattle.repo_name.specs.Naming.{name};
ghost use Rattle.repo_pack.specs.PackLayout.{Item, IsNamed, IsPack, blobs_of, offset_of};
ghost use Rattle.repo_pack.specs.PackReading.{HasHeader, HasKinds, HasLengths, blobs_in, header_in, IsFault, entry_of};

use crate::faults::PackError;
use crate::places::Entry;
use crate::rows::{ENTRY_BYTES, has_kinds, has_lengths, have_names, lengths_of, row_and_offset};
use byteorder::{ByteOrder, LittleEndian};
use repo_name::{HEADER_LIMIT, name_of};
use repo_sha::digests;
use std::alloc::{AllocError, Global};
use std::marker::Model;

/// The bytes of a header's length.
const LENGTH_BYTES: usize = 4;

/// A pack that was read, lent by its bytes. A clause sees its items.
#[derive(Debug, Drop)]
pub struct PackView<'a> {
    blobs: &'a [u8],
    header: &'a [u8],
}

impl<'a> Model for PackView<'a> {
    ghost use Rattle.std.specs.Prelude.{List};
    ghost use Rattle.repo_pack.specs.PackLayout.{Item};
    ghost use Rattle.repo_pack.specs.PackReading.{items_in, IsLaidOut};

    ghost Value = { List Item };

    ghost view = { λ v. items_in v.header.now v.blobs.now };

    ghost invariant = { λ v. IsLaidOut v.header.now v.blobs.now (items_in v.header.now v.blobs.now) };
}

/// The bytes before the header, and the header.
fn parts(bytes: &[u8]) -> Result<(&[u8], &[u8]), PackError>
    ensures ok { IfOk result (λ x. HasHeader bytes.now
        × (x.0.now ≡ blobs_in bytes.now) × (x.1.now ≡ header_in bytes.now)) }
    ensures fault { IfErr result (IsFault bytes.now) }
{
    if bytes.len() < LENGTH_BYTES {
        return Err(PackError::Short);
    }
    let (front, tail) = bytes.split_at(bytes.len() - LENGTH_BYTES);
    let size = LittleEndian::read_u32(tail) as usize;
    if size == 0 {
        return Err(PackError::Empty);
    }
    if size % ENTRY_BYTES != 0 || size > HEADER_LIMIT || size > front.len() {
        return Err(PackError::HeaderLength);
    }
    Ok(front.split_at(front.len() - size))
}

/// The same, of bytes that are a pack.
fn pack_parts(bytes: &[u8]) -> Result<(&[u8], &[u8]), PackError>
    ensures ok { IfOk result (λ x. HasHeader bytes.now × HasKinds x.1.now × HasLengths x.1.now x.0.now
        × (x.0.now ≡ blobs_in bytes.now) × (x.1.now ≡ header_in bytes.now)) }
    ensures fault { IfErr result (IsFault bytes.now) }
{
    let (blobs, header) = parts(bytes)?;
    if !has_kinds(header) {
        return Err(PackError::BlobKind);
    }
    if !has_lengths(header, blobs) {
        return Err(PackError::Lengths);
    }
    Ok((blobs, header))
}

impl<'a> PackView<'a> {
    /// The pack in these bytes, which are lent and not copied. It takes no memory.
    ///
    /// A fault is the first one that stands: `Short`, `Empty`, `HeaderLength`, `BlobKind`, `Lengths`.
    pub fn read(bytes: &'a [u8]) -> Result<PackView<'a>, PackError>
        ensures ok { IfOk result (λ items. IsPack bytes.now items) }
        ensures size { IfOk result (λ items. length (blobs_of items) ≤ length bytes.now) }
        ensures none { OnErr result ((items : List Item) → ¬ IsPack bytes.now items) }
        ensures fault { IfErr result (IsFault bytes.now) }
    {
        let (blobs, header) = pack_parts(bytes)?;
        Ok(PackView { blobs, header })
    }

    /// The number of blobs.
    pub fn len(&self) -> usize
        ensures { result ≡ length self.now }
    {
        self.header.len() / ENTRY_BYTES
    }

    /// What the pack tells of the blob at a place.
    pub fn entry(&self, place: usize) -> Entry
        requires { place < length self.now }
        ensures { IsSomeAnd (slice_get self.now place)
            (λ item. result ≡ entry_of item (offset_of self.now place)) }
    {
        let (row, offset) = row_and_offset(self.header, place);
        Entry {
            kind: row.kind,
            name: row.name,
            offset,
            length: row.length,
        }
    }

    /// The bytes of the blob at a place, lent by the pack's bytes.
    pub fn blob(&self, place: usize) -> &'a [u8]
        requires { place < length self.now }
        ensures { IsSomeAnd (slice_get self.now place) (λ item. result.now ≡ item.bytes) }
    {
        let entry = self.entry(place);
        let (_, rest) = self.blobs.split_at(entry.offset as usize);
        let (blob, _) = rest.split_at(entry.length as usize);
        blob
    }

    /// Whether the blob at a place has the name that its entry gives it.
    pub fn name_holds(&self, place: usize) -> bool
        requires { place < length self.now }
        ensures { IsSomeAnd (slice_get self.now place)
            (λ item. IsTrue result ↔ (item.name ≡ name item.bytes)) }
    {
        name_of(self.blob(place)) == self.entry(place).name
    }

    /// Whether each blob has the name that its entry gives it. All are named at once, side by side, and so faster than
    /// one by one. It fails for memory alone.
    pub fn all_named(&self, alloc: Global) -> Result<bool, AllocError>
        ensures { IfOk result (λ named. IsTrue named ↔ All IsNamed self.now) }
    {
        let lengths = lengths_of(alloc, self.header)?;
        let digests = digests(alloc, self.blobs, &lengths)?;
        Ok(have_names(self.header, &digests))
    }
}
