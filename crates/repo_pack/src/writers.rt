//! Packs as they are written.

ghost use Rattle.std.specs.Prelude.{◌≡◌, ◌≤◌, ◌<◌, ◌+◌, ◌-◌, ◌^◌, ◌++◌, [], ◌↔◌, All, length, IsTrue, IfOk, IfErr, OnOk, OnErr, IsErrOf, IfSome, IfNone, vec_len, vec_capacity};
ghost use Rattle.std.specs.List.{All, sum_by};
ghost use Rattle.repo_name.specs.Naming as naming;
ghost use Rattle.repo_pack.specs.PackLayout.{Item, IsItem, item_of, blobs_of, IsTruePack, IsWithin};
ghost use Rattle.repo_pack.specs.PackWriting.{IsDue, IsOpen, IsRefusal, with_item, ending_of, placed_from, ArePlaced};
ghost use Rattle.repo_name.specs.Limits.{blob_limit, blobs_limit, greatest_target, least_target, pack_limit};

use crate::faults::PackError;
use crate::places::{Place, PlacedBlob};
use crate::rows::{Row, header_bytes};
use repo_name::{
    BLOB_LIMIT, BLOBS_LIMIT, BlobKind, Bytes, GREATEST_TARGET, MAPPED, Name, PACK_LIMIT, name_of,
};
use std::alloc::{AllocError, Global};
use std::marker::Model;
use thiserror::Error;

/// A pack that is being written. A clause sees the items added, in order, and the target.
#[derive(Debug, Drop)]
pub struct PackWriter {
    blobs: Vec<u8>,
    rows: Vec<Row>,
    target: u32,
}

impl Model for PackWriter {
    ghost use Rattle.repo_pack.specs.PackReading.{items_of};
    ghost use Rattle.repo_pack.specs.PackWriting.{Packing, IsFilled};

    ghost Value = { Packing };

    ghost view = { λ w. record { items = items_of w.rows.items w.blobs.items; target = w.target } };

    ghost invariant = { λ w. IsFilled w.rows.items w.blobs.items w.target (items_of w.rows.items w.blobs.items) };
}

/// A pack that was written: its bytes, their name, and its blobs with their places, in the order in which
/// they were added.
#[derive(Debug, Drop)]
pub struct Sealed {
    pub bytes: Bytes,
    pub name: Name,
    pub blobs: Vec<PlacedBlob>,
}

/// There was no memory to seal a pack, which is here as it was.
#[derive(Debug, Drop, Error)]
#[error("out of memory")]
pub struct Unsealed {
    pub writer: PackWriter,
}

impl From<Unsealed> for PackError {
    ghost use Rattle.std.specs.Prelude.{◌≡◌};
    ghost use Rattle.repo_pack.specs.declared.faults.PackError.{PackError};

    ghost from_gives = { λ _ e. e ≡ PackError.Memory };

    fn from(_: Unsealed) -> PackError {
        PackError::Memory
    }
}

/// How many bytes a pack has beyond its target, at most.
const BEYOND: usize = PACK_LIMIT - GREATEST_TARGET as usize;

/// How much memory is asked for a pack of this target: that of one whose target is above a blob's length is mapped for it alone.
fn room_for(target: u32) -> usize {
    if target as usize > BLOB_LIMIT {
        MAPPED
    } else {
        target as usize + BEYOND
    }
}

/// Makes room for all that a pack of this target may have, where there is no blob yet: so its bytes are moved no more, and its
/// memory is free for others as soon as it was put. It fails for memory alone, and changes no byte.
fn make_room(blobs: &mut Vec<u8>, target: u32) -> Result<(), AllocError>
    ensures { blobs.new.items ≡ blobs.old.items }
{
    if !blobs.is_empty() {
        return Ok(());
    }
    blobs.reserve_exact(room_for(target))
}

/// Adds these entries' blobs with their places, for which there is room.
fn add_placed(placed: &mut Vec<PlacedBlob>, pack: Name, rows: &[Row])
    requires room { vec_len placed.old + length rows.now ≤ vec_capacity placed.old }
    requires small { sum_by (λ row. row.length) rows.now < 2 ^ 32 }
    ensures { placed.new.items ≡ placed.old.items ++ placed_from pack 0 rows.now }
{
    let mut offset = 0;
    for row in rows {
        let (kind, name, length) = (row.kind, row.name, row.length);
        let place = Place {
            pack,
            offset,
            length,
        };
        placed.push(PlacedBlob { kind, name, place }).unwrap();
        offset += length;
    }
}

/// Ends the bytes with the header of these entries, and answers their name and the blobs with their places.
fn finish(blobs: &mut Vec<u8>, rows: &[Row]) -> Result<(Name, Vec<PlacedBlob>), AllocError>
    requires few { length rows.now ≤ blobs_limit }
    requires small { sum_by (λ row. row.length) rows.now < 2 ^ 32 }
    ensures ok { OnOk result (blobs.new.items ≡ blobs.old.items ++ ending_of rows.now) }
    ensures name { IfOk result (λ x. x.0 ≡ naming.name blobs.new.items) }
    ensures placed { IfOk result (λ x. x.1.items ≡ placed_from x.0 0 rows.now) }
    ensures err { OnErr result (blobs.new.items ≡ blobs.old.items) }
{
    let alloc = *blobs.allocator();
    let mut placed = Vec::with_capacity(alloc, rows.len())?;
    let header = header_bytes(alloc, rows)?;
    blobs.extend_from_slice(&header)?;
    let name = name_of(blobs);
    add_placed(&mut placed, name, rows);
    Ok((name, placed))
}

impl PackWriter {
    /// A pack with no blob, to be sealed once its blobs reach the target: 1,024 to 16,777,216 bytes.
    pub fn new(alloc: Global, target: u32) -> PackWriter
        requires { (least_target ≤ target) × (target ≤ greatest_target) }
        ensures { result ≡ record { items = []; target = target } }
    {
        let blobs = Vec::new(alloc);
        let rows = Vec::new(alloc);
        PackWriter {
            blobs,
            rows,
            target,
        }
    }

    /// The number of blobs.
    pub fn len(&self) -> usize
        ensures { result ≡ length self.now.items }
    {
        self.rows.len()
    }

    /// Whether there is no blob.
    pub fn is_empty(&self) -> bool
        ensures { IsTrue result ↔ (self.now.items ≡ []) }
    {
        self.rows.is_empty()
    }

    /// Whether the blobs' bytes reach the target, or there are 4,096 blobs. Then it takes no more, and there is a
    /// blob. Whichever it is, each blob has a length that a blob may have.
    pub fn is_due(&self) -> bool
        ensures due { IsTrue result ↔ IsDue self.now }
        ensures some { IsTrue result → 1 ≤ length self.now.items }
        ensures sized { All IsItem self.now.items }
    {
        self.blobs.len() >= self.target as usize || self.rows.len() >= BLOBS_LIMIT
    }

    /// How many bytes of blobs are wanted until they reach the target.
    pub fn wanted(&self) -> usize
        ensures { result ≡ self.now.target - length (blobs_of self.now.items) }
    {
        (self.target as usize).saturating_sub(self.blobs.len())
    }

    /// Whether a blob of so many bytes has room. It answers the first reason against it that stands.
    fn check_room(&self, size: usize) -> Result<(), PackError>
        ensures ok { OnOk result (IsOpen self.now × (size ≤ blob_limit)) }
        ensures refusal { IfErr result (IsRefusal self.now size) }
        ensures memory { ¬ IsErrOf result PackError.Memory }
    {
        if self.is_due() {
            return Err(PackError::Closed);
        }
        if size > BLOB_LIMIT {
            return Err(PackError::TooLarge);
        }
        Ok(())
    }

    /// Adds a blob that has room. It fails for memory alone, and then changes nothing.
    fn append(&mut self, row: Row, bytes: &[u8]) -> Result<(), AllocError>
        requires room { IsOpen self.old }
        requires size { (1 ≤ length bytes.now) × (length bytes.now ≤ blob_limit) }
        requires row { row.length ≡ length bytes.now }
        requires name { row.name ≡ naming.name bytes.now }
        requires whole { naming.IsName row.name }
        ensures ok { OnOk result (self.new ≡ with_item self.old (item_of row.kind bytes.now)) }
        ensures err { OnErr result (self.new ≡ self.old) }
    {
        self.rows.reserve(1)?;
        make_room(&mut self.blobs, self.target)?;
        self.blobs.extend_from_slice(bytes)?;
        self.rows.push(row).unwrap();
        Ok(())
    }

    /// Adds a blob, under its name.
    ///
    /// A reason to refuse it is the first one that stands: `Closed`, `TooLarge`, `Memory`. An `Err`
    /// changes nothing.
    pub fn add(&mut self, kind: BlobKind, bytes: &[u8]) -> Result<(), PackError>
        requires { 1 ≤ length bytes.now }
        ensures ok { OnOk result (self.new ≡ with_item self.old (item_of kind bytes.now)) }
        ensures room { OnOk result (IsOpen self.old × (length bytes.now ≤ blob_limit)) }
        ensures refusal { IfErr result (IsRefusal self.old (length bytes.now)) }
        ensures err { OnErr result (self.new ≡ self.old) }
    {
        self.check_room(bytes.len())?;
        let row = Row::new(kind, name_of(bytes), bytes.len() as u32);
        Ok(self.append(row, bytes)?)
    }

    /// Adds a blob whose name is known. It is otherwise as `add`, and takes the name as it is.
    pub fn add_named(&mut self, kind: BlobKind, name: &Name, bytes: &[u8]) -> Result<(), PackError>
        requires some { 1 ≤ length bytes.now }
        requires named { name.now ≡ naming.name bytes.now }
        ensures ok { OnOk result (self.new ≡ with_item self.old (item_of kind bytes.now)) }
        ensures room { OnOk result (IsOpen self.old × (length bytes.now ≤ blob_limit)) }
        ensures refusal { IfErr result (IsRefusal self.old (length bytes.now)) }
        ensures err { OnErr result (self.new ≡ self.old) }
    {
        self.check_room(bytes.len())?;
        let row = Row::new(kind, *name, bytes.len() as u32);
        Ok(self.append(row, bytes)?)
    }

    /// Takes out the last blob, and tells its kind and name; `None` where there is no blob. It takes no memory.
    pub fn pop(&mut self) -> Option<(BlobKind, Name)>
        ensures popped { IfSome result (λ gone. (item : Item) × (self.old ≡ with_item self.new item) × (gone.0 ≡ item.kind) × (gone.1 ≡ item.name)) }
        ensures none { IfNone result ((self.old.items ≡ []) × (self.new ≡ self.old)) }
    {
        let Some(Row { kind, name, length }) = self.rows.pop() else {
            return None;
        };
        let kept = self.blobs.len().saturating_sub(length as usize);
        self.blobs.truncate(kept);
        Some((kind, name))
    }

    /// The pack of the blobs added. It fails for memory alone, and gives the writer back as it was.
    pub fn seal(self) -> Result<Sealed, Unsealed>
        requires { 1 ≤ length self.items }
        ensures pack { IfOk result (λ sealed. IsTruePack sealed.bytes self.items) }
        ensures name { IfOk result (λ sealed. sealed.name ≡ naming.name sealed.bytes) }
        ensures placed { IfOk result (λ sealed. ArePlaced sealed.name self.items sealed.blobs.items) }
        ensures within { IfOk result (λ sealed. All (λ blob. IsWithin blob.place.offset blob.place.length) sealed.blobs.items) }
        ensures size { IfOk result (λ sealed. length sealed.bytes ≤ pack_limit) }
        ensures err { IfErr result (λ unsealed. unsealed.writer ≡ self) }
    {
        let PackWriter {
            mut blobs,
            rows,
            target,
        } = self;
        match finish(&mut blobs, &rows) {
            Ok((name, placed)) => Ok(Sealed {
                bytes: Bytes::of(blobs),
                name,
                blobs: placed,
            }),
            Err(_) => Err(Unsealed {
                writer: PackWriter {
                    blobs,
                    rows,
                    target,
                },
            }),
        }
    }
}
