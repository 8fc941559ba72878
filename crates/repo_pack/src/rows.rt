//! The entries of a header, each of 37 bytes: a kind, a length in four bytes, the lowest first, and a name.

ghost use Rattle.std.specs.Prelude.{◌≡◌, ◌≤◌, ◌<◌, ◌+◌, ◌*◌, ◌/◌, ◌↔◌, length, drop, map, IsTrue, IsSome, IfSome, IfOk};
ghost use Rattle.std.specs.List.{All, sum_by};
ghost use Rattle.repo_name.specs.Naming.{IsName};
ghost use Rattle.repo_pack.specs.PackLayout.{IsBlobLength, kind_number};
ghost use Rattle.repo_pack.specs.PackReading.{kind_of, length_in, row_in, rows_in, header_rows, HasKinds, HasLengths};
ghost use Rattle.repo_pack.specs.PackWriting.{ending_of};
ghost use Rattle.repo_name.specs.Limits.{blobs_limit, header_limit};

use byteorder::{ByteOrder, LittleEndian};
use repo_name::{BLOB_LIMIT, BlobKind, Name};
use std::alloc::{AllocError, Global};

/// The bytes of an entry.
pub const ENTRY_BYTES: usize = 37;

/// An entry of a pack's header: what a blob is, under which name, and how long.
#[derive(Clone, Copy, Debug)]
pub struct Row {
    pub kind: BlobKind,
    pub name: Name,
    pub length: u32,
}

impl Row {
    /// An entry of these parts. A name has 32 bytes.
    pub fn new(kind: BlobKind, name: Name, length: u32) -> Row
        ensures row { result ≡ record { kind = kind; name = name; length = length } }
        ensures named { IsName name }
    {
        Row { kind, name, length }
    }
}

/// The kind of a number. Any number but 0 is taken for a tree's.
fn kind_at(number: u8) -> BlobKind
    ensures { result ≡ kind_of number }
{
    match number {
        0 => BlobKind::Content,
        _ => BlobKind::Tree,
    }
}

/// The length in the entry at the front.
#[tactic(auto, unfolding(crate::specs::PackReading::length_in))]
fn length_at(header: &[u8]) -> u32
    requires { 37 ≤ length header.now }
    ensures { result ≡ length_in header.now }
{
    LittleEndian::read_u32(&header[1..])
}

/// The header from an entry on.
fn from_entry(header: &[u8], place: usize) -> &[u8]
    requires { 37 * place ≤ length header.now }
    ensures { result.now ≡ drop (37 * place) header.now }
{
    &header[ENTRY_BYTES * place..]
}

/// Whether a blob may be so long.
fn is_blob_length(length: u32) -> bool
    ensures { IsTrue result ↔ IsBlobLength length }
{
    1 <= length && length as usize <= BLOB_LIMIT
}

/// The entry at the front.
pub fn row_at(header: &[u8]) -> Row
    requires { 37 ≤ length header.now }
    ensures { result ≡ row_in header.now }
{
    let mut name = [0; 32];
    name.copy_from_slice(&header[5..ENTRY_BYTES]);
    Row {
        kind: kind_at(header[0]),
        name: Name(name),
        length: length_at(header),
    }
}

/// Whether each kind is 0 or 1.
pub fn has_kinds(header: &[u8]) -> bool
    ensures { IsTrue result ↔ HasKinds header.now }
{
    for place in 0..header.len() / ENTRY_BYTES {
        if header[ENTRY_BYTES * place] > 1 {
            return false;
        }
    }
    true
}

/// The sum of the lengths, if each is a blob's.
fn total_length(header: &[u8]) -> Option<u64>
    requires { length header.now ≤ header_limit }
    ensures each { IsSome result ↔ All (λ row. IsBlobLength row.length) (header_rows header.now) }
    ensures total { IfSome result (λ total. total ≡ sum_by (λ row. row.length) (header_rows header.now)) }
{
    let mut total = 0;
    for place in 0..header.len() / ENTRY_BYTES {
        let length = length_at(from_entry(header, place));
        if !is_blob_length(length) {
            return None;
        }
        total += u64::from(length);
    }
    Some(total)
}

/// Whether each length is a blob's, and together they are these bytes.
pub fn has_lengths(header: &[u8], blobs: &[u8]) -> bool
    requires { length header.now ≤ header_limit }
    ensures { IsTrue result ↔ HasLengths header.now blobs.now }
{
    match total_length(header) {
        Some(total) => total == blobs.len() as u64,
        None => false,
    }
}

/// The entry at a place, and the sum of the lengths before it.
pub fn row_and_offset(header: &[u8], place: usize) -> (Row, u64)
    requires { (37 * place + 37 ≤ length header.now) × (length header.now ≤ header_limit) }
    ensures row { result.0 ≡ row_in (drop (37 * place) header.now) }
    ensures offset { result.1 ≡ sum_by (λ row. row.length) (rows_in place header.now) }
{
    let mut offset = 0;
    for before in 0..place {
        offset += u64::from(length_at(from_entry(header, before)));
    }
    (row_at(from_entry(header, place)), offset)
}

/// The lengths of the blobs, in the entries' order. It fails for memory alone.
pub fn lengths_of(alloc: Global, header: &[u8]) -> Result<Vec<usize>, AllocError>
    ensures { IfOk result (λ lengths. lengths.items ≡ map (λ row. row.length) (header_rows header.now)) }
{
    let mut lengths = Vec::new(alloc);
    for place in 0..header.len() / ENTRY_BYTES {
        lengths.push(length_at(from_entry(header, place)) as usize)?;
    }
    Ok(lengths)
}

/// Whether the entries have these names, in their order.
pub fn have_names(header: &[u8], names: &[[u8; 32]]) -> bool
    requires { length names.now ≡ length header.now / 37 }
    ensures { IsTrue result ↔ (map (λ row. row.name.0) (header_rows header.now) ≡ names.now) }
{
    for place in 0..names.len() {
        if row_at(from_entry(header, place)).name.0 != names[place] {
            return false;
        }
    }
    true
}

/// The header of these entries, and behind it its length.
pub fn header_bytes(alloc: Global, rows: &[Row]) -> Result<Vec<u8>, AllocError>
    requires { length rows.now ≤ blobs_limit }
    ensures { IfOk result (λ header. header.items ≡ ending_of rows.now) }
{
    let mut header = Vec::new(alloc);
    for row in rows {
        header.push(row.kind as u8)?;
        header.extend_from_slice(&row.length.to_le_bytes())?;
        header.extend_from_slice(&row.name.0)?;
    }
    let length = header.len() as u32;
    header.extend_from_slice(&length.to_le_bytes())?;
    Ok(header)
}
