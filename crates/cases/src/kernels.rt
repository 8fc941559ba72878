//! Kernels to be timed from outside: a word names one, and a number its size, in bytes, in snapshots or in files. What is told is
//! the digest of what was made, so that no work can be left out.

use crate::framing::streamed;
use crate::halves::{done_at_half, forgotten};
use crate::keeping::{kept, last_row};
use crate::lines::{ScriptError, cut, number};
use crate::random::{chunked, last_random};
use crate::stored::{backed_up, restored};
use crate::told::Told;
use repo_name::{BlobKind, Name, name_of};
use repo_pack::{PackError, PackView, PackWriter};
use repo_world::Job;
use std::alloc::{AllocError, Global};

/// The bytes of a blob, but for the last one.
const BLOB: usize = 65_536;

/// The target of a pack, the greatest there is.
const TARGET: u32 = 16_777_216;

/// So many bytes, with no long run of equal ones.
fn bytes_of(alloc: Global, size: usize) -> Result<Vec<u8>, AllocError> {
    let mut bytes = Vec::with_capacity(alloc, size)?;
    let mut byte = 1u8;
    for _ in 0..size {
        bytes.push(byte)?;
        byte = byte.wrapping_mul(5).wrapping_add(17);
    }
    Ok(bytes)
}

/// The name of so many bytes.
fn named(alloc: Global, size: usize) -> Result<Name, ScriptError> {
    let bytes = bytes_of(alloc, size)?;
    Ok(name_of(&bytes))
}

/// The name of a pack of these bytes, which is sealed, read again, and its names compared.
fn pack_of(alloc: Global, bytes: &[u8]) -> Result<Name, PackError> {
    let mut writer = PackWriter::new(alloc, TARGET);
    for blob in bytes.chunks(BLOB) {
        if !blob.is_empty() {
            writer.add(BlobKind::Content, blob)?;
        }
    }
    if writer.is_empty() {
        return Err(PackError::Empty);
    }
    let sealed = writer.seal()?;
    let view = PackView::read(sealed.bytes.as_slice())?;
    for place in 0..view.len() {
        if !view.name_holds(place) {
            return Err(PackError::Lengths);
        }
    }
    Ok(sealed.name)
}

/// The name of a pack of so many bytes.
fn packed(alloc: Global, size: usize) -> Result<Name, ScriptError> {
    let bytes = bytes_of(alloc, size)?;
    match pack_of(alloc, &bytes) {
        Ok(name) => Ok(name),
        Err(_) => Err(ScriptError::Stopped),
    }
}

/// The digest of what a kernel makes.
fn digest_of(alloc: Global, word: &str, size: usize) -> Result<Name, ScriptError> {
    match word {
        "name" => named(alloc, size),
        "pack" => packed(alloc, size),
        "frames" => streamed(alloc, size),
        "random" => last_random(alloc, size),
        "chunk" => chunked(alloc, size),
        "backup" => backed_up(alloc, size),
        "restore" => restored(alloc, size),
        "rows" => last_row(alloc, size),
        "keep" => kept(alloc, size),
        "forget" => forgotten(alloc, size),
        "prune" => done_at_half(alloc, size, Job::Prune),
        "check" => done_at_half(alloc, size, Job::Check),
        "list" => done_at_half(alloc, size, Job::List),
        "upgrade" => done_at_half(alloc, size, Job::Upgrade),
        _ => Err(ScriptError::Line),
    }
}

/// Runs the kernel of a word at a size, and tells the digest of what it made: `WORD SIZE`.
pub fn run_kernel(alloc: Global, words: &str, told: &mut Told) -> Result<(), ScriptError> {
    let (word, digits) = cut(words);
    let size = number(digits)? as usize;
    let digest = digest_of(alloc, word, size)?.to_hex(alloc)?;
    let digest = digest.as_str();
    let line = format!(in alloc; "{size} {digest}")?;
    told.pair(word, line.as_str())?;
    Ok(())
}
