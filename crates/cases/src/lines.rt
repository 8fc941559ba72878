//! What the words of a line spell.

use hex::FromHexError;
use repo_name::{Bytes, Kind, Name, Text};
use repo_tree::{Entry, EntryKind, Path};
use std::alloc::{AllocError, AllocFailed, Global};
use thiserror::Error;

/// Why a line isn't run.
#[derive(Clone, Copy, Debug, PartialEq, Eq, Error)]
pub enum ScriptError {
    /// It isn't understood.
    #[error("not understood")]
    Line,
    #[error("out of memory")]
    Memory,
    /// There was no memory for a call, and none for the same call made again.
    #[error("refused twice")]
    Twice,
    /// A kernel didn't come to its end.
    #[error("the kernel stopped")]
    Stopped,
}

impl From<AllocError> for ScriptError {
    fn from(_: AllocError) -> ScriptError {
        ScriptError::Memory
    }
}

impl<T: Drop> From<AllocFailed<T>> for ScriptError {
    fn from(_: AllocFailed<T>) -> ScriptError {
        ScriptError::Memory
    }
}

/// The first word of a text, and what follows it.
pub fn cut(text: &str) -> (&str, &str) {
    text.split_once(' ').unwrap_or((text, ""))
}

/// The number that a word spells.
pub fn number(word: &str) -> Result<u64, ScriptError> {
    match word.parse::<u64>() {
        Ok(number) => Ok(number),
        Err(_) => Err(ScriptError::Line),
    }
}

/// The bytes that hexadecimal digits spell.
fn digits(alloc: Global, word: &str) -> Result<Vec<u8>, ScriptError> {
    match hex::decode(alloc, word) {
        Ok(bytes) => Ok(bytes),
        Err(FromHexError::OutOfMemory) => Err(ScriptError::Memory),
        Err(_) => Err(ScriptError::Line),
    }
}

/// The bytes that a word spells: `-` is none, and `HEX*COUNT` some that are repeated.
pub fn bytes(alloc: Global, word: &str) -> Result<Vec<u8>, ScriptError> {
    let (once, count) = match word.split_once('*') {
        Some((once, count)) => (once, number(count)?),
        None if word == "-" => ("", 0),
        None => return digits(alloc, word),
    };
    let piece = digits(alloc, once)?;
    let mut all = Vec::new(alloc);
    for _ in 0..count {
        all.extend_from_slice(piece.as_slice())?;
    }
    Ok(all)
}

/// The name that a word spells.
pub fn name(word: &str) -> Result<Name, ScriptError> {
    match Name::from_hex(word) {
        Ok(name) => Ok(name),
        Err(_) => Err(ScriptError::Line),
    }
}

/// The kind of object that a word is for.
pub fn kind(word: &str) -> Result<Kind, ScriptError> {
    match word {
        "pack" => Ok(Kind::Pack),
        "index" => Ok(Kind::Index),
        "snapshot" => Ok(Kind::Snapshot),
        _ => Err(ScriptError::Line),
    }
}

/// The path whose components stand between slashes. No text is the path of none.
fn path(alloc: Global, word: &str) -> Result<Path, AllocError> {
    let mut components = Vec::new(alloc);
    if word.is_empty() {
        return Ok(Path::of(components));
    }
    for component in word.split('/') {
        components.push(Text::of(String::from_str(alloc, component)?))?;
    }
    Ok(Path::of(components))
}

/// A directory at a path.
pub fn dir(alloc: Global, word: &str) -> Result<Entry, ScriptError> {
    Ok(Entry {
        path: path(alloc, word)?,
        what: EntryKind::Dir,
    })
}

/// A file, of which the last word spells the bytes.
pub fn file(alloc: Global, words: &str) -> Result<Entry, ScriptError> {
    let (place, digits) = words.rsplit_once(' ').ok_or(ScriptError::Line)?;
    let held = bytes(alloc, digits)?;
    Ok(Entry {
        path: path(alloc, place)?,
        what: EntryKind::File(Bytes::of(held)),
    })
}
