//! What a walk leaves out, and why it ends before its end.

use std::alloc::{AllocError, Global};
use std::io;
use std::io::ErrorKind;

/// What was left out.
#[derive(Debug, Drop)]
pub enum Skipped {
    /// Neither a directory nor a file: a link, a socket, a pipe, a device. Its path: the word given, and
    /// below it the names joined by `/`.
    Other(String),
    /// An entry whose name isn't UTF-8, in the folder of this path.
    Unnamed(String),
}

/// Why a folder isn't walked through to its end.
#[derive(Debug, Drop)]
pub enum WalkError {
    /// The path that can't be read, or whose name no backup can hold.
    Unreadable(String),
    /// There was no memory.
    Memory,
}

impl From<AllocError> for WalkError {
    ghost use Rattle.std.specs.Prelude.{◌≡◌};
    ghost use Rattle.repo_files.specs.declared.walk_ends.WalkError.{WalkError};

    ghost from_gives = { λ e r. r ≡ WalkError.Memory };

    fn from(_: AllocError) -> WalkError {
        WalkError::Memory
    }
}

/// That this path can't be read.
pub fn unreadable(alloc: Global, place: &str) -> WalkError {
    match String::from_str(alloc, place) {
        Ok(place) => WalkError::Unreadable(place),
        Err(_) => WalkError::Memory,
    }
}

/// Why a call on this path failed.
pub fn told(alloc: Global, place: &str, error: &io::Error) -> WalkError {
    if error.kind() == ErrorKind::OutOfMemory {
        return WalkError::Memory;
    }
    unreadable(alloc, place)
}
