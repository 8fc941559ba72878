//! The server of one connection.

ghost use Rattle.std.specs.Prelude.{◌≡◌, ◌<◌, ◌^◌, [], ℕ, List, length, Some, IfOk, OnOk, vec_len};
ghost use Rattle.repo_store.specs.AppendOnly.{OnlyAppends};
ghost use Rattle.repo_store.specs.Channels.{Passage, ServesChannel, TakesPiece, heard_in, said_in};
ghost use Rattle.repo_store.specs.Services.{Rests};
ghost use Rattle.repo_store.specs.Serving.{Past, seen, plain, ServesConnection};
ghost use Rattle.repo_store.specs.Stores.{Store};

use crate::channels::{Channel, Ends};
use crate::forms::{Plain, ServiceError};
use crate::services::Service;
use crate::shelves::Shelf;
use std::alloc::{AllocError, Global};
use std::io::{Read, Write};
use thiserror::Error;

/// Why serving ended before the input did. The shelf is where the requests that were answered leave it,
/// and what was written is some first part of their replies' frames: all of it after `Read` and `Malformed`.
#[derive(Clone, Copy, Debug, PartialEq, Eq, Error)]
pub enum ServeError {
    /// The reader failed.
    #[error("read failed")]
    Read,
    /// The writer failed, or took nothing.
    #[error("write failed")]
    Write,
    /// The input is no stream of requests: it has a fault, or it ends inside a frame. Nothing is written
    /// for it.
    #[error("malformed")]
    Malformed,
    /// 2^32 requests were answered, or 2^48 reads made.
    #[error("limit")]
    Limit,
    /// There was no memory.
    #[error("out of memory")]
    Memory,
}

impl From<AllocError> for ServeError {
    ghost use Rattle.std.specs.Prelude.{◌≡◌};
    ghost use Rattle.repo_store.specs.declared.serving.ServeError.{ServeError};

    ghost from_gives = { λ e r. r ≡ ServeError.Memory };

    fn from(_: AllocError) -> ServeError {
        ServeError::Memory
    }
}

impl From<ServiceError> for ServeError {
    ghost use Rattle.std.specs.Prelude.{◌≡◌};
    ghost use Rattle.repo_store.specs.Services.{serve_error};

    ghost from_gives = { λ e r. r ≡ serve_error e };

    fn from(error: ServiceError) -> ServeError {
        match error {
            ServiceError::Wire(_) => ServeError::Malformed,
            ServiceError::Write => ServeError::Write,
            ServiceError::Limit => ServeError::Limit,
            ServiceError::Memory => ServeError::Memory,
        }
    }
}

/// The most reads that are made.
const READS: u64 = 1 << 48;

/// How many bytes are read at once, at most.
const PIECE: usize = 65_536;

/// Room for a piece of what is read from a connection, of 65,536 bytes. It fails for memory alone.
pub fn room(alloc: Global) -> Result<Vec<u8>, AllocError>
    ensures { IfOk result (λ room. vec_len room ≡ 65536) }
{
    vec![in alloc; 0u8; PIECE]
}

/// Hears the next piece, and answers each request that is there. It says whether there was one; there is none at the end.
fn take_piece<C: Channel, S: Shelf>(
    service: &mut Service<Plain>,
    piece: &mut [u8],
    channel: &mut C,
    shelf: &mut S,
) -> Result<bool, ServeError>
    requires room { 0 < length piece.old }
    requires few { service.old.answered < 2 ^ 32 }
    ensures next { S.honest shelf.old → (from : Store) (failures : ℕ) (earlier : List Passage) (past : Past) → past.bytes ≡ heard_in earlier
        → Rests plain (seen from failures (Some [])) service.old past (seen (S.store shelf.old) (S.failed shelf.old) (Some (said_in earlier)))
        → TakesPiece C.hears C.says C.is_over from failures earlier past channel.old result service.new channel.new (S.store shelf.new) (S.failed shelf.new) }
    ensures honest { S.honest shelf.old → S.honest shelf.new }
    ensures few { OnOk result (service.new.answered < 2 ^ 32) }
{
    match channel.hear(piece) {
        Ok(0) => Ok(false),
        Ok(count) => {
            service.feed(&piece[..count])?;
            service.answer_over(shelf, channel)?;
            Ok(true)
        }
        Err(_) => Err(ServeError::Read),
    }
}

/// Answers the requests that a channel brings, in their order, and says the frame of each reply, each before it hears more. It
/// gives the number of requests that were answered, at an end between frames: fewer than 2^32. See [`ServeError`] for when each
/// error comes, and what stands then.
///
/// Whenever it hears more, all that it had heard was served: the requests that are whole in that were answered, and what it
/// had said was the frames of their replies. Whatever the channel brings, a store that only appends keeps each object.
pub fn serve_over<C: Channel, S: Shelf>(
    alloc: Global,
    channel: &mut C,
    shelf: &mut S,
) -> Result<u64, ServeError>
    ensures serves { S.honest shelf.old → ServesChannel C.hears C.says C.is_over channel.old (S.store shelf.old) (S.failed shelf.old)
        result channel.new (S.store shelf.new) (S.failed shelf.new) }
    ensures kept { S.honest shelf.old → OnlyAppends (S.store shelf.old) (S.store shelf.new) }
    ensures honest { S.honest shelf.old → S.honest shelf.new }
    ensures few { IfOk result (λ count. count < 2 ^ 32) }
{
    let mut service = Service::new(alloc, Plain);
    let mut piece = room(alloc)?;
    for turn in 0..READS {
        let more = take_piece(&mut service, piece.as_mut_slice(), channel, shelf)?;
        if !more {
            return service.finish().ok_or(ServeError::Malformed);
        }
    }
    Err(ServeError::Limit)
}

/// Answers the requests of one connection, in their order, and writes the frame of each reply: [`serve_over`] its two ends. See
/// [`ServeError`] for when each error comes, and what stands then.
///
/// Whatever the reader and the writer tell of their bytes, the shelf is where a run of the machine leads,
/// and each reply that says that the device failed has a failure of its own that the device counted, or the count
/// stands at its greatest. Whatever the stream brings, a store that only appends keeps each object.
pub fn serve<R: Read, W: Write, S: Shelf>(
    alloc: Global,
    reader: &mut R,
    writer: &mut W,
    shelf: &mut S,
) -> Result<u64, ServeError>
    ensures serves { S.honest shelf.old → ServesConnection (R.remaining reader.old) (seen (S.store shelf.old) (S.failed shelf.old) (W.contents writer.old))
        result (R.remaining reader.new) (seen (S.store shelf.new) (S.failed shelf.new) (W.contents writer.new)) }
    ensures kept { S.honest shelf.old → OnlyAppends (S.store shelf.old) (S.store shelf.new) }
    ensures honest { S.honest shelf.old → S.honest shelf.new }
    ensures few { IfOk result (λ count. count < 2 ^ 32) }
{
    let mut ends = Ends { reader, writer };
    let served = serve_over(alloc, &mut ends, shelf);
    // What both hold then is read off these uses of them.
    let _ = &*ends.reader;
    let _ = &*ends.writer;
    served
}
