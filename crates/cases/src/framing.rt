//! A stream of Put frames, fed in pieces and read.

use crate::lines::ScriptError;
use repo_name::{Bytes, Instance, Kind, Name, Token, name_of};
use repo_wire::{Ask, FrameReader, Request, WireError, write_request};
use std::alloc::{AllocError, Global};

/// The most bytes of an object that is put.
const OBJECT: usize = 16_777_216;

/// The most bytes of a piece.
const PIECE: usize = 65_536;

/// The frame that puts an object of so many bytes.
fn put_frame(alloc: Global, size: usize) -> Result<Vec<u8>, AllocError> {
    let request = Request {
        instance: Instance([1; 16]),
        sequence: 1,
        ask: Ask::Put {
            token: Token(1),
            kind: Kind::Pack,
            name: Name([7; 32]),
            bytes: Bytes::of(vec![in alloc; 7u8; size]?),
        },
    };
    let mut frame = Vec::new(alloc);
    if request.fits() {
        write_request(&request, &mut frame)?;
    }
    Ok(frame)
}

/// The byte at the end of the object that is put.
fn last_byte(request: &Request) -> u8 {
    match &request.ask {
        Ask::Put { bytes, .. } => bytes.as_slice().last().copied().unwrap_or(0),
        _ => 0,
    }
}

/// Feeds the frame, and keeps the last byte of each object that comes out.
fn feed_frame(reader: &mut FrameReader, frame: &[u8], ends: &mut Vec<u8>) -> Result<(), WireError> {
    for piece in frame.chunks(PIECE) {
        reader.feed(piece)?;
        if let Some(request) = reader.next_request()? {
            ends.push(last_byte(&request))?;
        }
    }
    Ok(())
}

/// The name of the last bytes of all objects in a stream of these frames.
fn ends_of(alloc: Global, frame: &[u8], count: usize) -> Result<Name, WireError> {
    let mut reader = FrameReader::new(alloc);
    let mut ends = Vec::new(alloc);
    for _ in 0..count {
        feed_frame(&mut reader, frame, &mut ends)?;
    }
    Ok(name_of(&ends))
}

/// The name of the last bytes of all objects read from a stream of about so many bytes.
pub fn streamed(alloc: Global, size: usize) -> Result<Name, ScriptError> {
    let frame = put_frame(alloc, size.min(OBJECT))?;
    match ends_of(alloc, frame.as_slice(), size.div_ceil(OBJECT)) {
        Ok(name) => Ok(name),
        Err(_) => Err(ScriptError::Stopped),
    }
}
