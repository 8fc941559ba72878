//! The engine of `vault frames`.

ghost use Rattle.std.specs.Prelude.{◌≡◌, ◌<◌, ◌≤◌, ◌+◌, ◌^◌, ℕ, List, Some, length, IfOk, OnOk};
ghost use Rattle.repo_prog.specs.FramesRun.{FramesGive};
ghost use Rattle.repo_prog.specs.Talks.{TalkReads};

use crate::errors::FramesError;
use crate::talks::Talk;
use std::alloc::Global;
use std::io::{Read, Write};

/// The most reads that are made.
const READS: u64 = 1 << 48;

/// How many bytes are read at once, at most.
const PIECE: usize = 8192;

/// Reads a piece of the input and takes it. It says whether there was one; there is none at the end.
fn read_piece<R: Read, W: Write>(
    talk: &mut Talk,
    piece: &mut [u8],
    reader: &mut R,
    writer: &mut W,
) -> Result<bool, FramesError>
    requires room { 0 < length piece.old }
    requires number { talk.old.number + length piece.old < 2 ^ 63 }
    requires few { talk.old.service.answered < 2 ^ 32 }
    ensures next { TalkReads (R.remaining reader.old) talk.old (W.contents writer.old) result
        (R.remaining reader.new) talk.new (W.contents writer.new) }
    ensures number { OnOk result (talk.new.number ≤ talk.old.number + length piece.old) }
    ensures few { OnOk result (talk.new.service.answered < 2 ^ 32) }
{
    match reader.read(piece) {
        Ok(0) => Ok(false),
        Ok(count) => {
            talk.take(&piece[..count], writer)?;
            Ok(true)
        }
        Err(_) => Err(FramesError::Read),
    }
}

/// Answers the request frames that the input's lines spell in hexadecimal, from an empty store in
/// memory, and writes each reply's frame in hexadecimal on a line. It gives the number of requests
/// that were answered, at an input that ends between frames: fewer than 2^32.
///
/// Line by line, a line's bytes are read and all whole requests answered before the next line: so the
/// replies to all requests before a fault were written when it is told. See [`FramesError`] for when
/// each error comes.
pub fn frames<R: Read, W: Write>(
    alloc: Global,
    reader: &mut R,
    writer: &mut W,
) -> Result<u64, FramesError>
    ensures few { IfOk result (λ count. count < 2 ^ 32) }
    ensures gives { (input : List ℕ) → R.remaining reader.old ≡ Some input → FramesGive input (R.remaining reader.new) (W.contents writer.old) result (W.contents writer.new) }
{
    let mut talk = Talk::new(alloc);
    let mut piece = vec![in alloc; 0u8; PIECE]?;
    for turn in 0..READS {
        let more = read_piece(&mut talk, piece.as_mut_slice(), reader, writer)?;
        if !more {
            return talk.finish(writer);
        }
    }
    Err(FramesError::Limit)
}
