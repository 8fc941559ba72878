//! Messages that go over a connection as frames.

ghost use Rattle.std.specs.Prelude.{◌≡◌, ◌⊎◌, ◌≤◌, ◌<◌, ◌↔◌, OnOk, IfOk, IsErrOf, length, take};
ghost use Rattle.std.specs.Io.KnownBytes.{Consumes};
ghost use Rattle.repo_wire.specs.Messages.{replies, reply_body, requests, request_body};
ghost use Rattle.repo_wire.specs.Stream.{FitsFrame, frame};
ghost use Rattle.repo_play.specs.Frames.{Differs, IsCarried, IsTooLarge};
ghost use Rattle.repo_play.specs.declared.faults.CarryError.{CarryError};

use crate::faults::CarryError;
use repo_store::{Channel, Ends, write_whole};
use repo_wire::{Reply, Request, write_reply, write_request};
use std::alloc::Global;
use std::io::{Read, Write, sink};

/// The greatest frame that is carried, in bytes: a connection takes as much before anybody reads from it.
const FRAME_LIMIT: usize = 65_536;

/// Reads some of the bytes that are to come, into a piece. It says how many. A read that is interrupted is made again.
fn hear_some<R: Read>(coming: &[u8], piece: &mut [u8], reader: &mut R) -> Result<usize, CarryError>
    requires some { 0 < length coming.now }
    requires room { length coming.now ≤ length piece.old }
    ensures heard { IfOk result (λ n. (0 < n) × (n ≤ length coming.now) × Consumes (R.remaining reader.old) (R.remaining reader.new) (take n coming.now)) }
    ensures room { length piece.new ≡ length piece.old }
    ensures short { ¬ IsErrOf result CarryError.TooLarge }
    ensures reached { ¬ IsErrOf result CarryError.NotReached }
    ensures malformed { IsErrOf result CarryError.Malformed → Differs coming.now (R.remaining reader.old) (R.remaining reader.new) }
{
    let room = &mut piece[..coming.len()];
    let mut unused = sink();
    let mut ends = Ends {
        reader,
        writer: &mut unused,
    };
    let heard = ends.hear(room);
    // What the reader holds then is read off this use of it.
    let _ = &*ends.reader;
    match heard {
        Ok(0) => Err(CarryError::Read),
        Ok(count) => {
            if room[..count] == coming[..count] {
                Ok(count)
            } else {
                Err(CarryError::Malformed)
            }
        }
        Err(_) => Err(CarryError::Read),
    }
}

/// Reads the bytes that are to come.
fn hear<R: Read>(coming: &[u8], piece: &mut [u8], reader: &mut R) -> Result<(), CarryError>
    requires { length coming.now ≤ length piece.old }
    ensures heard { OnOk result (Consumes (R.remaining reader.old) (R.remaining reader.new) coming.now) }
    ensures short { ¬ IsErrOf result CarryError.TooLarge }
    ensures reached { ¬ IsErrOf result CarryError.NotReached }
    ensures malformed { IsErrOf result CarryError.Malformed → Differs coming.now (R.remaining reader.old) (R.remaining reader.new) }
{
    let mut heard = 0;
    while heard < coming.len() {
        heard += hear_some(&coming[heard..], piece, reader)?;
    }
    Ok(())
}

/// Carries a frame: writes it, and reads it at the other end.
fn carry_frame<R: Read, W: Write>(
    alloc: Global,
    frame: &[u8],
    reader: &mut R,
    writer: &mut W,
) -> Result<(), CarryError>
    ensures carried { OnOk result (IsCarried frame.now (R.remaining reader.old) (R.remaining reader.new) (W.contents writer.old) (W.contents writer.new)) }
    ensures large { IsErrOf result CarryError.TooLarge ↔ (65536 < length frame.now) }
    ensures quiet { IsErrOf result CarryError.TooLarge → (reader.new ≡ reader.old) × (writer.new ≡ writer.old) }
    ensures reached { ¬ IsErrOf result CarryError.NotReached }
    ensures malformed { IsErrOf result CarryError.Malformed → Differs frame.now (R.remaining reader.old) (R.remaining reader.new) }
{
    if frame.len() > FRAME_LIMIT {
        return Err(CarryError::TooLarge);
    }
    write_whole(writer, frame)?;
    let mut piece = vec![in alloc; 0u8; FRAME_LIMIT]?;
    hear(frame, piece.as_mut_slice(), reader)
}

/// Carries a request as a frame: writes it, and reads it at the other end of the connection.
///
/// `TooLarge` comes just where it fits no frame of 65,536 bytes, unless memory is wanting, and nothing is written or read then; `Read` and `Write` where the
/// connection fails or ends, and `Malformed` where something else comes out.
pub fn carry_request<R: Read, W: Write>(
    alloc: Global,
    request: &Request,
    reader: &mut R,
    writer: &mut W,
) -> Result<(), CarryError>
    ensures carried { OnOk result (IsCarried (frame (request_body request.now)) (R.remaining reader.old) (R.remaining reader.new)
        (W.contents writer.old) (W.contents writer.new)) }
    ensures fits { OnOk result (FitsFrame requests request.now) }
    ensures large { IsErrOf result CarryError.TooLarge → IsTooLarge (FitsFrame requests request.now) (frame (request_body request.now)) }
    ensures refused { IsTooLarge (FitsFrame requests request.now) (frame (request_body request.now)) → IsErrOf result CarryError.TooLarge ⊎ IsErrOf result CarryError.Memory }
    ensures quiet { IsErrOf result CarryError.TooLarge → (reader.new ≡ reader.old) × (writer.new ≡ writer.old) }
    ensures reached { ¬ IsErrOf result CarryError.NotReached }
    ensures malformed { IsErrOf result CarryError.Malformed → Differs (frame (request_body request.now)) (R.remaining reader.old) (R.remaining reader.new) }
{
    if !request.fits() {
        return Err(CarryError::TooLarge);
    }
    let mut frame = Vec::new(alloc);
    write_request(request, &mut frame)?;
    carry_frame(alloc, frame.as_slice(), reader, writer)
}

/// Carries a reply as a frame, as [`carry_request`] does a request.
pub fn carry_reply<R: Read, W: Write>(
    alloc: Global,
    reply: &Reply,
    reader: &mut R,
    writer: &mut W,
) -> Result<(), CarryError>
    ensures carried { OnOk result (IsCarried (frame (reply_body reply.now)) (R.remaining reader.old) (R.remaining reader.new)
        (W.contents writer.old) (W.contents writer.new)) }
    ensures fits { OnOk result (FitsFrame replies reply.now) }
    ensures large { IsErrOf result CarryError.TooLarge → IsTooLarge (FitsFrame replies reply.now) (frame (reply_body reply.now)) }
    ensures refused { IsTooLarge (FitsFrame replies reply.now) (frame (reply_body reply.now)) → IsErrOf result CarryError.TooLarge ⊎ IsErrOf result CarryError.Memory }
    ensures quiet { IsErrOf result CarryError.TooLarge → (reader.new ≡ reader.old) × (writer.new ≡ writer.old) }
    ensures reached { ¬ IsErrOf result CarryError.NotReached }
    ensures malformed { IsErrOf result CarryError.Malformed → Differs (frame (reply_body reply.now)) (R.remaining reader.old) (R.remaining reader.new) }
{
    if !reply.fits() {
        return Err(CarryError::TooLarge);
    }
    let mut frame = Vec::new(alloc);
    write_reply(reply, &mut frame)?;
    carry_frame(alloc, frame.as_slice(), reader, writer)
}
