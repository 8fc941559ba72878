//! Writing some bytes whole.

ghost use Rattle.std.specs.Prelude.{◌≤◌, [], IfOk, OnOk, OnErr, length, take};
ghost use Rattle.std.specs.Io.KnownBytes.{Appends};
ghost use Rattle.repo_store.specs.Output.{AppendsPart};

use std::io::{ErrorKind, Write};
use thiserror::Error;

/// Why not all bytes were written: the writer failed, or took nothing.
#[derive(Clone, Copy, Debug, PartialEq, Eq, Error)]
#[error("write failed")]
pub struct Unwritten;

/// Writes some first bytes, and gives how many. A write that was interrupted is made again: a socket that has a time-out
/// interrupts it after its process was suspended, and nothing was written then.
fn write_some<W: Write>(writer: &mut W, bytes: &[u8]) -> Result<usize, Unwritten>
    ensures bound { IfOk result (λ n. n ≤ length bytes.now) }
    ensures ok { IfOk result (λ n. Appends (W.contents writer.old) (W.contents writer.new) (take n bytes.now)) }
    ensures err { OnErr result (Appends (W.contents writer.old) (W.contents writer.new) []) }
{
    for _ in 0..u64::MAX {
        match writer.write(bytes) {
            Ok(n) => return Ok(n),
            Err(error) if error.kind() == ErrorKind::Interrupted => {}
            Err(_) => return Err(Unwritten),
        }
    }
    Err(Unwritten)
}

/// Writes all bytes. On an error some first ones of them were written, or none, but not all.
pub fn write_whole<W: Write>(writer: &mut W, bytes: &[u8]) -> Result<(), Unwritten>
    ensures ok { OnOk result (Appends (W.contents writer.old) (W.contents writer.new) bytes.now) }
    ensures err { OnErr result (AppendsPart (W.contents writer.old) (W.contents writer.new) bytes.now) }
{
    let mut done = 0;
    while done < bytes.len() {
        match write_some(writer, &bytes[done..]) {
            Ok(0) => return Err(Unwritten),
            Ok(n) => done += n,
            Err(unwritten) => return Err(unwritten),
        }
    }
    Ok(())
}
