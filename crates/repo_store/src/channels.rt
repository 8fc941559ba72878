//! Both ends of a connection, as one.

ghost use Rattle.std.specs.Prelude.{◌≡◌, ◌≤◌, ◌<◌, [], ℕ, List, length, take, IfOk, OnOk, OnErr};
ghost use Rattle.std.specs.Io.KnownBytes.{Consumes, IsAtEnd};

use crate::output::{Unwritten, write_whole};
use std::io::{ErrorKind, Read, Write};
use thiserror::Error;

/// The other end failed, and brought nothing.
#[derive(Clone, Copy, Debug, PartialEq, Eq, Error)]
#[error("read failed")]
pub struct Unheard;

/// Reads what comes next, as much as fits the piece at most, and gives how much; 0 only at the end, where the piece has room. A
/// read that was interrupted is made again: a socket that has a time-out interrupts it after its process was suspended, and
/// nothing was read then.
fn read_some<R: Read>(reader: &mut R, piece: &mut [u8]) -> Result<usize, Unheard>
    ensures count { IfOk result (λ n. n ≤ length piece.new) }
    ensures ok { IfOk result (λ n. Consumes (R.remaining reader.old) (R.remaining reader.new) (take n piece.new)) }
    ensures over { IfOk result (λ n. n ≡ 0 → 0 < length piece.new → IsAtEnd (R.remaining reader.new)) }
    ensures err { OnErr result (Consumes (R.remaining reader.old) (R.remaining reader.new) []) }
{
    for _ in 0..u64::MAX {
        match reader.read(piece) {
            Ok(n) => return Ok(n),
            Err(error) if error.kind() == ErrorKind::Interrupted => {}
            Err(_) => return Err(Unheard),
        }
    }
    Err(Unheard)
}

/// Both ends of a connection: what is heard comes from one, and what is said goes to the other. As they are one, a clause tells
/// in which order it was.
pub trait Channel {
    /// Where hearing some bytes leads.
    ghost hears: { Self → List ℕ → Self → Type 0 };
    /// Where saying some bytes leads.
    ghost says: { Self → List ℕ → Self → Type 0 };
    /// Nothing more is heard.
    ghost is_over: { Self → Type 0 };

    /// Hears what comes next, as much as fits the piece at most, and says how much; 0 only at the end, where the piece has room.
    fn hear(&mut self, piece: &mut [u8]) -> Result<usize, Unheard>
        ensures count { IfOk result (λ n. n ≤ length piece.new) }
        ensures heard { IfOk result (λ n. hears self.old (take n piece.new) self.new) }
        ensures over { IfOk result (λ n. n ≡ 0 → 0 < length piece.new → is_over self.new) }
        ensures err { OnErr result (hears self.old [] self.new) };

    /// Says all of these bytes. On an error some first ones of them were said, or none.
    fn say(&mut self, bytes: &[u8]) -> Result<(), Unwritten>
        ensures ok { OnOk result (says self.old bytes.now self.new) }
        ensures err { OnErr result ((n : ℕ) × (n ≤ length bytes.now) × says self.old (take n bytes.now) self.new) };
}

/// A reader and a writer as one channel.
#[derive(Drop)]
pub struct Ends<'a, R, W> {
    pub reader: &'a mut R,
    pub writer: &'a mut W,
}

impl<R: Read, W: Write> Channel for Ends<'_, R, W> {
    ghost use Rattle.std.specs.Prelude.{◌≡◌};
    ghost use Rattle.std.specs.Io.KnownBytes.{Appends, Consumes, IsAtEnd};

    ghost hears = { λ a bytes b. (b.reader.ghost_name ≡ a.reader.ghost_name) × (b.writer.ghost_name ≡ a.writer.ghost_name)
        × Consumes (R.remaining a.reader.now) (R.remaining b.reader.now) bytes × (W.contents b.writer.now ≡ W.contents a.writer.now) };

    ghost says = { λ a bytes b. (b.reader.ghost_name ≡ a.reader.ghost_name) × (b.writer.ghost_name ≡ a.writer.ghost_name)
        × (R.remaining b.reader.now ≡ R.remaining a.reader.now) × Appends (W.contents a.writer.now) (W.contents b.writer.now) bytes };

    ghost is_over = { λ a. IsAtEnd (R.remaining a.reader.now) };

    fn hear(&mut self, piece: &mut [u8]) -> Result<usize, Unheard> {
        read_some(self.reader, piece)
    }

    fn say(&mut self, bytes: &[u8]) -> Result<(), Unwritten> {
        write_whole(self.writer, bytes)
    }
}

/// A writer as a channel over which nothing is heard.
#[derive(Drop)]
pub struct Speaker<'a, W> {
    pub writer: &'a mut W,
}

impl<W: Write> Channel for Speaker<'_, W> {
    ghost use Rattle.std.specs.Prelude.{◌≡◌, [], ⊤};
    ghost use Rattle.std.specs.Io.KnownBytes.{Appends};

    ghost hears = { λ a bytes b. (bytes ≡ []) × (b ≡ a) };

    ghost says = { λ a bytes b. (b.writer.ghost_name ≡ a.writer.ghost_name) × Appends (W.contents a.writer.now) (W.contents b.writer.now) bytes };

    ghost is_over = { λ a. ⊤ };

    fn hear(&mut self, _piece: &mut [u8]) -> Result<usize, Unheard> {
        Ok(0)
    }

    fn say(&mut self, bytes: &[u8]) -> Result<(), Unwritten> {
        write_whole(self.writer, bytes)
    }
}
