//! The ends of a connection, as one channel that tells what goes over it.

ghost use Rattle.std.specs.Prelude.{◌≡◌, ◌∷◌, [], ℕ, List, IfSome};
ghost use Rattle.repo_store.specs.Channels.{heard, said};
ghost use Rattle.repo_dial.specs.Ends.{ConnectionEnds, GoesBy};

use repo_store::{Channel, Ends, Unheard, Unwritten, write_whole};
use std::io;
use std::io::{Read, Write};
use std::net::OpenStream;
use std::time::Duration;

/// A channel that tells, where that is known, what it will still bring, what was said over it, and what went over it, in order.
pub trait KnownChannel: Channel {
    /// What is known of it.
    ghost ends: { Self → ConnectionEnds };

    /// Hearing some bytes leads it on by these.
    ghost hears_on: { (old : Self) (bytes : List ℕ) (new : Self) → Self.hears old bytes new → GoesBy (ends old) (heard bytes ∷ []) (ends new) };

    /// Saying some bytes leads it on by these.
    ghost says_on: { (old : Self) (bytes : List ℕ) (new : Self) → Self.says old bytes new → GoesBy (ends old) (said bytes ∷ []) (ends new) };
}

/// A reader and a writer of its own, as one channel. It tells what both know, and no order.
#[derive(Drop)]
pub struct Pair<R: Drop, W: Drop> {
    pub reader: R,
    pub writer: W,
}

impl<R: Read + Drop, W: Write + Drop> Channel for Pair<R, W> {
    ghost use Rattle.std.specs.Prelude.{◌≡◌};
    ghost use Rattle.std.specs.Io.KnownBytes.{Appends, Consumes, IsAtEnd};

    ghost hears = { λ a bytes b. Consumes (R.remaining a.reader) (R.remaining b.reader) bytes × (W.contents b.writer ≡ W.contents a.writer) };

    ghost says = { λ a bytes b. (R.remaining b.reader ≡ R.remaining a.reader) × Appends (W.contents a.writer) (W.contents b.writer) bytes };

    ghost is_over = { λ a. IsAtEnd (R.remaining a.reader) };

    fn hear(&mut self, piece: &mut [u8]) -> Result<usize, Unheard> {
        let mut ends = Ends {
            reader: &mut self.reader,
            writer: &mut self.writer,
        };
        ends.hear(piece)
    }

    fn say(&mut self, bytes: &[u8]) -> Result<(), Unwritten> {
        write_whole(&mut self.writer, bytes)
    }
}

impl<R: Read + Drop, W: Write + Drop> KnownChannel for Pair<R, W> {
    ghost use Rattle.repo_dial.specs.Ends.{apart, heard_apart, said_apart};

    ghost ends = { λ pair. apart (R.remaining pair.reader) (W.contents pair.writer) };

    ghost hears_on = { λ a bytes b h. heard_apart (R.remaining a.reader) (R.remaining b.reader) (W.contents a.writer) (W.contents b.writer) bytes h.0 h.1 };

    ghost says_on = { λ a bytes b h. said_apart (R.remaining a.reader) (R.remaining b.reader) (W.contents a.writer) (W.contents b.writer) bytes h.0 h.1 };
}

/// The reading end of a connection. Where there is a time for `idle`, each read and each write of the connection
/// fails that waits for longer.
pub fn reader_of<T: OpenStream>(stream: &T, idle: Option<Duration>) -> io::Result<T> {
    if idle.is_some() {
        stream.set_read_timeout(idle)?;
        stream.set_write_timeout(idle)?;
    }
    stream.try_clone()
}

/// Both ends of a connection, whose writer is this stream: `None` where its reading end can't be had. Where there is a time
/// for `idle`, each read and each write fails that waits for longer.
pub fn pair_of<T: Read + Write + OpenStream + Drop>(
    stream: T,
    idle: Option<Duration>,
) -> Option<Pair<T, T>>
    ensures { IfSome result (λ pair. pair.writer ≡ stream) }
{
    match reader_of(&stream, idle) {
        Ok(reader) => Some(Pair {
            reader,
            writer: stream,
        }),
        Err(_) => None,
    }
}
