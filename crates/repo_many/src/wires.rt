//! Connections from which nobody waits for bytes, as what goes over them.

ghost use Rattle.std.specs.Prelude.{◌≡◌, ◌≤◌, ◌<◌, [], ℕ, List, length, take, IfOk, OnErr};

use std::io;
use std::io::{Read, Write};

/// Both ends of a connection: what is heard comes from one, and what is said goes to the other. A call that would have to wait fails.
pub trait Wire {
    /// Where hearing some bytes leads.
    ghost hears: { Self → List ℕ → Self → Type 0 };
    /// Where saying some bytes leads.
    ghost says: { Self → List ℕ → Self → Type 0 };
    /// Nothing more is heard.
    ghost is_over: { Self → Type 0 };

    /// Hears what is there, as much as fits the piece at most, and says how much; 0 only at the end, if the piece has room.
    fn hear(&mut self, piece: &mut [u8]) -> io::Result<usize>
        ensures count { IfOk result (λ n. n ≤ length piece.new) }
        ensures heard { IfOk result (λ n. hears self.old (take n piece.new) self.new) }
        ensures over { IfOk result (λ n. n ≡ 0 → 0 < length piece.new → is_over self.new) }
        ensures err { OnErr result (hears self.old [] self.new) };

    /// Says the first of these bytes, and how many.
    fn say(&mut self, bytes: &[u8]) -> io::Result<usize>
        ensures count { IfOk result (λ n. n ≤ length bytes.now) }
        ensures said { IfOk result (λ n. says self.old (take n bytes.now) self.new) }
        ensures err { OnErr result (says self.old [] self.new) };
}

/// The socket of a connection.
#[derive(Drop)]
pub struct Link<T: Drop> {
    pub stream: T,
}

impl<T: Read + Write + Drop> Wire for Link<T> {
    ghost use Rattle.std.specs.Io.KnownBytes.{IsAtEnd};
    ghost use Rattle.repo_many.specs.Wires.{Hears, Says};

    ghost hears = { Hears T.remaining };

    ghost says = { Says T.contents };

    ghost is_over = { λ a. IsAtEnd (T.remaining a.stream) };

    fn hear(&mut self, piece: &mut [u8]) -> io::Result<usize> {
        self.stream.read(piece)
    }

    fn say(&mut self, bytes: &[u8]) -> io::Result<usize> {
        self.stream.write(bytes)
    }
}
