//! A stream that comes in pieces, cut into lines.

ghost use Rattle.std.specs.Prelude.{◌≡◌, ◌++◌, ◌∷◌, [], List, ℕ, IfOk, OnOk, OnErr};
ghost use Rattle.std.specs.Option.{MatchOption};
ghost use Rattle.repo_script.specs.Cuts.{cut, line_feed, LinesGoOn};

use bytes::BytesMut;
use memchr::memchr;
use std::alloc::{AllocError, Global};
use std::marker::Model;

/// Cuts a stream into lines. A clause sees what has come and wasn't given as a line yet.
#[derive(Drop)]
pub struct LineCutter {
    buffer: BytesMut,
}

impl Model for LineCutter {
    ghost use Rattle.std.specs.Prelude.{ℕ, List};

    ghost Value = { List ℕ };

    ghost view = { λ c. c.buffer.items };
}

impl LineCutter {
    /// A stream of nothing so far. It takes no memory.
    pub fn new(alloc: Global) -> LineCutter
        ensures { result ≡ [] }
    {
        let buffer = BytesMut::new(alloc);
        LineCutter { buffer }
    }

    /// Takes the next piece. It fails for memory alone, and then changes nothing.
    pub fn feed(&mut self, piece: &[u8]) -> Result<(), AllocError>
        ensures ok { OnOk result (self.new ≡ self.old ++ piece.now) }
        ensures err { OnErr result (self.new ≡ self.old) }
    {
        self.buffer.extend_from_slice(piece)
    }

    /// The next line that has ended, without its line feed; `None` until one has. It fails for memory alone, and then
    /// changes nothing.
    pub fn next_line(&mut self) -> Result<Option<Vec<u8>>, AllocError>
        ensures line { IfOk result (λ found. MatchOption found
            ((cut line_feed self.old ≡ self.old ∷ []) × (self.new ≡ self.old))
            (λ line. (self.old ≡ line.items ++ line_feed ∷ self.new) × (cut line_feed self.old ≡ line.items ∷ cut line_feed self.new))) }
        ensures err { OnErr result (self.new ≡ self.old) }
    {
        let stream = self.buffer.as_slice();
        let Some(end) = memchr(b'\n', stream) else {
            return Ok(None);
        };
        let alloc = *self.buffer.allocator();
        let line = Vec::from_slice(alloc, &stream[..end])?;
        self.buffer.advance(end + 1);
        Ok(Some(line))
    }

    /// What has come and wasn't given as a line: at the stream's end its last line, if it isn't empty.
    pub fn rest(&self) -> &[u8]
        ensures { result.now ≡ self.now }
    {
        self.buffer.as_slice()
    }
}

/// What comes next changes no line that has ended.
pub fn lines_go_on()
    ensures { LinesGoOn }
{}
