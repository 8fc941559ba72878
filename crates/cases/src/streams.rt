//! What a command reads and writes: streams that come byte by byte, break off, or take no more.

use std::alloc::Global;
use std::io;
use std::io::{Read, Write};

/// How a reader gives its bytes.
#[derive(Clone, Copy)]
pub struct Pace {
    /// One byte at a read.
    pub slow: bool,
    /// After the last byte a read fails, where it would have come to the end.
    pub broken: bool,
}

/// The bytes that a reader gives.
#[derive(Drop)]
pub struct Inlet<'a> {
    pub left: &'a [u8],
    pub pace: Pace,
}

impl Read for Inlet<'_> {
    fn read(&mut self, buf: &mut [u8]) -> io::Result<usize> {
        if self.left.is_empty() && self.pace.broken {
            return Err(io::Error::from(io::ErrorKind::BrokenPipe));
        }
        if !self.pace.slow {
            return self.left.read(buf);
        }
        match (self.left, buf) {
            ([first, rest @ ..], [place, ..]) => {
                *place = *first;
                self.left = rest;
                Ok(1)
            }
            _ => Ok(0),
        }
    }
}

/// The most bytes that a writer with little room takes at once.
const SIP: usize = 7;

/// What a writer took, and how many bytes it takes yet: all, where nothing is said.
#[derive(Drop)]
pub struct Outlet {
    pub taken: Vec<u8>,
    pub room: Option<usize>,
    /// Whether there was no memory for what it was to take.
    pub lacks_memory: bool,
}

impl Outlet {
    /// A writer with this much room, which took nothing yet.
    pub fn new(alloc: Global, room: Option<usize>) -> Outlet {
        Outlet {
            taken: Vec::new(alloc),
            room,
            lacks_memory: false,
        }
    }

    /// Notes whether there was memory for what it was to take.
    fn note(&mut self, taken: &io::Result<usize>) {
        if taken.is_err() {
            self.lacks_memory = true;
        }
    }
}

impl Write for Outlet {
    fn write(&mut self, buf: &[u8]) -> io::Result<usize> {
        let Some(room) = self.room else {
            let taken = self.taken.write(buf);
            self.note(&taken);
            return taken;
        };
        let count = buf.len().min(SIP).min(room);
        let piece = buf.get(..count).unwrap_or(&[]);
        if piece.is_empty() {
            return Err(io::Error::from(io::ErrorKind::BrokenPipe));
        }
        self.room = Some(room.saturating_sub(count));
        let taken = self.taken.write(piece);
        self.note(&taken);
        taken
    }

    fn flush(&mut self) -> io::Result<()> {
        Ok(())
    }
}
