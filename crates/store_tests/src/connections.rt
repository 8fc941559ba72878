//! Connections over a shelf in memory: bytes that come one at a time, readers and writers that fail.

use repo_store::{MemShelf, ServeError, Unwritten, serve, write_whole};
use std::alloc::Global;
use std::io;
use std::io::{Read, Write};

/// A frame that asks for a ticket, of the sequence 1.
pub const TICKET: [u8; 29] = [
    0, 0, 0, 25, 1, 1, 1, 1, 1, 1, 1, 1, 1, 1, 1, 1, 1, 1, 1, 1, 1, 0, 0, 0, 0, 0, 0, 0, 1,
];

/// The frame that gives the token 1 to it.
const TOKEN: [u8; 37] = [
    0, 0, 0, 33, 129, 1, 1, 1, 1, 1, 1, 1, 1, 1, 1, 1, 1, 1, 1, 1, 1, 0, 0, 0, 0, 0, 0, 0, 1, 0, 0,
    0, 0, 0, 0, 0, 1,
];

/// The frame that gives this token to it.
pub fn token(number: u8) -> [u8; 37] {
    let mut frame = TOKEN;
    frame[36] = number;
    frame
}

/// A length that no frame has.
pub const TOO_SHORT: [u8; 4] = [0, 0, 0, 24];

/// Gives one byte at a read of two pieces, and at their end nothing, or a failure.
#[derive(Drop)]
struct Slow<'a> {
    left: &'a [u8],
    then: &'a [u8],
    fails: bool,
}

impl Read for Slow<'_> {
    fn read(&mut self, buf: &mut [u8]) -> io::Result<usize> {
        if self.left.is_empty() {
            self.left = self.then;
            self.then = &[];
        }
        match (self.left, buf) {
            ([first, rest @ ..], [place, ..]) => {
                *place = *first;
                self.left = rest;
                Ok(1)
            }
            _ if self.fails => Err(io::Error::from(io::ErrorKind::BrokenPipe)),
            _ => Ok(0),
        }
    }
}

/// Takes seven bytes at a write, and fails past some.
#[derive(Drop)]
struct Narrow {
    taken: usize,
    room: usize,
}

impl Write for Narrow {
    fn write(&mut self, buf: &[u8]) -> io::Result<usize> {
        let count = buf.len().min(7);
        if self.room.saturating_sub(self.taken) < count {
            return Err(io::Error::from(io::ErrorKind::BrokenPipe));
        }
        self.taken = self.taken.saturating_add(count);
        Ok(count)
    }

    fn flush(&mut self) -> io::Result<()> {
        Ok(())
    }
}

/// How many connections didn't end as wanted.
#[derive(Drop)]
struct Trial {
    alloc: Global,
    differ: u64,
}

impl Trial {
    fn count(&mut self, is_so: bool) {
        if !is_so {
            self.differ = self.differ.saturating_add(1);
        }
    }

    /// A connection that brings these bytes, one at a time, ends so, and this is written.
    fn ends(&mut self, mut input: Slow<'_>, wanted: Result<u64, ServeError>, written: &[u8]) {
        let mut shelf = MemShelf::new(self.alloc);
        let mut output = Vec::new(self.alloc);
        let ended = serve(self.alloc, &mut input, &mut output, &mut shelf);
        self.count(ended == wanted);
        self.count(output.as_slice() == written);
    }

    /// The reply to a ticket is written to a writer that takes so many bytes.
    fn writes(&mut self, room: usize, wanted: Result<u64, ServeError>, taken: usize) {
        let mut shelf = MemShelf::new(self.alloc);
        let mut output = Narrow { taken: 0, room };
        let mut input = TICKET.as_slice();
        let ended = serve(self.alloc, &mut input, &mut output, &mut shelf);
        self.count(ended == wanted);
        self.count(output.taken == taken);
    }
}

/// A connection that brings these two pieces and ends.
fn pieces<'a>(left: &'a [u8], then: &'a [u8]) -> Slow<'a> {
    Slow {
        left,
        then,
        fails: false,
    }
}

#[test]
fn a_connection_is_served_to_its_end(rt: HostRuntime) {
    let mut trial = Trial {
        alloc: rt.alloc(),
        differ: 0,
    };
    let malformed = Err(ServeError::Malformed);
    trial.ends(pieces(&[], &[]), Ok(0), &[]);
    trial.ends(pieces(&TICKET, &[]), Ok(1), &TOKEN);
    trial.ends(pieces(&TICKET[..28], &[]), malformed, &[]);
    trial.ends(pieces(&TOO_SHORT, &[]), malformed, &[]);
    trial.ends(pieces(&TICKET, &TOO_SHORT), malformed, &TOKEN);
    assert_eq!(rt; trial.differ, 0);
}

#[test]
fn a_reader_that_fails(rt: HostRuntime) {
    let mut trial = Trial {
        alloc: rt.alloc(),
        differ: 0,
    };
    let failing = Slow {
        left: &TICKET,
        then: &[],
        fails: true,
    };
    trial.ends(failing, Err(ServeError::Read), &TOKEN);
    assert_eq!(rt; trial.differ, 0);
}

#[test]
fn a_writer_that_fails(rt: HostRuntime) {
    let mut trial = Trial {
        alloc: rt.alloc(),
        differ: 0,
    };
    trial.writes(20, Err(ServeError::Write), 14);
    trial.writes(40, Ok(1), 37);
    assert_eq!(rt; trial.differ, 0);
}

#[test]
fn bytes_are_written_whole_or_the_call_fails(rt: HostRuntime) {
    let mut output = Narrow { taken: 0, room: 8 };
    let fits = write_whole(&mut output, b"12345678");
    let is_past = write_whole(&mut output, b"9");
    assert!(rt; fits == Ok(()) && is_past == Err(Unwritten));
}
