//! A talk with a store in memory, line by line.

ghost use Rattle.std.specs.Prelude.{◌≡◌, ◌<◌, ◌≤◌, ◌+◌, ◌^◌, ◌∷◌, [], ℕ, List, Option, length, IfOk, OnOk};
ghost use Rattle.repo_store.specs.Services.{nothing};
ghost use Rattle.repo_prog.specs.Talks.{Talks, EndsLine, TakesBytes, EndsLastLine, EndsTalk};

use crate::errors::FramesError;
use crate::output::HexLine;
use hex::FromHexError;
use repo_store::{MemShelf, Service};
use std::alloc::Global;
use std::io::Write;

/// A store in memory, the service of its requests, and the line that hasn't ended yet.
#[derive(Drop)]
pub struct Talk {
    pub line: Vec<u8>,
    /// How many lines have ended.
    pub number: u64,
    pub service: Service<HexLine>,
    pub shelf: MemShelf,
}

impl Talk {
    /// A talk of nothing so far, with an empty store. It takes no memory.
    pub fn new(alloc: Global) -> Talk
        ensures talks { (start : Option (List ℕ)) → Talks start result [] nothing start }
        ensures line { result.line.items ≡ [] }
        ensures number { result.number ≡ 0 }
        ensures few { result.service.answered < 2 ^ 32 }
    {
        Talk {
            line: Vec::new(alloc),
            number: 0,
            service: Service::new(alloc, HexLine),
            shelf: MemShelf::new(alloc),
        }
    }

    /// Ends a line: its bytes are fed, and each request that is there is answered. A line that isn't
    /// hexadecimal gives no bytes.
    fn end_line<W: Write>(&mut self, writer: &mut W) -> Result<(), FramesError>
        requires { self.old.number < 2 ^ 63 }
        ensures next { EndsLine self.old (W.contents writer.old) result self.new (W.contents writer.new) }
        ensures line { OnOk result (self.new.line.items ≡ []) }
        ensures number { OnOk result (self.new.number ≡ self.old.number + 1) }
        ensures few { OnOk result (self.new.service.answered < 2 ^ 32) }
    {
        let alloc = *self.line.allocator();
        let bytes = match hex::decode(alloc, self.line.as_slice()) {
            Ok(bytes) => bytes,
            Err(FromHexError::OutOfMemory) => return Err(FramesError::Memory),
            Err(_) => return Err(FramesError::Hex(self.number + 1)),
        };
        self.service.feed(&bytes)?;
        self.line.clear();
        self.number += 1;
        self.service.answer_all(&mut self.shelf, writer)?;
        Ok(())
    }

    /// Takes the next byte of the input.
    fn take_byte<W: Write>(&mut self, byte: u8, writer: &mut W) -> Result<(), FramesError>
        requires number { self.old.number < 2 ^ 63 }
        requires few { self.old.service.answered < 2 ^ 32 }
        ensures next { TakesBytes (byte ∷ []) self.old (W.contents writer.old) result self.new (W.contents writer.new) }
        ensures number { OnOk result (self.new.number ≤ self.old.number + 1) }
        ensures few { OnOk result (self.new.service.answered < 2 ^ 32) }
    {
        if byte == b'\n' {
            return self.end_line(writer);
        }
        match self.line.push(byte) {
            Ok(()) => Ok(()),
            Err(_) => Err(FramesError::Memory),
        }
    }

    /// Takes the next piece of the input.
    pub fn take<W: Write>(&mut self, piece: &[u8], writer: &mut W) -> Result<(), FramesError>
        requires number { self.old.number + length piece.now < 2 ^ 63 }
        requires few { self.old.service.answered < 2 ^ 32 }
        ensures next { TakesBytes piece.now self.old (W.contents writer.old) result self.new (W.contents writer.new) }
        ensures number { OnOk result (self.new.number ≤ self.old.number + length piece.now) }
        ensures few { OnOk result (self.new.service.answered < 2 ^ 32) }
    {
        for byte in piece {
            self.take_byte(*byte, writer)?;
        }
        Ok(())
    }

    /// Ends the last line, if there is one, at the end of the input.
    fn end_last_line<W: Write>(&mut self, writer: &mut W) -> Result<(), FramesError>
        requires number { self.old.number < 2 ^ 63 }
        requires few { self.old.service.answered < 2 ^ 32 }
        ensures few { OnOk result (self.new.service.answered < 2 ^ 32) }
        ensures ends { EndsLastLine self.old (W.contents writer.old) result self.new (W.contents writer.new) }
    {
        if self.line.as_slice().is_empty() {
            return Ok(());
        }
        self.end_line(writer)
    }

    /// Ends the input, and gives the number of requests that were answered.
    pub fn finish<W: Write>(mut self, writer: &mut W) -> Result<u64, FramesError>
        requires number { self.number < 2 ^ 63 }
        requires few { self.service.answered < 2 ^ 32 }
        ensures few { IfOk result (λ count. count < 2 ^ 32) }
        ensures ends { EndsTalk self (W.contents writer.old) result (W.contents writer.new) }
    {
        self.end_last_line(writer)?;
        self.service.finish().ok_or(FramesError::Inside)
    }
}
