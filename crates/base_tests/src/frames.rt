//! Frames: a reader is fed one, gives the message, and that is written.

use crate::formats::read_word;
use crate::trials::Trial;
use repo_wire::{Fault, FrameReader, Reply, Request, WireError, write_reply, write_request};

// A request for a ticket, and a reply with token 1.
const TICKET: &str = "00000019 01 01010101010101010101010101010101 0000000000000001";

const TOKEN: &str =
    "00000021 81 01010101010101010101010101010101 0000000000000001 0000000000000001";

/// The word for a message that isn't read.
fn fault_word(error: WireError) -> &'static str {
    match error {
        WireError::Fault(Fault::Length) => "length",
        WireError::Fault(Fault::Tag) => "tag",
        WireError::Fault(Fault::Fields) => "fields",
        WireError::Memory => "memory",
    }
}

impl Trial {
    /// A reader that was fed these bytes, again where there was no memory and it was unchanged.
    fn fed(&mut self, bytes: &[u8]) -> FrameReader {
        let mut reader = FrameReader::new(self.alloc);
        if reader.feed(bytes).is_err() {
            self.lack();
            self.count(reader.is_between());
            self.count(reader.feed(bytes).is_ok());
        }
        reader
    }

    /// The next request, asked for again where there was no memory.
    fn next_request(&mut self, reader: &mut FrameReader) -> Result<Option<Request>, WireError> {
        let found = reader.next_request();
        if matches!(found, Err(WireError::Memory)) {
            self.lack();
            return reader.next_request();
        }
        found
    }

    /// The next reply, asked for again where there was no memory.
    fn next_reply(&mut self, reader: &mut FrameReader) -> Result<Option<Reply>, WireError> {
        let found = reader.next_reply();
        if matches!(found, Err(WireError::Memory)) {
            self.lack();
            return reader.next_reply();
        }
        found
    }

    /// Whether a request is written as this frame, behind nothing; it is written again where there was no memory and nothing was.
    fn is_request(&mut self, request: &Request, frame: &[u8]) -> bool {
        let mut out = Vec::new(self.alloc);
        if !request.fits() {
            return false;
        }
        if write_request(request, &mut out).is_err() {
            self.lack();
            self.count(out.is_empty() && write_request(request, &mut out).is_ok());
        }
        out.as_slice() == frame
    }

    /// Whether a reply is written as this frame, behind nothing; it is written again where there was no memory and nothing was.
    fn is_reply(&mut self, reply: &Reply, frame: &[u8]) -> bool {
        let mut out = Vec::new(self.alloc);
        if !reply.fits() {
            return false;
        }
        if write_reply(reply, &mut out).is_err() {
            self.lack();
            self.count(out.is_empty() && write_reply(reply, &mut out).is_ok());
        }
        out.as_slice() == frame
    }

    /// A reader of requests that was fed these bytes tells this fault; a whole frame behind them changes nothing of that.
    fn keeps_fault(&mut self, digits: &str, wanted: &str) {
        let (bytes, frame) = (self.bytes(digits), self.bytes(TICKET));
        let mut reader = self.fed(bytes.as_slice());
        for _ in 0..3 {
            let word = match self.next_request(&mut reader) {
                Ok(_) => "read",
                Err(error) => fault_word(error),
            };
            self.count(word == wanted && reader.feed(frame.as_slice()).is_ok());
        }
    }

    /// The same of a reader of replies.
    fn keeps_fault_of_reply(&mut self, digits: &str, wanted: &str) {
        let (bytes, frame) = (self.bytes(digits), self.bytes(TOKEN));
        let mut reader = self.fed(bytes.as_slice());
        for _ in 0..3 {
            let word = match self.next_reply(&mut reader) {
                Ok(_) => "read",
                Err(error) => fault_word(error),
            };
            self.count(word == wanted && reader.feed(frame.as_slice()).is_ok());
        }
    }

    /// The word for a request's frame.
    pub fn request_word(&mut self, bytes: &[u8]) -> &'static str {
        let mut reader = self.fed(bytes);
        match self.next_request(&mut reader) {
            Ok(Some(request)) => read_word(self.is_request(&request, bytes) && reader.is_between()),
            Ok(None) => "none",
            Err(error) => fault_word(error),
        }
    }

    /// The word for a reply's frame.
    pub fn reply_word(&mut self, bytes: &[u8]) -> &'static str {
        let mut reader = self.fed(bytes);
        match self.next_reply(&mut reader) {
            Ok(Some(reply)) => read_word(self.is_reply(&reply, bytes) && reader.is_between()),
            Ok(None) => "none",
            Err(error) => fault_word(error),
        }
    }
}

#[test]
fn a_fault_stays(rt: HostRuntime) {
    let mut trial = Trial::new(rt.alloc());
    trial.keeps_fault("01900001", "length");
    trial.keeps_fault("00000018", "length");
    trial.keeps_fault(
        "00000019 0d 01010101010101010101010101010101 0000000000000001",
        "tag",
    );
    trial.keeps_fault(
        "00000019 07 01010101010101010101010101010101 0000000000000001",
        "fields",
    );
    trial.keeps_fault(
        "00000022 04 01010101010101010101010101010101 0000000000000001 0000000000000001 00",
        "fields",
    );
    trial.keeps_fault_of_reply(
        "0000001a 86 01010101010101010101010101010101 0000000000000001 00",
        "fields",
    );
    trial.keeps_fault_of_reply("01900001", "length");
    trial.end(&rt);
}
