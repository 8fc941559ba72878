//! One connection, as its bytes show it.

ghost use Rattle.std.specs.Prelude.{IsFalse, IsErr, ◌≡◌, ◌≤◌, ◌<◌, [], None, IfOk, OnOk, OnErr, false, true, length, drop};
ghost use Rattle.repo_wire.specs.Reading.{fed};
ghost use Rattle.repo_hall.specs.Guests.{AnswerCause, GuestGoes, IsNewGuest, out_of};

use repo_store::{ServiceError, Shelf, answer};
use repo_wire::{FrameReader, write_reply};
use std::alloc::{AllocError, Global};

/// Room of more bytes than these is given back once it isn't wanted.
const LARGE: usize = 1_048_576;

/// A connection: what it brought and wasn't answered yet, and what it is to be given.
#[derive(Drop)]
pub struct Guest {
    pub number: u64,
    pub reader: FrameReader,
    /// The frame of the last reply.
    pub frame: Vec<u8>,
    /// How many bytes of it were given.
    pub given: usize,
    /// It is answered no more.
    pub ended: bool,
}

/// Gives back the room of a reader that held so many bytes and holds none any more, where that was much.
fn give_back(reader: &mut FrameReader, held: usize, alloc: Global)
    requires { reader.old.fault ≡ None }
    ensures { reader.new ≡ reader.old }
{
    if held > LARGE && reader.is_between() {
        *reader = FrameReader::new(alloc);
    }
}

impl Guest {
    /// A guest that brought nothing so far. It takes no memory.
    pub fn new(alloc: Global, number: u64) -> Guest
        ensures { IsNewGuest result number }
    {
        Guest {
            number,
            reader: FrameReader::new(alloc),
            frame: Vec::new(alloc),
            given: 0,
            ended: false,
        }
    }

    /// Takes the next piece of what it brings. It fails for memory alone, and then nothing changed.
    pub fn feed(&mut self, piece: &[u8]) -> Result<(), AllocError>
        ensures ok { OnOk result (self.new.reader ≡ fed self.old.reader piece.now) }
        ensures number { self.new.number ≡ self.old.number }
        ensures out { out_of self.new ≡ out_of self.old }
        ensures ended { self.new.ended ≡ self.old.ended }
        ensures err { OnErr result (self.new.reader ≡ self.old.reader) }
    {
        self.reader.feed(piece)
    }

    /// What it is to be given yet.
    pub fn out(&self) -> &[u8]
        ensures { result.now ≡ out_of self.now }
    {
        let given = self.given.min(self.frame.len());
        &self.frame.as_slice()[given..]
    }

    /// It was given so many bytes of that. Once all of a large frame was given, its room is given back.
    pub fn gave(&mut self, count: usize)
        requires { count ≤ length (out_of self.old) }
        ensures out { out_of self.new ≡ drop count (out_of self.old) }
        ensures number { self.new.number ≡ self.old.number }
        ensures reader { self.new.reader ≡ self.old.reader }
        ensures ended { self.new.ended ≡ self.old.ended }
    {
        self.given += count;
        if self.given == self.frame.len() && self.frame.capacity() > LARGE {
            self.frame = Vec::new(*self.frame.allocator());
            self.given = 0;
        }
    }

    /// Answers its next request, where a whole one is there and the last reply was given. It says whether
    /// one was answered. After an error it is answered no more: its stream has a fault, or there was no
    /// memory, perhaps for the reply to a request that was answered.
    pub fn answer_next<S: Shelf>(
        &mut self,
        alloc: Global,
        shelf: &mut S,
    ) -> Result<bool, ServiceError>
        ensures goes { S.honest shelf.old
            → GuestGoes self.old result self.new (S.store shelf.old) (S.failed shelf.old) (S.store shelf.new) (S.failed shelf.new) }
        ensures cause { AnswerCause self.old result }
        ensures still { IfOk result (λ some. IsFalse some → (self.new ≡ self.old) × (shelf.new ≡ shelf.old)) }
        ensures over { IsErr result → self.new.ended ≡ true }
        ensures number { self.new.number ≡ self.old.number }
        ensures honest { S.honest shelf.old → S.honest shelf.new }
    {
        if self.ended || !self.out().is_empty() {
            return Ok(false);
        }
        let held = self.reader.held();
        match self.reader.next_request() {
            Ok(None) => Ok(false),
            Ok(Some(request)) => {
                give_back(&mut self.reader, held, alloc);
                let reply = answer(alloc, shelf, &request);
                self.frame.clear();
                self.given = 0;
                if write_reply(&reply, &mut self.frame).is_err() {
                    self.ended = true;
                    return Err(ServiceError::Memory);
                }
                Ok(true)
            }
            Err(error) => {
                self.ended = true;
                Err(ServiceError::from(error))
            }
        }
    }
}
