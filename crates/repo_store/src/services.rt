//! The requests of one stream, answered one after another.

ghost use Rattle.std.specs.Prelude.{◌≡◌, ◌<◌, ◌+◌, ◌^◌, ◌++◌, IfOk, IfSome, IsTrue, IsFalse, OnOk, OnErr};
ghost use Rattle.repo_wire.specs.Reading.{fed};
ghost use Rattle.repo_store.specs.Serving.{Past, Moment, seen};
ghost use Rattle.repo_store.specs.Services.{nothing, Rests, Finishes, ServesNext, ServesEach};
ghost use Rattle.repo_store.specs.Channels.{GoesOver};

use crate::answers::answer;
use crate::channels::{Channel, Speaker};
use crate::forms::{Form, ServiceError};
use crate::shelves::Shelf;
use repo_wire::{FrameReader, write_reply};
use std::alloc::{AllocError, Global};
use std::io::Write;

/// The most requests that are answered.
const REQUESTS: u64 = 1 << 32;

/// The reader of a stream's requests, how their replies are written, and how many were answered.
#[derive(Drop)]
pub struct Service<F> {
    pub reader: FrameReader,
    form: F,
    /// What is written for the last reply.
    frame: Vec<u8>,
    pub answered: u64,
}

impl<F: Form + Drop> Service<F> {
    /// A service of nothing so far. It takes no memory.
    pub fn new(alloc: Global, form: F) -> Service<F>
        ensures { (before : Moment) → Rests F.shown before result nothing before }
    {
        Service {
            reader: FrameReader::new(alloc),
            form,
            frame: Vec::new(alloc),
            answered: 0,
        }
    }

    /// Answers the next request, where one is there, and says its reply.
    fn answer_next<S: Shelf, C: Channel>(
        &mut self,
        shelf: &mut S,
        channel: &mut C,
    ) -> Result<bool, ServiceError>
        requires { self.old.answered < 2 ^ 32 }
        ensures next { S.honest shelf.old → GoesOver C.hears C.says (λ at after. ServesNext F.shown self.old at result self.new after)
            channel.old (S.store shelf.old) (S.failed shelf.old) channel.new (S.store shelf.new) (S.failed shelf.new) }
        ensures honest { S.honest shelf.old → S.honest shelf.new }
        ensures counted { IfOk result (λ more. IsTrue more → self.new.answered ≡ self.old.answered + 1) }
        ensures still { IfOk result (λ more. IsFalse more → self.new.answered ≡ self.old.answered) }
    {
        let Some(request) = self.reader.next_request()? else {
            return Ok(false);
        };
        let alloc = *self.frame.allocator();
        let reply = answer(alloc, shelf, &request);
        self.answered += 1;
        self.frame.clear();
        write_reply(&reply, &mut self.frame)?;
        self.form.show(&mut self.frame)?;
        channel.say(self.frame.as_slice())?;
        Ok(true)
    }

    /// Takes the next piece of the stream. It fails for memory alone, and then nothing changed.
    pub fn feed(&mut self, piece: &[u8]) -> Result<(), AllocError>
        ensures ok { OnOk result (self.new.reader ≡ fed self.old.reader piece.now) }
        ensures answered { self.new.answered ≡ self.old.answered }
        ensures err { OnErr result (self.new ≡ self.old) }
    {
        self.reader.feed(piece)
    }

    /// Answers each request that is there, and says its reply over a channel, of which it hears nothing.
    pub fn answer_over<S: Shelf, C: Channel>(
        &mut self,
        shelf: &mut S,
        channel: &mut C,
    ) -> Result<(), ServiceError>
        ensures all { S.honest shelf.old → GoesOver C.hears C.says (λ at after. ServesEach F.shown self.old at result self.new after)
            channel.old (S.store shelf.old) (S.failed shelf.old) channel.new (S.store shelf.new) (S.failed shelf.new) }
        ensures honest { S.honest shelf.old → S.honest shelf.new }
        ensures few { OnOk result (self.new.answered < 2 ^ 32) }
    {
        while self.answered < REQUESTS {
            let more = self.answer_next(shelf, channel)?;
            if !more {
                return Ok(());
            }
        }
        Err(ServiceError::Limit)
    }

    /// Answers each request that is there, and writes its reply.
    pub fn answer_all<S: Shelf, W: Write>(
        &mut self,
        shelf: &mut S,
        writer: &mut W,
    ) -> Result<(), ServiceError>
        ensures all { S.honest shelf.old → ServesEach F.shown self.old (seen (S.store shelf.old) (S.failed shelf.old) (W.contents writer.old))
            result self.new (seen (S.store shelf.new) (S.failed shelf.new) (W.contents writer.new)) }
        ensures honest { S.honest shelf.old → S.honest shelf.new }
        ensures few { OnOk result (self.new.answered < 2 ^ 32) }
    {
        let mut speaker = Speaker { writer };
        let answered = self.answer_over(shelf, &mut speaker);
        // What the writer holds then is read off this use of it.
        let _ = &*speaker.writer;
        answered
    }

    /// Ends the stream, and gives the number of requests that were answered; `None` inside a frame.
    pub fn finish(self) -> Option<u64>
        ensures finishes { (before after : Moment) (past : Past) → Rests F.shown before self past after → Finishes F.shown before past result after }
        ensures count { IfSome result (λ count. count ≡ self.answered) }
    {
        if !self.reader.is_between() {
            return None;
        }
        Some(self.answered)
    }
}
