//! A channel in memory that records what goes over it.

ghost use Rattle.std.specs.Prelude.{◌≡◌, ◌∷◌, [], List, Some, None, IfSome};
ghost use Rattle.repo_wire.specs.Messages.{requests};
ghost use Rattle.repo_wire.specs.Stream.{FitsFrame};
ghost use Rattle.repo_store.specs.Channels.{Passage, heard, said};
ghost use Rattle.repo_session.specs.Turns.{IsAskedFirst};
ghost use Rattle.repo_dial.specs.Ends.{Records};
ghost use Rattle.repo_dial.specs.Recording.{passage_of, record_ends};
ghost use Rattle.repo_dial.specs.Dialing.{AsksOnce};

use crate::asking::ask_once;
use crate::ends::KnownChannel;
use repo_name::Bytes;
use repo_session::DriveError;
use repo_store::{Channel, Unheard, Unwritten};
use repo_wire::{Reply, Request};
use std::alloc::Global;
use std::marker::Model;

/// What went over a channel.
#[derive(Debug, Drop)]
pub enum Went {
    Heard(Bytes),
    Said(Bytes),
}

/// What went over a channel, in order; not known once there was no memory for it.
#[derive(Drop)]
pub struct Tape {
    pub went: Vec<Went>,
    pub is_whole: bool,
}

impl Model for Tape {
    ghost use Rattle.std.specs.Prelude.{List, Option};
    ghost use Rattle.repo_store.specs.Channels.{Passage};
    ghost use Rattle.repo_dial.specs.Recording.{recorded};

    ghost Value = { Option (List Passage) };

    ghost view = { λ t. recorded t.is_whole t.went.items };
}

impl Tape {
    /// Nothing went.
    fn new(alloc: Global) -> Tape
        ensures { result ≡ Some [] }
    {
        Tape {
            went: Vec::new(alloc),
            is_whole: true,
        }
    }

    /// This went, too.
    fn push(&mut self, went: Went)
        ensures { Records self.old (passage_of went ∷ []) self.new }
    {
        if self.went.push(went).is_err() {
            self.is_whole = false;
        }
    }

    /// Something went that isn't known.
    fn lose(&mut self)
        ensures { self.new ≡ None }
    {
        self.is_whole = false;
    }

    /// These bytes were heard.
    fn hear(&mut self, bytes: &[u8])
        ensures { Records self.old (heard bytes.now ∷ []) self.new }
    {
        match copied(*self.went.allocator(), bytes) {
            Some(bytes) => self.push(Went::Heard(bytes)),
            None => self.lose(),
        }
    }

    /// These bytes were said.
    fn say(&mut self, bytes: &[u8])
        ensures { Records self.old (said bytes.now ∷ []) self.new }
    {
        match copied(*self.went.allocator(), bytes) {
            Some(bytes) => self.push(Went::Said(bytes)),
            None => self.lose(),
        }
    }
}

/// A copy of some bytes, where there is memory for it.
fn copied(alloc: Global, bytes: &[u8]) -> Option<Bytes>
    ensures { IfSome result (λ made. made ≡ bytes.now) }
{
    match Vec::from_slice(alloc, bytes) {
        Ok(bytes) => Some(Bytes::of(bytes)),
        Err(_) => None,
    }
}

/// A channel that brings these bytes, one at a time, and records what goes over it.
#[derive(Drop)]
pub struct Recorder<'a> {
    /// What it will still bring.
    pub left: &'a [u8],
    pub tape: Tape,
}

impl<'a> Recorder<'a> {
    /// A channel that brings these bytes.
    pub fn new(alloc: Global, left: &'a [u8]) -> Recorder<'a>
        ensures left { result.left.now ≡ left.now }
        ensures tape { result.tape ≡ Some [] }
    {
        Recorder {
            left,
            tape: Tape::new(alloc),
        }
    }

    /// Asks one request, which fits a frame, where nothing went so far. What is recorded shows that it was said whole before
    /// anything was heard, and that nothing was heard once the reply to it was there.
    pub fn ask(&mut self, alloc: Global, request: &Request) -> Result<Reply, DriveError>
        requires fits { FitsFrame requests request.now }
        requires new { self.old.tape ≡ Some [] }
        ensures first { (passages : List Passage) → self.new.tape ≡ Some passages → IsAskedFirst [] [] request.now passages }
        ensures asks { AsksOnce request.now (record_ends self.old.left.now self.old.tape) result (record_ends self.new.left.now self.new.tape) }
    {
        ask_once(alloc, self, request)
    }
}

impl Channel for Recorder<'_> {
    ghost use Rattle.std.specs.Prelude.{◌≡◌, ◌++◌, ◌∷◌, []};
    ghost use Rattle.repo_store.specs.Channels.{heard, said};
    ghost use Rattle.repo_dial.specs.Ends.{Records};

    ghost hears = { λ a bytes b. (a.left.now ≡ bytes ++ b.left.now) × Records a.tape (heard bytes ∷ []) b.tape };

    ghost says = { λ a bytes b. (b.left.now ≡ a.left.now) × Records a.tape (said bytes ∷ []) b.tape };

    ghost is_over = { λ a. a.left.now ≡ [] };

    fn hear(&mut self, piece: &mut [u8]) -> Result<usize, Unheard> {
        let count = piece.len().min(self.left.len()).min(1);
        let (next, rest) = self.left.split_at(count);
        piece[..count].copy_from_slice(next);
        self.left = rest;
        self.tape.hear(next);
        Ok(count)
    }

    fn say(&mut self, bytes: &[u8]) -> Result<(), Unwritten> {
        self.tape.say(bytes);
        Ok(())
    }
}

impl KnownChannel for Recorder<'_> {
    ghost use Rattle.repo_dial.specs.Recording.{record_ends, heard_recorded, said_recorded};

    ghost ends = { λ a. record_ends a.left.now a.tape };

    ghost hears_on = { λ a bytes b h. heard_recorded a.left.now a.tape bytes b.left.now b.tape h.0 h.1 };

    ghost says_on = { λ a bytes b h. said_recorded a.left.now a.tape bytes b.left.now b.tape h.0 h.1 };
}
