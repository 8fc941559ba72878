//! A channel in memory that notes what goes over it, and a server that answers all that it heard before it hears more.

use crate::connections::{TICKET, token};
use repo_store::{Channel, MemShelf, ServeError, Unheard, Unwritten, serve_over};
use std::alloc::Global;

/// So many bytes were heard, or said.
#[derive(Clone, Copy, Debug, PartialEq)]
enum Note {
    Heard(usize),
    Said(usize),
}

/// A channel that brings two pieces, one at a time, and notes what is heard and said.
#[derive(Drop)]
struct Noting<'a> {
    left: &'a [u8],
    then: &'a [u8],
    notes: Vec<Note>,
    said: Vec<u8>,
}

impl Channel for Noting<'_> {
    ghost use Rattle.std.specs.Prelude.{◌≡◌, ◌⊎◌, ◌++◌, ◌∷◌, [], ⊤, length};
    ghost use Rattle.store_tests.specs.declared.noting.Note.{Note};

    ghost hears = { λ a bytes b. (b.notes.items ≡ a.notes.items ++ Note.Heard (length bytes) ∷ []) ⊎ ((bytes ≡ []) × (b.notes.items ≡ a.notes.items)) };

    ghost says = { λ a bytes b. (b.notes.items ≡ a.notes.items ++ Note.Said (length bytes) ∷ []) ⊎ ((bytes ≡ []) × (b.notes.items ≡ a.notes.items)) };

    ghost is_over = { λ a. ⊤ };

    fn hear(&mut self, piece: &mut [u8]) -> Result<usize, Unheard> {
        if self.left.is_empty() {
            self.left = self.then;
            self.then = &[];
        }
        let count = self.left.len().min(piece.len());
        if self.notes.push(Note::Heard(count)).is_err() {
            return Err(Unheard);
        }
        let (first, rest) = self.left.split_at(count);
        let (front, _) = piece.split_at_mut(count);
        front.copy_from_slice(first);
        self.left = rest;
        Ok(count)
    }

    fn say(&mut self, bytes: &[u8]) -> Result<(), Unwritten> {
        if self.said.extend_from_slice(bytes).is_err() {
            return Err(Unwritten);
        }
        match self.notes.push(Note::Said(bytes.len())) {
            Ok(()) => Ok(()),
            Err(_) => Err(Unwritten),
        }
    }
}

/// What went over a channel that brought these two pieces, whose requests were so many, answered by these two tokens: nothing
/// where it was anything else.
fn went<'a>(alloc: Global, left: &'a [u8], then: &'a [u8]) -> Vec<Note> {
    let mut shelf = MemShelf::new(alloc);
    let mut noting = Noting {
        left,
        then,
        notes: Vec::new(alloc),
        said: Vec::new(alloc),
    };
    let served = serve_over(alloc, &mut noting, &mut shelf);
    let (first, second) = noting.said.as_slice().split_at(noting.said.len().min(37));
    if served != Ok::<u64, ServeError>(2)
        || first != token(1).as_slice()
        || second != token(2).as_slice()
    {
        noting.notes.clear();
    }
    noting.notes
}

#[test]
fn all_that_was_heard_is_answered_before_more_is_heard(rt: HostRuntime) {
    let apart = went(rt.alloc(), &TICKET, &TICKET);
    let mut both = [0u8; 58];
    both[..29].copy_from_slice(&TICKET);
    both[29..].copy_from_slice(&TICKET);
    let together = went(rt.alloc(), &both, &[]);
    let (heard, said) = (Note::Heard, Note::Said);
    assert_eq!(rt;
        apart.as_slice(),
        [heard(29), said(37), heard(29), said(37), heard(0)].as_slice()
    );
    assert_eq!(rt;
        together.as_slice(),
        [heard(58), said(37), said(37), heard(0)].as_slice()
    );
}
