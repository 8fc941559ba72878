//! The objects of one kind: their names by pages, and what was noted of each.

ghost use Rattle.std.specs.Prelude.{◌≡◌, ◌≤◌, ◌++◌, ◌∷◌, [], ℕ, List, length, slice_get, Option, Some, None, IfOk, IfSome, OnOk, OnErr};
ghost use Rattle.repo_name.specs.declared.kinds.Kind.{Kind};
ghost use Rattle.repo_name.specs.declared.names.Name.{Name};
ghost use Rattle.repo_wire.specs.declared.messages.Ask.{Ask};
ghost use Rattle.repo_session.specs.declared.parts.Came.{Came};
ghost use Rattle.repo_session.specs.Order.{last_of};
ghost use Rattle.repo_session.specs.Readings.{IsShortCame};
ghost use Rattle.repo_check.specs.Rounds.{IsFreshRound, PagesRound, HeedsCame, AsksNext, round_of};
ghost use Rattle.repo_check.specs.declared.rounds.Note.{Note};

use repo_name::{Kind, Name};
use repo_session::{Came, FaultKind, Roll, Step, get_ask};
use repo_wire::Say;
use std::alloc::{AllocError, Global};

/// What was noted of an object that was asked for.
#[derive(Drop)]
pub enum Note<T> {
    /// It reads, and gives this.
    Well(T),
    /// It is at fault.
    Fault(FaultKind),
}

/// The objects of one kind: their names as pages gave them, and what was noted of the first of them.
#[derive(Drop)]
pub struct Round<T> {
    pub roll: Roll,
    pub notes: Vec<Note<T>>,
}

impl<T: Drop> Round<T> {
    /// A round in which nothing was listed yet. It takes no memory.
    pub fn new(alloc: Global, kind: Kind) -> Round<T>
        ensures { IsFreshRound kind (round_of result) }
    {
        Round {
            roll: Roll::new(alloc, kind),
            notes: Vec::new(alloc),
        }
    }

    /// The name of the next object that wasn't noted, if there is one.
    fn next_name(&self) -> Option<Name>
        ensures some { IfSome result (λ name. slice_get self.now.roll.names.items (length self.now.notes.items) ≡ Some name) }
        ensures none { result ≡ None → length self.now.roll.names.items ≤ length self.now.notes.items }
    {
        self.roll.names.as_slice().get(self.notes.len()).copied()
    }

    /// The request for the next object; or all were noted. It takes no memory.
    pub fn next(&self) -> Came<()>
        ensures next { AsksNext (round_of self.now) result }
        ensures short { IsShortCame result }
    {
        match self.next_name() {
            Some(name) => Came::Step(Step::Ask(get_ask(self.roll.kind, name))),
            None => Came::All(()),
        }
    }

    /// Notes something of the next object. It fails for memory alone, and then nothing changed.
    pub fn note(&mut self, note: Note<T>) -> Result<(), AllocError>
        ensures ok { OnOk result (self.new.notes.items ≡ self.old.notes.items ++ note ∷ []) }
        ensures err { OnErr result (self.new.notes.items ≡ self.old.notes.items) }
        ensures roll { self.new.roll ≡ self.old.roll }
    {
        self.notes.push(note).map_err(|_| AllocError)
    }

    /// Notes something of the object that was asked for, and goes on. It fails for memory alone, and then nothing changed.
    pub fn go_on(&mut self, note: Note<T>) -> Result<Came<()>, AllocError>
        ensures notes { OnOk result (self.new.notes.items ≡ self.old.notes.items ++ note ∷ []) }
        ensures next { IfOk result (AsksNext (round_of self.new)) }
        ensures short { IfOk result IsShortCame }
        ensures err { OnErr result (self.new.notes.items ≡ self.old.notes.items) }
        ensures roll { self.new.roll ≡ self.old.roll }
    {
        self.note(note)?;
        Ok(self.next())
    }

    /// The last note goes. It takes no memory.
    pub fn unnote(&mut self)
        ensures notes { (notes : List (Note T)) (note : Note T) → self.old.notes.items ≡ notes ++ note ∷ [] → self.new.notes.items ≡ notes }
        ensures roll { self.new.roll ≡ self.old.roll }
    {
        self.notes.pop();
    }

    /// Takes the reply to the request for a page: one that doesn't rise ends the check. It fails for memory alone, and then
    /// nothing changed.
    pub fn take_page(&mut self, say: &Say) -> Result<Came<()>, AllocError>
        ensures pages { IfOk result (λ turn. PagesRound (round_of self.old) say.now turn (round_of self.new)) }
        ensures heeds { IfOk result (λ turn. (known : ℕ) (kind : Kind) (after : Option Name) → after ≡ last_of self.old.roll.names.items → HeedsCame known (Ask.List kind after) say.now turn) }
        ensures short { IfOk result IsShortCame }
        ensures same { OnErr result (round_of self.new ≡ round_of self.old) }
        ensures notes { self.new.notes ≡ self.old.notes }
        ensures all { IfOk result (λ turn. turn ≡ Came.All tt → self.old.notes.items ≡ [] → round_of self.new ≡ round_of self.old) }
    {
        match self.roll.add_page(say)? {
            Came::All(()) => Ok(self.next()),
            Came::Step(step) => Ok(Came::Step(step)),
        }
    }
}
