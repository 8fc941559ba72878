//! A table of connections.

ghost use Rattle.std.specs.Prelude.{IsFalse, IsTrue, IsErr, ◌↔◌, ◌≡◌, ◌≤◌, ◌<◌, ◌+◌, ◌^◌, ◌++◌, ◌∷◌, ◌-◌, [], true, IfOk, IsErrOf, OnOk, OnErr, ℕ, length, take, slice_get, Some};
ghost use Rattle.repo_store.specs.Serving.{Ran};
ghost use Rattle.repo_store.specs.Stores.{Store};
ghost use Rattle.repo_hall.specs.Guests.{AnswerCause, IsNewGuest, out_of};
ghost use Rattle.repo_hall.specs.Halls.{Stands, AnswersAt, HappensAt, NothingHappens, LeavesOthers, StaysAt};
ghost use Rattle.repo_hall.specs.Happenings.{Brought, Given};
ghost use Rattle.repo_hall.specs.declared.guests.Guest.{Guest};
ghost use Rattle.repo_hall.specs.declared.halls.HallError.{HallError};

use crate::guests::Guest;
use repo_store::{ServiceError, Shelf};
use std::alloc::{AllocError, Global};

/// Why there is no new guest.
#[derive(Clone, Copy, Debug, PartialEq, Eq)]
pub enum HallError {
    /// All numbers below 2^64 - 1 were given to guests.
    Limit,
    /// There was no memory.
    Memory,
}

/// A table of guests, each at its place, numbered from 0.
///
/// There is a guest at each place: where no connection came yet, one that brought nothing so far.
#[derive(Drop)]
pub struct Hall {
    pub guests: Vec<Guest>,
    /// The number of the next guest; those of all before it are below.
    pub entered: u64,
    alloc: Global,
}

impl Hall {
    /// A hall without places. It takes no memory.
    pub fn new(alloc: Global) -> Hall
        ensures guests { result.guests.items ≡ [] }
        ensures entered { result.entered ≡ 0 }
        ensures stands { (from : Store) (failed : ℕ) → Stands from failed result.guests.items result.entered [] from failed }
    {
        Hall {
            guests: Vec::new(alloc),
            entered: 0,
            alloc,
        }
    }

    /// How many places there are.
    pub fn places(&self) -> usize
        ensures { result ≡ length self.now.guests.items }
    {
        self.guests.len()
    }

    /// Makes one place more, behind the others, for a guest that brought nothing so far. On an error nothing
    /// changed; `Limit` comes only where all numbers were given.
    pub fn add_place(&mut self) -> Result<(), HallError>
        ensures stands { NothingHappens self.old self.new }
        ensures ok { OnOk result ((g : Guest) × (self.new.guests.items ≡ self.old.guests.items ++ g ∷ []) × IsNewGuest g self.old.entered) }
        ensures limit { IsErrOf result HallError.Limit → self.old.entered + 1 ≡ 2 ^ 64 }
        ensures err { OnErr result ((self.new.guests.items ≡ self.old.guests.items) × (self.new.entered ≡ self.old.entered)) }
    {
        if self.entered == u64::MAX {
            return Err(HallError::Limit);
        }
        if self
            .guests
            .push(Guest::new(self.alloc, self.entered))
            .is_err()
        {
            return Err(HallError::Memory);
        }
        self.entered += 1;
        Ok(())
    }

    /// The guest at a place leaves, and one that brought nothing so far takes its place, with the next
    /// number. It fails only where all numbers were given, and then nothing changed.
    pub fn renew(&mut self, place: usize) -> Result<(), HallError>
        requires { place < length self.old.guests.items }
        ensures stands { NothingHappens self.old self.new }
        ensures ok { OnOk result ((g : Guest) → slice_get self.new.guests.items place ≡ Some g → IsNewGuest g self.old.entered) }
        ensures limit { IsErr result ↔ (self.old.entered + 1 ≡ 2 ^ 64) }
        ensures err { OnErr result (self.new ≡ self.old) }
        ensures places { length self.new.guests.items ≡ length self.old.guests.items }
        ensures others { LeavesOthers self.old.guests.items place self.new.guests.items }
    {
        if self.entered == u64::MAX {
            return Err(HallError::Limit);
        }
        self.guests[place] = Guest::new(self.alloc, self.entered);
        self.entered += 1;
        Ok(())
    }

    /// The guest at a place brings a piece. It fails for memory alone, and then nothing happened.
    pub fn arrives(&mut self, place: usize, piece: &[u8]) -> Result<(), AllocError>
        requires { place < length self.old.guests.items }
        ensures ok { OnOk result (HappensAt (λ n. Brought n piece.now) self.old place self.new) }
        ensures err { OnErr result (NothingHappens self.old self.new) }
        ensures places { length self.new.guests.items ≡ length self.old.guests.items }
        ensures guests { StaysAt self.old place self.new }
    {
        self.guests[place].feed(piece)
    }

    /// What the guest at a place is to be given yet.
    pub fn out(&self, place: usize) -> &[u8]
        requires { place < length self.now.guests.items }
        ensures { (g : Guest) → slice_get self.now.guests.items place ≡ Some g → result.now ≡ out_of g }
    {
        self.guests[place].out()
    }

    /// Whether the guest at a place is answered no more.
    pub fn has_ended(&self, place: usize) -> bool
        requires { place < length self.now.guests.items }
        ensures { (g : Guest) → slice_get self.now.guests.items place ≡ Some g → result ≡ g.ended }
    {
        self.guests[place].ended
    }

    /// How many bytes the guest at a place brought that belong to no request that was answered.
    pub fn held(&self, place: usize) -> usize
        requires { place < length self.now.guests.items }
        ensures { (g : Guest) → slice_get self.now.guests.items place ≡ Some g → result ≡ length g.reader.unread }
    {
        self.guests[place].reader.held()
    }

    /// Whether each byte that the guest at a place brought belongs to a request that was answered.
    pub fn is_between(&self, place: usize) -> bool
        requires { place < length self.now.guests.items }
        ensures { (g : Guest) → slice_get self.now.guests.items place ≡ Some g → IsTrue result ↔ (g.reader.unread ≡ []) }
    {
        self.guests[place].reader.is_between()
    }

    /// The guest at a place was given the first bytes of what it is to be given, so many.
    pub fn gave(&mut self, place: usize, count: usize)
        requires place { place < length self.old.guests.items }
        requires count { (g : Guest) → slice_get self.old.guests.items place ≡ Some g → count ≤ length (out_of g) }
        ensures stands { (g : Guest) → slice_get self.old.guests.items place ≡ Some g
            → HappensAt (λ n. Given n (take count (out_of g))) self.old place self.new }
        ensures places { length self.new.guests.items ≡ length self.old.guests.items }
        ensures guests { StaysAt self.old place self.new }
    {
        self.guests[place].gave(count);
    }

    /// Answers the next request of the guest at a place, where a whole one is there and the last reply was
    /// given. It says whether one was answered: none is only where the guest is answered no more, has
    /// something to be given yet, or brought less than a whole frame, and then nothing changed.
    ///
    /// After an error the guest is answered no more. `Wire` comes only where what it brought has that fault,
    /// and `Memory` where there was none for a request, or for the reply to one that was answered.
    pub fn answer_at<S: Shelf>(&mut self, place: usize, shelf: &mut S) -> Result<bool, ServiceError>
        requires { place < length self.old.guests.items }
        ensures stands { S.honest shelf.old
            → AnswersAt self.old place (S.store shelf.old) (S.failed shelf.old) result self.new (S.store shelf.new) (S.failed shelf.new) }
        ensures runs { S.honest shelf.old → Ran (S.store shelf.old) (S.failed shelf.old) (S.store shelf.new) (S.failed shelf.new) }
        ensures cause { (g : Guest) → slice_get self.old.guests.items place ≡ Some g → AnswerCause g result }
        ensures still { IfOk result (λ some. IsFalse some → (self.new.guests.items ≡ self.old.guests.items) × (shelf.new ≡ shelf.old)) }
        ensures entered { self.new.entered ≡ self.old.entered }
        ensures over { IsErr result → (g : Guest) → slice_get self.new.guests.items place ≡ Some g → g.ended ≡ true }
        ensures honest { S.honest shelf.old → S.honest shelf.new }
        ensures places { length self.new.guests.items ≡ length self.old.guests.items }
        ensures guests { StaysAt self.old place self.new }
    {
        let alloc = self.alloc;
        self.guests[place].answer_next(alloc, shelf)
    }
}
