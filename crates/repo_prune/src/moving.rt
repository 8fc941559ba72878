//! The moving of used blobs to new packs, as a prune does it.

ghost use Rattle.std.specs.Prelude.{◌≡◌, ◌↔◌, ◌≢◌, ◌≤◌, ◌⊎◌, ◌+◌, ◌++◌, ◌∷◌, [], List, length, slice_get, Some, None, IsTrue, IsFalse, IfOk, OnOk, OnErr};
ghost use Rattle.repo_name.specs.Naming as naming;
ghost use Rattle.repo_index.specs.declared.facts.Fact.{Fact};
ghost use Rattle.repo_pack.specs.PackLayout.{Item, IsBlobLength};
ghost use Rattle.repo_pack.specs.PackWriting.{IsOpen};
ghost use Rattle.repo_prune.specs.Moving.{IsMoving, MayBeSealed, AwaitsBlob, MovesOn, StaysMoving, AwaitsStill, TakesMore, AddsBlob, AddsAwaited, MovesBlob};

use repo_index::{Fact, PackFacts};
use repo_name::BLOB_LIMIT;
use repo_pack::Sealed;
use repo_writing::{Counts, Packer, Target};
use std::alloc::{AllocError, Global};

/// What comes next of the moving.
#[derive(Drop)]
pub enum Moved {
    /// The blob of this fact is to be asked for.
    Ask(Fact),
    /// This pack is to be put.
    Put(Sealed),
    /// All blobs were added to packs, and these were sent.
    Done,
    /// What is known of the moving doesn't hold, which never comes.
    Nothing,
}

/// The blobs that move, how many of them were added to packs, and which one was asked for; the packs that they are
/// written to; how those sent are listed; and the counts of these.
#[derive(Drop)]
pub struct Moving {
    pub moves: Vec<Fact>,
    pub added: usize,
    pub asked: usize,
    pub packer: Packer,
    pub listed: Vec<PackFacts>,
    pub counts: Counts,
}

/// The fact that stands there.
fn fact_at(facts: &[Fact], at: usize) -> Option<Fact>
    ensures { result ≡ slice_get facts.now at }
{
    facts.get(at).copied()
}

impl Moving {
    /// Nothing was moved yet, and these packs are listed. It takes no memory.
    pub fn new(alloc: Global, target: Target, listed: Vec<PackFacts>, moves: Vec<Fact>) -> Moving
        ensures moving { IsMoving result [] [] }
        ensures listed { result.listed ≡ listed }
        ensures moves { result.moves ≡ moves }
        ensures target { result.packer.target ≡ target }
        ensures added { result.added ≡ 0 }
    {
        Moving {
            moves,
            added: 0,
            asked: 0,
            packer: Packer::new(alloc, target),
            listed,
            counts: Counts::none(),
        }
    }

    /// The fact of the blob that was asked for.
    pub fn awaited(&self) -> Option<Fact>
        ensures { result ≡ slice_get self.now.moves.items self.now.asked }
    {
        fact_at(self.moves.as_slice(), self.asked)
    }

    /// Whether a pack is to be sent: one is sealed; or the one that is being written is due, or has the last blobs.
    fn is_due(&self) -> bool
        ensures due { IsTrue result → (self.now.packer.sealed ≢ None) ⊎ (1 ≤ length self.now.packer.writer.items) }
        ensures open { IsFalse result → TakesMore self.now }
        ensures full { IsTrue result → MayBeSealed self.now }
    {
        self.packer.sealed.is_some()
            || self.packer.writer.is_due()
            || self.added >= self.moves.len() && !self.packer.writer.is_empty()
    }

    /// Seals the pack that is being written, unless one is sealed. It fails for memory alone, and then nothing changed.
    fn seal(&mut self) -> Result<(), AllocError>
        requires { (self.old.packer.sealed ≢ None) ⊎ (1 ≤ length self.old.packer.writer.items) }
        ensures moving { OnOk result ((sent sealed : List Item) → MayBeSealed self.old → IsMoving self.old sent sealed → (more : List Item) × IsMoving self.new sent more) }
        ensures sealed { OnOk result (self.new.packer.sealed ≢ None) }
        ensures err { OnErr result (self.new ≡ self.old) }
        ensures listed { self.new.listed ≡ self.old.listed }
        ensures kept { (self.new.moves ≡ self.old.moves) × (self.new.added ≡ self.old.added) × (self.new.asked ≡ self.old.asked) }
        ensures target { self.new.packer.target ≡ self.old.packer.target }
    {
        if self.packer.sealed.is_some() {
            return Ok(());
        }
        self.packer.seal()
    }

    /// Lists the pack that is sealed, and takes it out. It fails for memory alone, and then nothing changed.
    fn send(&mut self) -> Result<Moved, AllocError>
        requires { self.old.packer.sealed ≢ None }
        ensures on { IfOk result (λ moved. (sent sealed : List Item) → IsMoving self.old sent sealed → MovesOn sent self.old.listed.items moved self.new) }
        ensures err { OnErr result ((sent sealed : List Item) → IsMoving self.old sent sealed → StaysMoving self.old self.new sent) }
        ensures moves { self.new.moves ≡ self.old.moves }
        ensures added { self.new.added ≡ self.old.added }
        ensures target { self.new.packer.target ≡ self.old.packer.target }
    {
        let Some(listed) = self.packer.facts()? else {
            return Ok(Moved::Nothing);
        };
        self.listed.push(listed)?;
        match self.packer.sealed.take() {
            Some(sealed) => {
                self.counts.add(&sealed);
                Ok(Moved::Put(sealed))
            }
            None => Ok(Moved::Nothing),
        }
    }

    /// Goes on: a pack that is due is sent, or the next blob is asked for. It fails for memory alone, and then what was
    /// known is known, but for the pack that is sealed.
    pub fn next(&mut self) -> Result<Moved, AllocError>
        ensures on { IfOk result (λ moved. (sent sealed : List Item) → IsMoving self.old sent sealed → MovesOn sent self.old.listed.items moved self.new) }
        ensures err { OnErr result ((sent sealed : List Item) → IsMoving self.old sent sealed → StaysMoving self.old self.new sent) }
        ensures moves { self.new.moves ≡ self.old.moves }
        ensures added { self.new.added ≡ self.old.added }
        ensures target { self.new.packer.target ≡ self.old.packer.target }
    {
        if self.is_due() {
            self.seal()?;
            return self.send();
        }
        self.asked = self.added;
        match fact_at(self.moves.as_slice(), self.added) {
            Some(fact) => Ok(Moved::Ask(fact)),
            None => Ok(Moved::Done),
        }
    }

    /// Whether the pack that is being written takes a blob of these bytes.
    fn has_room(&self, bytes: &[u8]) -> bool
        ensures { IsTrue result ↔ (IsOpen self.now.packer.writer × IsBlobLength (length bytes.now)) }
    {
        !self.packer.writer.is_due() && !bytes.is_empty() && bytes.len() <= BLOB_LIMIT
    }

    /// Adds the blob that was asked for. It fails for memory alone, and then it is awaited as before.
    fn add(&mut self, fact: Fact, bytes: &[u8]) -> Result<(), AllocError>
        requires room { IsOpen self.old.packer.writer × IsBlobLength (length bytes.now) }
        requires named { fact.name ≡ naming.name bytes.now }
        ensures ok { OnOk result (AddsBlob fact self.old self.new) }
        ensures err { OnErr result ((sent sealed : List Item) → AwaitsBlob self.old fact sent sealed → AwaitsStill self.old self.new fact sent) }
        ensures moves { self.new.moves ≡ self.old.moves }
        ensures target { self.new.packer.target ≡ self.old.packer.target }
    {
        self.packer.add(fact.kind, &fact.name, bytes)?;
        self.added = self.added.saturating_add(1);
        Ok(())
    }

    /// Takes the bytes of the blob that was asked for, which have its name, and goes on. It fails for memory alone, and
    /// then they may be taken again.
    pub fn take_blob(&mut self, fact: Fact, bytes: &[u8]) -> Result<Moved, AllocError>
        requires { fact.name ≡ naming.name bytes.now }
        ensures on { IfOk result (λ moved. MovesBlob fact bytes.now self.old moved self.new) }
        ensures err { OnErr result ((sent sealed : List Item) → AwaitsBlob self.old fact sent sealed → AwaitsStill self.old self.new fact sent) }
        ensures added { IfOk result (λ moved. AddsAwaited fact bytes.now self.old self.new) }
        ensures moves { self.new.moves ≡ self.old.moves }
        ensures target { self.new.packer.target ≡ self.old.packer.target }
    {
        if self.added == self.asked {
            if !self.has_room(bytes) {
                return Ok(Moved::Nothing);
            }
            self.add(fact, bytes)?;
        }
        self.next()
    }
}
