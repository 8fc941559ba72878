//! What a prune deletes, once all that it puts is done.

ghost use Rattle.std.specs.Prelude.{◌≡◌, map, IfOk};
ghost use Rattle.repo_index.specs.declared.facts.PackFacts.{PackFacts};
ghost use Rattle.repo_wire.specs.declared.messages.Ask.{Ask};
ghost use Rattle.repo_session.specs.Jobs.{IsShortStep};
ghost use Rattle.repo_session.specs.declared.jobs.Step.{Step};
ghost use Rattle.repo_prune.specs.inner.Deleting.{BeginsDeleting, DeletesNext, IsGone};

use crate::picking::pick;
use crate::relisting::Relisting;
use repo_index::PackFacts;
use repo_name::{Kind, Name, Token};
use repo_session::{Outcome, Step};
use repo_wire::Ask;
use std::alloc::{AllocError, Global};

/// The old indexes, and the packs that no new index lists; how many of these were deleted; and how many bytes the blobs
/// of new packs have.
#[derive(Drop)]
pub struct Deleting {
    pub indexes: Vec<Name>,
    pub packs: Vec<Name>,
    pub indexes_gone: usize,
    pub packs_gone: usize,
    pub bytes: u64,
}

/// The names of some packs, in their order. It fails for memory alone.
fn names_of(alloc: Global, packs: &[PackFacts]) -> Result<Vec<Name>, AllocError>
    ensures { IfOk result (λ names. names.items ≡ map (λ (listed : PackFacts). listed.pack) packs.now) }
{
    packs.iter().map(|listed| listed.pack).collect(alloc)
}

/// Deletes an object.
fn delete(token: Token, kind: Kind, name: Name) -> Step
    ensures deletes { result ≡ Step.Ask (Ask.Delete token kind name) }
    ensures short { IsShortStep result }
{
    // Its contract tells the proof what the type of names says.
    name.to_bytes();
    Step::Ask(Ask::Delete { token, kind, name })
}

impl Deleting {
    /// Of the listed indexes those that weren't put are to be deleted, and of the listed packs those that no new index
    /// lists. It fails for memory alone.
    pub fn new(
        alloc: Global,
        relisting: &Relisting,
        indexes: &[Name],
        packs: &[Name],
    ) -> Result<Deleting, AllocError>
        ensures { IfOk result (λ deleting. BeginsDeleting relisting.now indexes.now packs.now deleting) }
    {
        let kept = names_of(alloc, relisting.packs.as_slice())?;
        Ok(Deleting {
            indexes: pick(alloc, indexes, relisting.indexes.as_slice(), false)?,
            packs: pick(alloc, packs, kept.as_slice(), false)?,
            indexes_gone: 0,
            packs_gone: 0,
            bytes: relisting.counts.bytes,
        })
    }

    /// Deletes the next index; once all are gone, the next pack; and ends once these are gone too. It takes no memory.
    pub fn next(&self, token: Token) -> Step
        ensures next { DeletesNext self.now token result }
        ensures short { IsShortStep result }
    {
        if let Some(name) = self.indexes.as_slice().get(self.indexes_gone) {
            return delete(token, Kind::Index, *name);
        }
        if let Some(name) = self.packs.as_slice().get(self.packs_gone) {
            return delete(token, Kind::Pack, *name);
        }
        Step::Finish(Outcome::Pruned {
            packs: self.packs.len() as u64,
            bytes: self.bytes,
        })
    }

    /// One more of a kind is gone.
    pub fn note_gone(&mut self, kind: Kind)
        ensures { IsGone self.old kind self.new }
    {
        match kind {
            Kind::Index => self.indexes_gone = self.indexes_gone.saturating_add(1),
            Kind::Pack => self.packs_gone = self.packs_gone.saturating_add(1),
            Kind::Snapshot => {}
        }
    }
}
