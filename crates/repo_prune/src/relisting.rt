//! The new indexes of a prune, one after the other.

ghost use Rattle.std.specs.Prelude.{◌≡◌, [], ℕ, List, length, take, Some, IfOk, OnOk, OnErr};
ghost use Rattle.std.specs.List.Sorted.{IsPermutation};
ghost use Rattle.repo_name.specs.declared.kinds.Kind.{Kind};
ghost use Rattle.repo_name.specs.declared.names.Name.{Name};
ghost use Rattle.repo_name.specs.declared.tokens.Token.{Token};
ghost use Rattle.repo_session.specs.Jobs.{IsShortStep};
ghost use Rattle.repo_session.specs.declared.jobs.Step.{Step};
ghost use Rattle.repo_wire.specs.declared.messages.Ask.{Ask};
ghost use Rattle.repo_prune.specs.Pruning.{AscendByName};
ghost use Rattle.repo_prune.specs.Relisting.{IsSameRelisting, Relists, IsShortRelisting};
ghost use Rattle.repo_prune.specs.inner.Indexing.{NotesIndex};

use crate::indexing::{copies_of, cut, index_of, sort_packs};
use repo_index::PackFacts;
use repo_name::{Name, Token};
use repo_session::Step;
use repo_wire::Ask;
use repo_writing::{Counts, put_index};
use std::alloc::{AllocError, Global};

/// All packs that are to be listed, by name; how many of them are, the last ones by the index that is being put; the
/// names of the indexes put; and how much was put in packs.
#[derive(Drop)]
pub struct Relisting {
    pub packs: Vec<PackFacts>,
    pub listed: usize,
    pub indexes: Vec<Name>,
    pub counts: Counts,
    alloc: Global,
}

/// The name of what a step puts.
fn name_put(step: &Step) -> Option<Name>
    ensures { (token : Token) (kind : Kind) (name : Name) (bytes : List ℕ) → step.now ≡ Step.Ask (Ask.Put token kind name bytes) → result ≡ Some name }
{
    match step {
        Step::Ask(Ask::Put { name, .. }) => Some(*name),
        _ => None,
    }
}

impl Relisting {
    /// None of these packs is listed yet; they are sorted by their names. It fails for memory alone.
    pub fn new(alloc: Global, packs: &[PackFacts], counts: Counts) -> Result<Relisting, AllocError>
        ensures packs { IfOk result (λ relisting. IsPermutation packs.now relisting.packs.items) }
        ensures ascend { IfOk result (λ relisting. AscendByName relisting.packs.items) }
        ensures listed { IfOk result (λ relisting. relisting.listed ≡ 0) }
        ensures indexes { IfOk result (λ relisting. relisting.indexes.items ≡ []) }
        ensures counts { IfOk result (λ relisting. relisting.counts ≡ counts) }
    {
        let mut packs = copies_of(alloc, packs)?;
        sort_packs(&mut packs);
        Ok(Relisting {
            packs,
            listed: 0,
            indexes: Vec::new(alloc),
            counts,
            alloc,
        })
    }

    /// Notes the name of the index that a step puts. It fails for memory alone, and then nothing changed.
    fn note(&mut self, step: &Step) -> Result<(), AllocError>
        ensures ok { OnOk result (NotesIndex step.now self.old.indexes.items self.new.indexes.items) }
        ensures err { OnErr result (IsSameRelisting self.old self.new) }
        ensures packs { self.new.packs ≡ self.old.packs }
        ensures listed { self.new.listed ≡ self.old.listed }
        ensures counts { self.new.counts ≡ self.old.counts }
    {
        match name_put(step) {
            Some(name) => {
                self.indexes.push(name)?;
                Ok(())
            }
            None => Ok(()),
        }
    }

    /// Puts an index of the next packs. `None` where all are listed. It fails for memory alone, and then nothing
    /// changed.
    pub fn next(&mut self, token: Token) -> Result<Option<Step>, AllocError>
        ensures on { IfOk result (λ step. Relists self.old token step self.new) }
        ensures short { IfOk result IsShortRelisting }
        ensures err { OnErr result (IsSameRelisting self.old self.new) }
    {
        let packs = self.packs.as_slice();
        if self.listed >= packs.len() {
            return Ok(None);
        }
        let (_, rest) = packs.split_at(self.listed);
        let count = cut(rest);
        let (next, _) = rest.split_at(count);
        let text = index_of(self.alloc, next)?;
        let step = put_index(self.alloc, token, &text)?;
        self.note(&step)?;
        self.listed = self.listed.saturating_add(count);
        Ok(Some(step))
    }
}
