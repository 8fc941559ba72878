//! The listing and reading of a store, as a prune does it.

ghost use Rattle.std.specs.Prelude.{◌≡◌, Option, IfOk, OnErr};
ghost use Rattle.repo_name.specs.declared.kinds.Kind.{Kind};
ghost use Rattle.repo_name.specs.declared.names.Name.{Name};
ghost use Rattle.repo_name.specs.declared.tokens.Token.{Token};
ghost use Rattle.repo_wire.specs.declared.messages.Ask.{Ask};
ghost use Rattle.repo_session.specs.Jobs.{IsShortStep};
ghost use Rattle.repo_prune.specs.PruneStates.{IsListingOf, StepsFor, StepsFrom, HeedsFor, HeedsFrom, KnowsAsMuch};

use crate::prunes::Prune;
use repo_name::{Kind, Token};
use repo_session::{Came, Step, Versions};
use repo_wire::{Ask, Say};
use std::alloc::AllocError;

impl Prune {
    /// Takes the reply to a request of the reading of snapshots, for who knows these versions: one that isn't wanted, or
    /// brings one of another version, ends it. It fails for memory alone, and then what was known is known.
    fn take_snapshots(
        &mut self,
        versions: Versions,
        ask: &Ask,
        say: &Say,
    ) -> Result<Step, AllocError>
        ensures steps { IfOk result (λ step. (token : Token) → IsListingOf Kind.Snapshot ask.now → StepsFor versions self.old token ask.now say.now step self.new) }
        ensures heeds { IfOk result (λ step. (token : Token) → IsListingOf Kind.Snapshot ask.now → HeedsFor versions self.old token ask.now say.now step) }
        ensures short { IfOk result IsShortStep }
        ensures knows { OnErr result (IsListingOf Kind.Snapshot ask.now → KnowsAsMuch self.old ask.now self.new) }
    {
        match self.snapshots.read_on(ask, say, versions)? {
            Came::All(()) => Ok(Step::Ask(self.catalog.page_ask())),
            Came::Step(step) => Ok(step),
        }
    }

    /// Takes the reply to a request of the reading of indexes. It fails for memory alone, and then what was known is
    /// known.
    fn take_indexes(&mut self, ask: &Ask, say: &Say) -> Result<Step, AllocError>
        ensures steps { IfOk result (λ step. (token : Token) → IsListingOf Kind.Index ask.now → StepsFrom self.old token ask.now say.now step self.new) }
        ensures heeds { IfOk result (λ step. (token : Token) → IsListingOf Kind.Index ask.now → HeedsFrom self.old token ask.now say.now step) }
        ensures short { IfOk result IsShortStep }
        ensures knows { OnErr result (IsListingOf Kind.Index ask.now → KnowsAsMuch self.old ask.now self.new) }
    {
        match self.catalog.read_on(self.alloc, ask, say)? {
            Came::All(_) => Ok(Step::Ask(self.packs.page_ask())),
            Came::Step(step) => Ok(step),
        }
    }

    /// Takes the reply to the request for a page of packs. It fails for memory alone, and then what was known is known.
    fn take_page(&mut self, token: Token, say: &Say) -> Result<Step, AllocError>
        ensures steps { IfOk result (λ step. (after : Option Name) → StepsFrom self.old token (Ask.List Kind.Pack after) say.now step self.new) }
        ensures heeds { IfOk result (λ step. (after : Option Name) → HeedsFrom self.old token (Ask.List Kind.Pack after) say.now step) }
        ensures short { IfOk result IsShortStep }
        ensures knows { OnErr result ((after : Option Name) → KnowsAsMuch self.old (Ask.List Kind.Pack after) self.new) }
    {
        let count = self.packs.names.len();
        match self.packs.add_page(say)? {
            Came::All(()) => {
                let Ok(onward) = self.after_lists(token) else {
                    self.packs.names.truncate(count);
                    return Err(AllocError);
                };
                Ok(self.go(onward))
            }
            Came::Step(step) => Ok(step),
        }
    }

    /// Takes the reply to a request of the listing, for who knows these versions. It fails for memory alone, and then what
    /// was known is known.
    pub fn take_listing(
        &mut self,
        versions: Versions,
        token: Token,
        kind: Kind,
        ask: &Ask,
        say: &Say,
    ) -> Result<Step, AllocError>
        ensures steps { IfOk result (λ step. IsListingOf kind ask.now → StepsFor versions self.old token ask.now say.now step self.new) }
        ensures heeds { IfOk result (λ step. IsListingOf kind ask.now → HeedsFor versions self.old token ask.now say.now step) }
        ensures short { IfOk result IsShortStep }
        ensures knows { OnErr result (IsListingOf kind ask.now → KnowsAsMuch self.old ask.now self.new) }
    {
        match kind {
            Kind::Snapshot => self.take_snapshots(versions, ask, say),
            Kind::Index => self.take_indexes(ask, say),
            Kind::Pack => self.take_page(token, say),
        }
    }
}
